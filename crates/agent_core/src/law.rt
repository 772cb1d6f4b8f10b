ghost use Rattle.std.specs.Prelude.{◌≡◌, ◌<◌, ◌≤◌, ◌+◌, ℕ, Bool, true, false, List, [], ◌∷◌, ◌++◌, map, take, Option, Some, None, is_some, reverse, Result};
ghost use Rattle.std.specs.List.{AllByRecursion};
ghost use Rattle.host_model.specs.declared.file.File.{File as AFile};
ghost use Rattle.history.specs.declared.line.Line.{Line};
ghost use Rattle.history.specs.declared.line.Line.TheVariants.{Moment};
ghost use Rattle.history.specs.History.{Beat, child, collected, copied, Copy, gaps, Gap, health, last, missing, registry_of};
ghost use Rattle.history.specs.declared.beat.OpenBeat.{OpenBeat};
ghost use Rattle.history.specs.Looking.{beat as open_beat};
ghost use Rattle.history.specs.Read.{history_at, refusal_at};
ghost use Rattle.chart_registry.specs.Accepted.{AreAccepted, IsWithin};
ghost use Rattle.beat_tiers.specs.declared.kept.Kept.{Kept as AKept};
ghost use Rattle.alarm_events.specs.Log.{shown};
ghost use Rattle.beat_tiers.specs.Beats.{series_points};
ghost use Rattle.tier_settings.specs.declared.settings.Settings.{Settings as ASettings};
ghost use Rattle.replication.specs.declared.ask.Ask.{Ask as AnAsk};
ghost use Rattle.replication.specs.declared.message.Data.{Data};
ghost use Rattle.replication.specs.declared.verdict.Verdict.{Verdict};
ghost use Rattle.replication.specs.Answer.{from_of};
ghost use Rattle.replication.specs.Copies.{above, had_floor, latest, EndsBy, RisesFrom};
ghost use Rattle.link_frames.specs.DataForm.{IsData};
ghost use Rattle.store_core.specs.declared.beats.beat.Beat.{Beat as StoreBeat};
ghost use Rattle.store_core.specs.Stands.{is_made};
ghost use Rattle.store_core.specs.Damaged.{IsDamagedIn};
ghost use Rattle.agent_core.specs.Notes.{IsDamaged};
ghost use Rattle.collect_block.specs.declared.feed.Feed.{Feed};
ghost use Rattle.collect_block.specs.Feed.{CountsAt, IsFeedOf};
ghost use Rattle.agent_core.specs.declared.fault.AgentFault.{AgentFault};
ghost use Rattle.agent_core.specs.declared.reply.Reply.{Reply};
ghost use Rattle.agent_core.specs.declared.reply.Said.{Said};
ghost use Rattle.agent_core.specs.Agent.{AgentState, IsSoundBy};
ghost use Rattle.agent_core.specs.Alarms.{all_events, log_at};
ghost use Rattle.agent_core.specs.Bound.{RunsWithin};
ghost use Rattle.agent_core.specs.Calls.{AnswersAsk, Beats, Keeps, Lines, Queries, SetsHealth, TakesData};
ghost use Rattle.host_model.specs.Past.{Told};
ghost use Rattle.host_model.specs.Seen.{Seen};
ghost use Rattle.agent_core.specs.Kept.{onto, AreBeatsOf, CopyFollows};
ghost use Rattle.agent_core.specs.Stands.{StandsForHistory};
ghost use Rattle.agent_core.specs.Answers.{floor_of_history, points_of_history, tier_beats};
ghost use Rattle.agent_core.specs.Copies.{data_of_history, seen, seen_moment, span_of, IsCopyOfChild, IsTrueOfChild, SeenBeat};
ghost use Rattle.agent_core.specs.Copying.{added_to, beats_of, copy_refusal};
ghost use Rattle.agent_core.specs.Notes.{NotesGo};
ghost use Rattle.agent_core.specs.Roles.{may_copy, role_of};
ghost use Rattle.agent_core.specs.Rules.{beat_refusal, line_refusal};
ghost use Rattle.agent_core.specs.Sound.{closed_by, history_after, history_by, tried_after};

use host_model::Host;

/// The laws of a text of accepted lines that follows a history; the charts whose line leaves it open have this
/// update_every. The beat that a MOMENT closes is not refused once more, so that a line is refused just where
/// it is refused for where it stands. The history keeps within its limits. It does nothing.
pub fn accepted_text_keeps_the_rules()
    ensures closed { (every : ℕ) (h : List Beat) (past : List Line) (moment : ℕ)
        → IsWithin (registry_of h)
        → AreAccepted every h (Moment moment ∷ past)
        → let now = history_at every h past in beat_refusal (registry_of now) (is_some (child now))
        (last now) moment (open_beat every past) ≡ None }
    ensures line { (every : ℕ) (h : List Beat) (past : List Line) (line : Line)
        → IsWithin (registry_of h) → AreAccepted every h past
        → let now = history_at every h past in line_refusal (registry_of now) (is_some (child now))
        (last now) every past line ≡ refusal_at every h past line }
    ensures within { (every : ℕ) (h : List Beat) (past : List Line) → IsWithin (registry_of h)
        → AreAccepted every h past
        → IsWithin (registry_of (history_at every h past)) }
{}

/// The laws of the side and the notes of a disk: where it stands for a history, they go on. Where it has the form
/// of a database, it has no other, so that they do not both go on and not, and no part of it is damaged. It does
/// nothing.
pub fn history_notes_go_on()
    ensures history { (set : ASettings) (h : List Beat) (disk : AFile → List ℕ)
        → StandsForHistory set h disk → NotesGo true disk }
    ensures once { (disk : AFile → List ℕ) → NotesGo true disk → NotesGo false disk → ⊥ }
    ensures records { (goes : Bool) (disk : AFile → List ℕ) → NotesGo goes disk → IsDamaged disk
        → ⊥ }
    ensures whole { (goes : Bool) (part : ℕ) (disk : AFile → List ℕ) → NotesGo goes disk
        → IsDamagedIn part disk → ⊥ }
    ensures made { (goes : Bool) (disk : AFile → List ℕ) → NotesGo goes disk
        → is_made disk ≡ true }
{}

/// The laws of an agent on an honest host that is sound by a history: it is of that history, or it was before a
/// call of it was refused for the disk or for memory, and then a crash leaves the history with the first of the
/// beats of that call, with none or with all of them. Each `beat` and each `line` keeps it so, by what these calls
/// promise: at `Ok` by the history with the beat, and else by the same. `set_health` does with the configuration,
/// and `take` with the gap and the copied beats that it adds. `query`, `kept` and `data`, which have no beat, keep
/// it so by the same history. They do nothing.
pub fn calls_keep_an_agent_sound<H: Host>()
    ensures beat { H.honest → (host host' : Seen) (agent agent' : AgentState) (beat : OpenBeat)
        (moment : ℕ) (result : Result Reply AgentFault) (set : ASettings) (h tried : List Beat)
        → Beats H.honest host agent beat moment result host' agent'
        → IsSoundBy host.past agent set h tried
        → IsSoundBy host'.past agent' set (history_after result (collected moment beat ∷ []) h)
        (tried_after result (collected moment beat ∷ []) tried) }
    ensures line { H.honest → (host host' : Seen) (agent agent' : AgentState) (feed feed' : Feed)
        (line : Line) (result : Result Said AgentFault)
        (set : ASettings) (h tried : List Beat) (every : ℕ) (past : List Line)
        → IsFeedOf feed every past → CountsAt line feed agent.registry
        → Lines H.honest host agent feed line result host' agent' feed'
        → IsSoundBy host.past agent set h tried
        → IsSoundBy host'.past agent' set (history_by result every past line h)
        (tried_after result (closed_by every past line) tried) }
    ensures query { H.honest → (host host' : Seen) (agent agent' : AgentState) (text : List ℕ)
        (result : Result (List ℕ) AgentFault) (set : ASettings) (h tried : List Beat)
        → Queries H.honest host agent text result host' agent'
        → IsSoundBy host.past agent set h tried
        → IsSoundBy host'.past agent' set h (tried_after result [] tried) }
    ensures kept { H.honest → (host host' : Seen) (agent agent' : AgentState)
        (result : Result AKept AgentFault) (set : ASettings) (h tried : List Beat)
        → Keeps H.honest host agent result host' agent'
        → IsSoundBy host.past agent set h tried
        → IsSoundBy host'.past agent' set h (tried_after result [] tried) }
    ensures set_health { H.honest → (host host' : Seen) (agent agent' : AgentState)
        (text : List ℕ) (result : Result Reply AgentFault) (set : ASettings) (h tried : List Beat)
        → SetsHealth H.honest host agent text result host' agent'
        → IsSoundBy host.past agent set h tried
        → IsSoundBy host'.past agent' set (history_after result (health text ∷ []) h)
        (tried_after result (health text ∷ []) tried) }
    ensures take { H.honest → (host host' : Seen) (agent agent' : AgentState) (message : Data)
        (result : Result (Verdict × Reply) AgentFault) (set : ASettings) (h tried : List Beat)
        → TakesData H.honest host agent message result host' agent'
        → IsSoundBy host.past agent set h tried
        → IsSoundBy host'.past agent' set (history_after result (added_to h message) h)
        (tried_after result (added_to h message) tried) }
    ensures data { H.honest → (host host' : Seen) (agent agent' : AgentState) (ask : AnAsk)
        (result : Result (Option Data) AgentFault) (set : ASettings) (h tried : List Beat)
        → AnswersAsk H.honest host agent ask result host' agent'
        → IsSoundBy host.past agent set h tried
        → IsSoundBy host'.past agent' set h (tried_after result [] tried) }
{}

/// The laws of calls one after the other, where each keeps each file of the database within its share and leaves an
/// agent sound by some history: so do both. Each of `beat`, `line`, `set_health`, `take`, `query`, `kept` and `data`
/// does, by what it promises, and so does what is told between them. They do nothing.
pub fn calls_stay_within_shares<H: Host>()
    ensures none { (host : Seen) (agent : AgentState)
        → RunsWithin H.honest host agent host agent }
    ensures still { (host host' : Seen) (agent : AgentState)
        → (H.honest → host'.past ≡ host.past) → RunsWithin H.honest host agent host' agent }
    ensures told { (host host' : Seen) (agent : AgentState) (sent : List ℕ)
        → (H.honest → host'.past ≡ Told sent ∷ host.past)
        → RunsWithin H.honest host agent host' agent }
    ensures both { (host middle new : Seen) (agent between after : AgentState)
        → RunsWithin H.honest host agent middle between
        → RunsWithin H.honest middle between new after
        → RunsWithin H.honest host agent new after }
    ensures beat { (host host' : Seen) (agent agent' : AgentState) (beat : OpenBeat) (moment : ℕ)
        (result : Result Reply AgentFault)
        → Beats H.honest host agent beat moment result host' agent'
        → RunsWithin H.honest host agent host' agent' }
    ensures line { (host host' : Seen) (agent agent' : AgentState) (feed feed' : Feed)
        (line : Line) (result : Result Said AgentFault) (every : ℕ) (past : List Line)
        → IsFeedOf feed every past → CountsAt line feed agent.registry
        → Lines H.honest host agent feed line result host' agent' feed'
        → RunsWithin H.honest host agent host' agent' }
    ensures set_health { (host host' : Seen) (agent agent' : AgentState) (text : List ℕ)
        (result : Result Reply AgentFault)
        → SetsHealth H.honest host agent text result host' agent'
        → RunsWithin H.honest host agent host' agent' }
    ensures take { (host host' : Seen) (agent agent' : AgentState) (message : Data)
        (result : Result (Verdict × Reply) AgentFault)
        → TakesData H.honest host agent message result host' agent'
        → RunsWithin H.honest host agent host' agent' }
    ensures query { (host host' : Seen) (agent agent' : AgentState) (text : List ℕ)
        (result : Result (List ℕ) AgentFault)
        → Queries H.honest host agent text result host' agent'
        → RunsWithin H.honest host agent host' agent' }
    ensures kept { (host host' : Seen) (agent agent' : AgentState)
        (result : Result AKept AgentFault)
        → Keeps H.honest host agent result host' agent'
        → RunsWithin H.honest host agent host' agent' }
    ensures data { (host host' : Seen) (agent agent' : AgentState) (ask : AnAsk)
        (result : Result (Option Data) AgentFault)
        → AnswersAsk H.honest host agent ask result host' agent'
        → RunsWithin H.honest host agent host' agent' }
{}

/// The law of what is answered of a history: the points that its tiers see of a series are its points, so that
/// answers, floors and kept beats speak of the same points. It does nothing.
pub fn tiers_see_the_points()
    ensures { (h : List Beat) (series : ℕ)
        → reverse (series_points (tier_beats h) series) ≡ points_of_history h series }
{}

/// The law of a history's alarms: their log shows all events of the history, the earliest first. It does nothing.
pub fn log_shows_all_events()
    ensures { (set : ASettings) (h : List Beat) → log_at set h ≡ shown (all_events set h) }
{}

/// The laws of copies, of any history whose beats a store keeps. What is seen of it rises and ends with it, and
/// so do its gaps. A copy of a child stays a copy with the first of the beats that it makes of a `Data`, however
/// many of them a crash leaves, where the `Data` is true of the child and begins where the copy ends; with what it
/// adds of a `Data` it does so wherever that begins, and does not get ahead of the child. A history without beats
/// is a copy. What a history answers to an `Ask` is true of what is seen of it, and it answers nothing only where
/// nothing is seen above the moment from which it would answer. As a child goes on, a `Data` that was true of it
/// stays true, and a copy that is not ahead of it stays a copy. Each copied beat and each gap that is made of a
/// `Data` which is not refused may follow those before it. It does nothing.
pub fn copy_stays_a_copy()
    ensures rises { (h : List Beat) (beats : List StoreBeat) → AreBeatsOf h beats
        → RisesFrom seen_moment 0 (seen h) }
    ensures within { (h : List Beat) (beats : List StoreBeat) → AreBeatsOf h beats
        → latest seen_moment 0 (seen h) ≤ last h }
    ensures ends { (h : List Beat) (beats : List StoreBeat) → AreBeatsOf h beats
        → AllByRecursion (EndsBy (last h)) (map span_of (gaps h)) }
    ensures none { (floors : List ℕ) (child : List SeenBeat) → RisesFrom seen_moment 0 child
        → IsCopyOfChild floors child [] }
    ensures keeps { (h : List Beat) (beats : List StoreBeat) (floors : List ℕ)
        (child : List SeenBeat) (message : Data) (n : ℕ)
        → AreBeatsOf h beats → IsData message → RisesFrom seen_moment 0 child
        → IsCopyOfChild floors child h → IsTrueOfChild floors child message
        → message.prev ≡ last h
        → IsCopyOfChild floors child (onto h (take n (beats_of (registry_of h) message))) }
    ensures prefix { (h : List Beat) (beats : List StoreBeat) (floors : List ℕ)
        (child : List SeenBeat) (message : Data) (n : ℕ)
        → AreBeatsOf h beats → IsData message → RisesFrom seen_moment 0 child
        → IsCopyOfChild floors child h → IsTrueOfChild floors child message
        → IsCopyOfChild floors child (onto h (take n (added_to h message))) }
    ensures added { (h : List Beat) (beats : List StoreBeat) (floors : List ℕ)
        (child : List SeenBeat) (message : Data)
        → AreBeatsOf h beats → IsData message → RisesFrom seen_moment 0 child
        → IsCopyOfChild floors child h → IsTrueOfChild floors child message
        → IsCopyOfChild floors child (onto h (added_to h message)) }
    ensures behind { (h : List Beat) (floors : List ℕ) (child : List SeenBeat) (message : Data)
        (n : ℕ)
        → IsData message → RisesFrom seen_moment 0 child → IsTrueOfChild floors child message
        → last h ≤ latest seen_moment 0 child
        → last (onto h (take n (added_to h message))) ≤ latest seen_moment 0 child }
    ensures answer { (set : ASettings) (h : List Beat) (beats : List StoreBeat) (ask : AnAsk)
        (floors : List ℕ) (message : Data)
        → AreBeatsOf h beats → had_floor floors (floor_of_history set h 0) ≡ true
        → data_of_history set h ask ≡ Some message → IsTrueOfChild floors (seen h) message }
    ensures all { (set : ASettings) (h : List Beat) (beats : List StoreBeat) (ask : AnAsk)
        → AreBeatsOf h beats → ask.child ≡ set.id → data_of_history set h ask ≡ None
        → above seen_moment (from_of (floor_of_history set h 0) ask.last) (seen h) ≡ [] }
    ensures stays_true { (floors more : List ℕ) (child later : List SeenBeat) (message : Data)
        → RisesFrom seen_moment 0 (child ++ later) → IsTrueOfChild floors child message
        → IsTrueOfChild (floors ++ more) (child ++ later) message }
    ensures stays_copy { (floors more : List ℕ) (child later : List SeenBeat) (h : List Beat)
        → RisesFrom seen_moment 0 (child ++ later) → last h ≤ latest seen_moment 0 child
        → IsCopyOfChild floors child h → IsCopyOfChild (floors ++ more) (child ++ later) h }
    ensures copies { (h before rest : List Beat) (beats : List StoreBeat) (message : Data)
        (copy : Copy)
        → AreBeatsOf h beats → IsData message
        → copy_refusal (registry_of h) (role_of h) message ≡ None → message.prev ≡ last h
        → beats_of (registry_of h) message ≡ before ++ copied copy ∷ rest
        → CopyFollows (onto h before) copy }
    ensures gaps { (h before rest : List Beat) (beats : List StoreBeat) (message : Data)
        (gap : Gap)
        → AreBeatsOf h beats → IsData message
        → copy_refusal (registry_of h) (role_of h) message ≡ None → message.prev ≡ last h
        → beats_of (registry_of h) message ≡ before ++ missing gap ∷ rest
        → let g = onto h before in (may_copy (role_of g) ≡ true) × (last g < gap.to) }
{}
