ghost use Rattle.std.specs.Prelude.{ℕ, List, ◌∷◌, length, drop, Contains, Option, None};
ghost use Rattle.host_model.specs.declared.file.File.{File as AFile};
ghost use Rattle.host_model.specs.declared.status.Status.{Status as AStatus};
ghost use Rattle.host_model.specs.Disks.{EveryDisk};
ghost use Rattle.host_model.specs.Moments.{EveryCrash, Throughout};
ghost use Rattle.host_model.specs.Past.{told};
ghost use Rattle.history.specs.History.{Beat};
ghost use Rattle.tier_settings.specs.declared.settings.Settings.{Settings as ASettings};
ghost use Rattle.agent_app.specs.declared.collect.Collector.{Collector as ACollector};
ghost use Rattle.agent_app.specs.Collect.{CollectsAll, Outside};
ghost use Rattle.agent_app.specs.Course.{Course, Database, HoldsRuns, MayHaveMade, OfCollector, OfHealth, OfLink, OfSource, OneRun};
ghost use Rattle.agent_app.specs.Health.{ConfiguresAll};
ghost use Rattle.agent_app.specs.New.{Makes};
ghost use Rattle.agent_app.specs.Query.{Asks};
ghost use Rattle.agent_app.specs.Receive.{ReceivesAll};
ghost use Rattle.agent_app.specs.Run.{RunsAll};
ghost use Rattle.agent_app.specs.Send.{SendsAll};
ghost use Rattle.link_session.specs.Session.{LinkSeen};

use host_model::Host;

/// The law of all commands on one honest host, one after the other, whatever input each has and whatever it ends with.
/// At the start a crash leaves one of the given databases, or none where that is among them. `run`, `collect`,
/// `health` and `receive` store. Between them questions may be asked, texts converted, copies sent to a parent and
/// `new` tried, also after a `new` that failed. Whatever a crash leaves at the end, or at any moment of one command
/// more, is what these stored from one of those databases, in order. Each goes on from what the one before left, by
/// a prefix of what it took, and by all of it unless it ended with 4, 5 or 15. What it took is the beats of its
/// text, the configuration, or the gaps and the beats of the Data that came over its link. Every beat that it
/// acknowledged is there. It does nothing.
pub fn crashes_leave_what_was_stored<H: Host>()
    ensures kept { H.honest → (starts : List (Option Database)) (tried : List ASettings)
        (runs : List OneRun) (host : H)
        → Course H.honest H.seen starts tried runs host
        → EveryDisk (HoldsRuns starts tried runs) (H.seen host).past }
    ensures moments { H.honest → (starts : List (Option Database)) (tried : List ASettings)
        (runs : List OneRun) (host host' : H)
        (status : AStatus) (left left' : Option (List ℕ)) (source_faults source_faults' : ℕ)
        → Course H.honest H.seen starts tried runs host
        → RunsAll H.honest status left left' source_faults source_faults' (H.seen host)
        (H.seen host')
        → Throughout (EveryCrash (λ disk text. HoldsRuns starts tried (record {
          status = None;
          input = OfSource left left';
          text = drop (length (told (H.seen host).past)) text;
        } ∷ runs) disk))
        (H.seen host).past (H.seen host').past }
    ensures collects_moments { H.honest → (starts : List (Option Database)) (tried : List ASettings)
        (runs : List OneRun) (host host' : H)
        (asked : ACollector) (status : AStatus) (outside outside' : Outside)
        → Course H.honest H.seen starts tried runs host
        → CollectsAll H.honest asked status outside outside' (H.seen host) (H.seen host')
        → Throughout (EveryCrash (λ disk text. HoldsRuns starts tried (record {
          status = None;
          input = OfCollector asked outside outside';
          text = drop (length (told (H.seen host).past)) text;
        } ∷ runs) disk))
        (H.seen host).past (H.seen host').past }
    ensures configures_moments { H.honest → (starts : List (Option Database))
        (tried : List ASettings) (runs : List OneRun) (host host' : H)
        (status : AStatus) (left left' : Option (List ℕ)) (source_faults source_faults' : ℕ)
        → Course H.honest H.seen starts tried runs host
        → ConfiguresAll H.honest status left left' source_faults source_faults' (H.seen host)
        (H.seen host')
        → Throughout (EveryCrash (λ disk text. HoldsRuns starts tried (record {
          status = None;
          input = OfHealth left left';
          text = drop (length (told (H.seen host).past)) text;
        } ∷ runs) disk))
        (H.seen host).past (H.seen host').past }
    ensures receives_moments { H.honest → (starts : List (Option Database)) (tried : List ASettings)
        (runs : List OneRun) (host host' : H) (status : AStatus) (link link' : LinkSeen)
        → Course H.honest H.seen starts tried runs host
        → ReceivesAll H.honest status link link' (H.seen host) (H.seen host')
        → Throughout (EveryCrash (λ disk text. HoldsRuns starts tried (record {
          status = None;
          input = OfLink link link';
          text = drop (length (told (H.seen host).past)) text;
        } ∷ runs) disk))
        (H.seen host).past (H.seen host').past }
    ensures sends_moments { H.honest → (starts : List (Option Database)) (tried : List ASettings)
        (runs : List OneRun) (host host' : H) (status : AStatus) (link link' : LinkSeen)
        → Course H.honest H.seen starts tried runs host
        → SendsAll H.honest status link link' (H.seen host) (H.seen host')
        → Throughout (EveryDisk (HoldsRuns starts tried runs))
        (H.seen host).past (H.seen host').past }
    ensures asks_moments { H.honest → (starts : List (Option Database)) (tried : List ASettings)
        (runs : List OneRun) (host host' : H) (answer : ASettings → List Beat → List ℕ)
        (status : AStatus)
        → Course H.honest H.seen starts tried runs host
        → Asks H.honest answer status (H.seen host) (H.seen host')
        → Throughout (EveryDisk (HoldsRuns starts tried runs))
        (H.seen host).past (H.seen host').past }
    ensures makes_moments { H.honest → (starts : List (Option Database)) (tried : List ASettings)
        (runs : List OneRun) (host host' : H) (set : ASettings) (status : AStatus)
        → Course H.honest H.seen starts tried runs host
        → (MayHaveMade status (H.seen host) → Contains tried set)
        → Makes H.honest set status (H.seen host) (H.seen host')
        → Throughout (EveryDisk (HoldsRuns starts tried runs))
        (H.seen host).past (H.seen host').past }
{}
