ghost use Rattle.std.specs.Prelude.{◌≡◌, ◌<◌, ◌≤◌, ℕ, List, [], ◌∷◌, ◌++◌, map, None, true};
ghost use Rattle.beat_tiers.specs.Beats.{TierBeat};
ghost use Rattle.beat_tiers.specs.State.{tier_floor};
ghost use Rattle.query_engine.specs.declared.request.Request.{Request as ARequest};
ghost use Rattle.query_engine.specs.Tiers.{cell_in_tier};
ghost use Rattle.query_engine.specs.Windows.{may_read, start_of};
ghost use Rattle.tier_settings.specs.declared.settings.Settings.{Settings as ASettings};
ghost use Rattle.tier_settings.specs.Limits.{widths, InLimits};
ghost use Rattle.store_core.specs.Tiers.{floor_at, seen};
ghost use Rattle.store_core.specs.View.{points_of};
ghost use Rattle.host_model.specs.declared.file.File.{File as AFile};
ghost use Rattle.host_model.specs.Disks.{EveryDisk};
ghost use Rattle.host_model.specs.Past.{Event, Told};
ghost use Rattle.store_core.specs.declared.beats.beat.Beat.{Beat as ABeat};
ghost use Rattle.store_core.specs.Damaged.{IsDamagedIn};
ghost use Rattle.store_core.specs.Stands.{is_made, Stands};
ghost use Rattle.store_core.specs.Store.{HasApplied, IsReady, IsReplayed, IsStoreAt, IsStoreOf, IsWhole, StoreState};
ghost use Rattle.store_core.specs.Stored.{advanced, count_of, new_database, next_base, tiers_of, HaveFollowed, IsBaseOf, Stored as AStored};

/// Laws of databases, for any disk and any store; the call does nothing. A disk holds one database
/// at most, and none where a part of it is damaged as `open` tells, which is one part then. A store
/// that is whole, was not refused and has applied all beats is one of what is stored. That is what
/// each crash leaves, and telling changes nothing of it. A checkpoint keeps what is stored: the
/// count and what the tiers have.
pub fn one_disk_holds_one_database()
    ensures once { (stored others : AStored) (disk : AFile → List ℕ) → Stands stored disk
        → Stands others disk → stored ≡ others }
    ensures made { (stored : AStored) (disk : AFile → List ℕ) → Stands stored disk
        → is_made disk ≡ true }
    ensures whole { (part : ℕ) (stored : AStored) (disk : AFile → List ℕ) → Stands stored disk
        → IsDamagedIn part disk → ⊥ }
    ensures one_part { (part other : ℕ) (disk : AFile → List ℕ) → IsDamagedIn part disk
        → IsDamagedIn other disk → part ≡ other }
    ensures whole_store { (past : List Event) (store : StoreState)
        → (whole : IsWhole (Unit {0}) past store) → store.fault ≡ None → IsReplayed store
        → IsStoreOf past store whole.stored }
    ensures told_ready { (sent : List ℕ) (past : List Event) (store : StoreState)
        → IsReady (Unit {0}) past store → IsReady (Unit {0}) (Told sent ∷ past) store }
    ensures images { (past : List Event) (store : StoreState) (stored : AStored)
        → IsStoreOf past store stored → EveryDisk (Stands stored) past }
    ensures told { (sent : List ℕ) (past : List Event) (store : StoreState) (stored : AStored)
        (rest : List ABeat) → IsStoreAt past store stored rest
        → IsStoreAt (Told sent ∷ past) store stored rest }
    ensures kept { (stored : AStored) (side : List ℕ)
        → (tiers_of (advanced stored side) ≡ tiers_of stored)
        × (count_of (advanced stored side) ≡ count_of stored) }
{}

/// Laws of what is stored, by lists of beats as tiers see them; the call does nothing. A database
/// that was just made has no beats. A store has applied the beats of its base and those since, and
/// the next checkpoint has what all of them leave. The floors by which a view answers are those of
/// the beats that were applied, and two tiers whose floors are at most where a window starts give
/// it equal cells.
pub fn base_has_what_beats_leave()
    ensures new { (set : ASettings) (side : List ℕ) → InLimits set
        → IsBaseOf set [] (new_database set side).base }
    ensures applied { (past : List Event) (store : StoreState) (stored : AStored)
        (rest : List ABeat) (set : ASettings) (before : List TierBeat)
        → IsStoreAt past store stored rest → IsBaseOf set before stored.base
        → HasApplied set (map seen stored.after ++ before) store }
    ensures next { (stored : AStored) (side : List ℕ) (set : ASettings) (before : List TierBeat)
        → HaveFollowed stored.base stored.after → IsBaseOf set before stored.base
        → IsBaseOf set (map seen stored.after ++ before) (next_base stored side) }
    ensures floors { (store : StoreState) (set : ASettings) (beats : List TierBeat) (tier : ℕ)
        → HasApplied set beats store → tier < 3
        → tier_floor store.tiers tier ≡ floor_at set beats tier }
    ensures two_tiers { (store : StoreState) (set : ASettings) (beats : List TierBeat)
        (request : ARequest) (i series one other : ℕ) → HasApplied set beats store
        → may_read widths request.after request.window one ≡ true
        → may_read widths request.after request.window other ≡ true
        → floor_at set beats one ≤ start_of request i
        → floor_at set beats other ≤ start_of request i
        → cell_in_tier widths (floor_at set beats) one request.group
        (start_of request i) request.window
        (points_of beats series)
        ≡ cell_in_tier widths (floor_at set beats) other request.group
        (start_of request i) request.window
        (points_of beats series) }
{}
