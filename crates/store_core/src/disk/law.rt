ghost use Rattle.std.specs.Prelude.{◌≡◌, ℕ, ◌≤◌, List, ◌∷◌, length};
ghost use Rattle.host_model.specs.declared.file.File.{File as AFile};
ghost use Rattle.host_model.specs.Moments.{Throughout};
ghost use Rattle.host_model.specs.Past.{Event, Told};
ghost use Rattle.checkpoint_body.specs.declared.body.Body.{Body as ABody};
ghost use Rattle.checkpoint_body.specs.Body.{body_bytes, HasSpelling};
ghost use Rattle.store_core.specs.declared.disk.sealed.Sealed.{Sealed as ASealed};
ghost use Rattle.store_core.specs.disk.Contents.{Contents};
ghost use Rattle.store_core.specs.disk.Damaged.{IsDamagedAt};
ghost use Rattle.store_core.specs.disk.Files.{FilesState, IsOpenOf};
ghost use Rattle.store_core.specs.disk.Holds.{Holds};
ghost use Rattle.store_core.specs.disk.Opening.{OnlySyncs};
ghost use Rattle.store_core.specs.disk.Shares.{share, HasOwnSlots, HasRoom, HasSlotRoom, IsWithin};

/// Laws of databases, for any disk; the call does nothing. A disk holds one contents at most, and none
/// where a part of it is damaged, which is one part then.
pub fn one_disk_holds_one_contents()
    ensures one { (contents others : Contents) (disk : AFile → List ℕ) → Holds contents disk
        → Holds others disk → contents ≡ others }
    ensures whole { (part : ℕ) (contents : Contents) (disk : AFile → List ℕ)
        → Holds contents disk → ¬ IsDamagedAt part disk }
    ensures one_part { (part other : ℕ) (disk : AFile → List ℕ) → IsDamagedAt part disk
        → IsDamagedAt other disk → part ≡ other }
{}

/// Laws of the shares of files; the call does nothing. In the shares that settings give there is room
/// for each checkpoint with a side that is short enough, and for each extent in a slot of its tier.
/// Syncs leave no file with more than its share.
pub fn shares_hold_what_is_written()
    ensures room { (side number : ℕ) (body : ABody) → HasSpelling body → length body.side ≤ side
        → HasRoom (share body.settings side) number (body_bytes body) }
    ensures slots { (side : ℕ) (body : ABody) (new : ASealed) → HasOwnSlots body new
        → HasSlotRoom (share body.settings side) body new }
    ensures syncs { (shares : AFile → ℕ) (old new : List Event) → OnlySyncs old new
        → IsWithin shares old → Throughout (IsWithin shares) old new }
{}

/// What is told leaves a database open, and each file within its share. The call does nothing.
pub fn telling_keeps_files_open()
    ensures opened { (past : List Event) (sent : List ℕ) (files : FilesState) (contents : Contents)
        → IsOpenOf past files contents → IsOpenOf (Told sent ∷ past) files contents }
    ensures shares { (past : List Event) (sent : List ℕ) (shares : AFile → ℕ)
        → IsWithin shares past → IsWithin shares (Told sent ∷ past) }
{}
