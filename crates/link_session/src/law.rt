//! The law of sessions: what they do are steps of a child and a parent.
ghost use Rattle.std.specs.Prelude.{ℕ, List, ◌++◌};
ghost use Rattle.std.specs.List.{AllByRecursion};
ghost use Rattle.history.specs.History.{Beat};
ghost use Rattle.replication.specs.declared.message.Data.{Data};
ghost use Rattle.link_frames.specs.declared.frame.Frame.{Frame};
ghost use Rattle.tier_settings.specs.declared.settings.Settings.{Settings as ASettings};
ghost use Rattle.agent_core.specs.Copies.{data_of_history, seen, IsCopyOfChild, IsTrueOfChild};
ghost use Rattle.link_session.specs.Child.{child_begins, child_does};
ghost use Rattle.link_session.specs.Exchange.{exchange};
ghost use Rattle.link_session.specs.Keeps.{Extends};
ghost use Rattle.link_session.specs.Parent.{done_with};
ghost use Rattle.link_session.specs.Steps.{data_in, run_from, start, world_of, IsKept, LeadTo, Step, WasSent};

/// The laws of the steps that sessions are. Whatever frames come to a child, each Data that it says
/// is an answer step: such steps lead to the world in which just these were sent besides. Whatever
/// frames come to a parent, each Data that it takes is a delivery step, where it was ever sent:
/// such steps lead to the history that the session leaves, and to each that a crash may leave
/// before, with the first of the beats. After any steps from two histories without beats the parent
/// is a copy of the child, and each Data is true of it, where the histories are such as a store
/// keeps. It does nothing.
pub fn sessions_are_steps()
    ensures sends { (set : ASettings) (child parent : List Beat) (floors : List ℕ)
        (messages : List Data) (frames : List Frame)
        → let said = (exchange (child_does set.id (data_of_history set child))
        (child_begins set.id) frames).sent in
        LeadTo set (world_of child floors parent messages)
        (world_of child floors parent (messages ++ data_in said)) }
    ensures receives { (set other : ASettings) (child parent held : List Beat) (floors : List ℕ)
        (messages : List Data) (frames : List Frame)
        → AllByRecursion (WasSent messages) (data_in frames)
        → Extends parent held → Extends held (done_with other parent frames).now.history
        → LeadTo set (world_of child floors parent messages)
        (world_of child floors held messages) }
    ensures copy { (set : ASettings) (steps : List Step)
        → let world = run_from set (start set) steps in IsKept world
        → IsCopyOfChild world.floors (seen world.child) world.parent }
    ensures told { (set : ASettings) (steps : List Step)
        → let world = run_from set (start set) steps in IsKept world
        → AllByRecursion (IsTrueOfChild world.floors (seen world.child)) world.messages }
{}
