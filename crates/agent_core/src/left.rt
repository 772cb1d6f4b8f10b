//! What the beats of a history leave of it.

ghost use Rattle.std.specs.Prelude.{◌≡◌};

use crate::gaps::Gaps;
use crate::last_seen::nothing_seen;
use alarm_core::{Alarms, Latest};
use beat_points::LastRows;
use chart_registry::Registry;
use std::alloc::{AllocError, Global};

/// What a history does: it collects, or it copies. A configuration decides nothing.
#[derive(Clone, Copy, Debug, PartialEq, Eq)]
pub enum Role {
    /// Nothing yet.
    Undecided,
    /// It has collected beats.
    Collects,
    /// It has copied beats or gaps, the last of them of this child.
    Copies(u64),
}

impl Role {
    ghost use Rattle.agent_core.specs.Roles.{child_in, copies, may_collect, may_copy};

    /// Whether a beat may be collected.
    pub(crate) fn may_collect(self) -> bool
        ensures { result ≡ may_collect self }
    {
        match self {
            Role::Undecided | Role::Collects => true,
            Role::Copies(_) => false,
        }
    }

    /// Whether a beat or a gap may be copied.
    pub(crate) fn may_copy(self) -> bool
        ensures { result ≡ may_copy self }
    {
        match self {
            Role::Undecided | Role::Copies(_) => true,
            Role::Collects => false,
        }
    }

    /// Whether it has copied beats or gaps.
    pub(crate) fn copies(self) -> bool
        ensures { result ≡ copies self }
    {
        !self.may_collect()
    }

    /// The child that it copies, if it copies.
    pub(crate) fn child(self) -> Option<u64>
        ensures { result ≡ child_in self }
    {
        match self {
            Role::Undecided | Role::Collects => None,
            Role::Copies(number) => Some(number),
        }
    }
}

/// What the beats of a history leave. An agent keeps nothing else of them, beside how many there are and when the
/// last of them was.
#[derive(Drop)]
pub struct Left {
    /// The charts and dimensions, by number.
    pub registry: Registry,
    /// What the history does: it collects, or it copies a child.
    pub role: Role,
    /// The last row in which each series was set.
    pub last_rows: LastRows,
    /// What was last seen of each chart and each series.
    pub latest: Latest,
    /// The gaps of a copy: those whose end may lie at or above the floor of tier 0.
    pub gaps: Gaps,
    /// The alarms of its configuration.
    pub alarms: Alarms,
}

impl Left {
    ghost use Rattle.std.specs.Prelude.{[], IfOk};
    ghost use Rattle.tier_settings.specs.declared.settings.Settings.{Settings as ASettings};
    ghost use Rattle.agent_core.specs.Left.{IsFit, IsLeftBy};

    /// What a history without beats leaves. Only memory can be short.
    pub(crate) fn new(alloc: Global) -> Result<Left, AllocError>
        ensures left { IfOk result (λ left. (set : ASettings) → IsLeftBy set [] left) }
        ensures fit { IfOk result IsFit }
    {
        let Ok(alarms) = Alarms::new(alloc) else {
            return Err(AllocError);
        };
        let registry = Registry::new(alloc);
        let last_rows = LastRows::new(alloc);
        let latest = nothing_seen(alloc);
        let gaps = Gaps::new(alloc);
        Ok(Left {
            registry,
            role: Role::Undecided,
            last_rows,
            latest,
            gaps,
            alarms,
        })
    }
}
