//! Which pairs are of one alarm.
ghost use Rattle.std.specs.Prelude.{◌≡◌, ℕ, ◌+◌, ◌^◌, ◌<◌, List, [], ◌∷◌, ◌++◌, IfOk, OnOk};
ghost use Rattle.std.specs.List.{flat_map};
ghost use Rattle.alarm_core.specs.Runs.{AreRunsOf, alarms_in, alarms_with};

use crate::pairs::Pair;
use fixed_num::ListOf;
use std::alloc::{AllocError, Global};

/// Pairs of one alarm, one behind the other.
#[derive(Clone, Copy, Debug, PartialEq, Eq)]
pub struct Run {
    /// The place of the alarm in its configuration.
    pub alarm: usize,
    /// How many pairs these are.
    pub len: usize,
}

/// Runs, in the order of the pairs.
pub type RunList = ListOf<Run>;

fn push(runs: &mut RunList, run: Run) -> Result<(), AllocError>
    ensures { OnOk result (runs.new ≡ runs.old ++ run ∷ []) }
{
    runs.push(run).map_err(|_| AllocError)
}

/// The run of one more pair: the run before with it, or where that is of another alarm, a new one. Then
/// the run before is added.
fn with_pair(runs: &mut RunList, run: Run, pair: Pair) -> Result<Run, AllocError>
    requires { run.len + 1 < 2 ^ 64 }
    ensures alarms { IfOk result (λ next. flat_map alarms_in runs.new ++ alarms_in next
        ≡ (flat_map alarms_in runs.old ++ alarms_in run) ++ pair.alarm ∷ []) }
    ensures whole { IfOk result (λ next. (more : List ℕ) → alarms_with runs.new next more
        ≡ alarms_with runs.old run (pair.alarm ∷ more)) }
{
    if run.alarm == pair.alarm {
        return Ok(Run {
            alarm: pair.alarm,
            len: run.len + 1,
        });
    }
    push(runs, run)?;
    Ok(Run {
        alarm: pair.alarm,
        len: 1,
    })
}

/// The runs of pairs, each as long as it can be. It goes once through the pairs.
pub fn runs_of(alloc: Global, pairs: &[Pair]) -> Result<RunList, AllocError>
    ensures { IfOk result (AreRunsOf pairs.now) }
{
    let mut runs = RunList::new(alloc);
    let Some(first) = pairs.first() else {
        return Ok(runs);
    };
    let mut run = Run {
        alarm: first.alarm,
        len: 0,
    };
    for pair in pairs {
        run = with_pair(&mut runs, run, *pair)?;
    }
    push(&mut runs, run)?;
    Ok(runs)
}
