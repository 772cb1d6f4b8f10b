//! The tests of `replication`: what a child answers, what its parent keeps, and a schedule with a gap.

mod answers;
mod schedules;
mod verdicts;
