//! The tests of `alarm_core` over its public calls, and tests only: what configurations and beats tell, how the
//! alarms stand behind them, and that they are taken again from what is kept of them.
#![tactic(auto)]

#[cfg(test)]
mod charts;
#[cfg(test)]
mod points;
#[cfg(test)]
mod scripts;
