//! A test of `alarm_core` by random calls, and that alone: configurations, charts and beats are drawn, and what is
//! told is compared with the rules of alarms written once more.
#![tactic(auto)]

#[cfg(test)]
mod tests;
