//! The tests of what numbers charts and beats, and tests only: the registry of `chart_registry`, what `beat_entries`
//! defines in it by entries and by collected beats, and the points that beats give.
#![tactic(auto)]

#[cfg(test)]
mod beat_values;
#[cfg(test)]
mod entries;
#[cfg(test)]
mod registry;
#[cfg(test)]
mod taking;
