//! A collected beat by number: made of a beat that names charts and dimensions by their ids, and defined in a
//! registry when it is read again.
//!
//! A beat names charts and dimensions by their ids. `judge_beat` judges it and gives it by number: what it
//! defines, its charts, dimensions and rows, and the values of each row, in the order of their numbers.
//! `define_beat` then has the registry take what it defines, by number. What is given is proved to be its
//! definition, which goes once through the registry, while the code looks up by hashes and sorts what the beat
//! says. A new id's number is known before anything is defined: it is the id's place among the new ones, behind
//! what the registry has. So each chart and each value is looked up once, for the judgement and for the number.
//! A value is compared first with the dimension behind that of the value before it: where it is of that, as
//! where a row sets its dimensions in their order, no hash looks it up. A beat so numbered is in the one form
//! that has a spelling. `number_definitions` gives the definitions alone, where nothing stands against them.
//!
//! `define` reads a numbered beat back: it takes what the beat defines, each by its number, and tests that
//! the rows are of what is there. No id is looked up for a value, and no beat by ids is made again. The entry of
//! a copied beat tells less of a definition: the rest is as usual, and `define_copied` fills it in.
//!
//! The crate stands on the numbers of `chart_registry` and on the entries of `entry_codec`.
#![tactic(auto)]

mod beat_fault;
mod coming;
mod copied;
mod defining;
mod definitions;
mod entry;
mod fresh;
mod gathered;
mod law;
mod near;
mod reasons;
mod refusal;
mod rows;
mod taking;
mod usual;

pub use beat_fault::BeatFault;
pub use copied::{copied_beat_goes_on, define_copied};
pub use defining::{define_charts, define_dimensions};
pub use definitions::NumberedDefinitions;
pub use entry::define;
pub use law::{
    history_defines_its_beats, numbered_beat_defines_the_same, numbered_beat_goes_on,
    numbered_beat_keeps_limits,
};
pub use refusal::EntryRefusal;
pub use taking::{define_beat, judge_beat, number_definitions};
pub use usual::{usual_chart, usual_dimension};
