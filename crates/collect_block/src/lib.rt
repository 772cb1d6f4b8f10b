//! The lines of a collector's text to beats.
//!
//! A `Feed` takes the lines of a text one by one, each with the registry of the history so far, and says
//! what each line leads to: nothing, a beat, a question, or the end. Which lines it refuses, in which
//! order, and what the beat of a MOMENT holds are proved to be what the definitions of `history` say by
//! looking back over the lines. It keeps only the open beat, and finds charts, dimensions and rows there
//! by a hash.
//!
//! As a chart or a dimension is defined, the feed counts whether the registry or the open beat had it. So a
//! line but a MOMENT goes through the open beat only where the counts leave no room for one definition
//! more, and then nearly always ends the text; a SET goes through the values of its own block, by a short
//! mark of each id, only where a bit that the mark chooses says that its dimension may be among them. The
//! texts of a line that is handed in by value are kept, and not copied. The chart of a block is looked up at
//! its BEGIN, which makes room for all values that the block can have. A SET looks its dimension up there in
//! the registry, and in the open beat only where the registry does not have it.
//!
//! What was counted holds for a registry that has all charts and dimensions of those that
//! the feed was handed since its beat was opened, as that of a history that only grows has
//! (`counts_hold_as_registry_grows`).
#![tactic(auto)]

mod beat_tables;
mod block;
mod block_values;
mod count_table;
mod feed;
mod law;
mod row_table;
mod step;

pub use feed::Feed;
pub use history::{BlockFault, Line, OpenBeat, OpenDim, OpenRow, OpenValue};
pub use law::counts_hold_as_registry_grows;
pub use step::Step;
