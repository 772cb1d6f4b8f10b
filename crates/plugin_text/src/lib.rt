//! The text that collectors write, cut into lines, and what each line says.
//!
//! A `Splitter` takes a stream in whatever pieces it comes and hands out its lines, which are the
//! same for every cut, until a line is too long or memory runs out; what follows the last line feed
//! waits for the next piece. The lines go into a `LineList`, which keeps them in one buffer and can be
//! used again for the next piece. `read_line` reads one line: it answers with just the `Line` or the
//! refusal that the rules give, or that there was no memory for the texts that the line keeps. A
//! `Refusal` is why a text is refused, by what a line says or by where it stands, with its number.
//! `read_lines_keep_limits` is the law that what a line defines keeps its limits. The crate stands on `words` for
//! the words of a line, on `history` for the values that lines say and their limits, on `fixed_num`
//! for lists, and on `memchr` for the search.
#![tactic(auto)]

mod block;
mod chart;
mod cut;
mod dimension;
mod fault;
mod fields;
mod id;
mod keyword;
mod law;
mod line;
mod line_list;
mod number;
mod refusal;
mod splitter;
mod text;

pub use fault::LineFault;
pub use fixed_num::Text;
pub use history::{Algorithm, ChartDef, ChartKind, DimDef, Line};
pub use law::{cut_changes_no_lines, read_lines_keep_limits};
pub use line::read_line;
pub use line_list::LineList;
pub use refusal::Refusal;
pub use splitter::{LINE_LIMIT, Splitter};
