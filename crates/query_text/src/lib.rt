//! The text of a query, and the text of its answer.
//!
//! `read_query` reads a question about a chart: from when to when, how long a window is, what the points of
//! a window come to, and a pattern for the dimensions that are asked. It answers with just the request or
//! the refusal that the definitions give by the words of the text and the registry, or that there was no
//! memory. `write_table` writes an answer, and `write_fault` a refusal; both are proved to be exact texts.
//! Each is whole lines that begin with `ROWS `, with `ERROR ` or with a digit (`replies_are_whole_lines`).
//!
//! The crate stands on `words` for the words of a text, on `simple_pattern` for what a pattern accepts, on
//! `chart_registry` for charts and dimensions, on `query_engine` for requests and tables, and on
//! `fixed_num` for the text of a number.
#![tactic(auto)]

mod columns;
mod fault;
mod group;
mod law;
mod number;
mod query;
mod reply;
mod selection;
mod span;

pub use fault::QueryFault;
pub use law::{replies_are_whole_lines, windows_start_in_the_span};
pub use query::read_query;
pub use reply::{write_fault, write_table};
pub use selection::join;
pub use span::MOST_WINDOWS;
