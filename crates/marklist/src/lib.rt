// Mark lists: a reader that fills marks from a text, and a writer that fills a page from marks. The line of a start is
// public too, for lists without a first line.
#![tactic(auto)]

pub mod header;
pub mod lines;
pub mod reader;
pub mod routines;
pub mod writer;
