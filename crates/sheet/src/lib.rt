// Sheets: the text of a control and its flows, read and written.
#![tactic(auto)]

mod due;
pub mod exact;
pub mod fault;
mod flows;
pub mod found;
mod heading;
pub mod kinds;
mod lines;
mod marks;
mod output;
mod progress;
pub mod reader;
mod rows;
pub mod writer;
