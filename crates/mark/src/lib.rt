// The marks that a sheet is made of: names, numbers and negative numbers, as runs of bytes.
#![tactic(auto)]

pub mod cause;
pub mod token;
pub mod writing;
