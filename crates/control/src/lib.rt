// Controls: receivers whose consoles give commands and see displays, behind one trait.
#![tactic(auto)]

pub mod control;
pub mod reading;
pub mod replay;
pub mod side_by_side;
pub mod table;
