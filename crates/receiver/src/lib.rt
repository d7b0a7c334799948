// Questions put to the receiver of a sheet, whatever it shows.
#![tactic(auto)]

pub mod asking;
pub mod question;
