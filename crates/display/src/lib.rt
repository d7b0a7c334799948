// What consoles show: kinds of display behind one trait, codes and readings.
#![tactic(auto)]

pub mod code;
pub mod kind;
pub mod reading;
#[cfg(test)]
mod tests;
