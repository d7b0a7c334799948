// What the programs print, made as text whose contracts say what it is.
#![tactic(auto, using(crate::proofs::Appending::texts))]

pub mod comparison;
pub mod lines;
pub mod readback;
pub mod refusals;
#[cfg(test)]
mod tests;
pub mod transcript;
pub mod trouble;
