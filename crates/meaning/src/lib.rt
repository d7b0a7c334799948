// The three meanings of a secure console behind one trait: plain purge, intransitive purge and transmitted actions.
#![tactic(auto)]

mod compared;
mod consoles;
pub mod intransitive_purge;
pub mod likeness;
pub mod meaning;
pub mod published;
pub mod purge;
mod purging;
mod range;
mod reach;
#[cfg(test)]
mod tests;
pub mod transmitted;
