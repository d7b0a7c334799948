// Worked examples over the libraries, each proved to be safe and then run.
#![tactic(auto)]

#[cfg(test)]
mod boards;
#[cfg(test)]
mod controls;
#[cfg(test)]
mod latch;
#[cfg(test)]
mod likeness;
#[cfg(test)]
mod sheets;
#[cfg(test)]
mod store;
