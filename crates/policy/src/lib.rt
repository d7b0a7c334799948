// The policy of a receiver: which console may affect which, which commands are locked out, and how a call is refused.
#![tactic(auto)]

pub mod board;
pub mod flows;
pub mod lockouts;
pub mod members;
pub mod refusal;
