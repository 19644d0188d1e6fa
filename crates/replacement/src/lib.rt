// Replacing a root.
#![tactic(auto)]

mod types;

pub use types::{Applied, Proposal};
