// AIGER ASCII text: what it states, and what reading and writing answer.
#![tactic(auto)]

mod counts;
mod header;

pub use counts::Counts;
pub use header::Header;

// A text has at most so many bytes.
pub const MOST_BYTES: usize = 65535;
