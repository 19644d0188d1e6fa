// The whole run.
#![tactic(auto)]

// What a run comes to: the finished graph's gates, and how many replacements were made.
#[derive(Clone, Copy, Debug, PartialEq, Eq)]
pub struct Ran {
    pub gates: usize,
    pub made: usize,
}
