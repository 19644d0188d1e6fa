// What a replacement gains, without making it: the gates that go with the root, less those that it puts there or holds back. Marks are
// made once a root, and a proposal costs what its literals reach without a mark.
#![tactic(auto)]

pub mod held;
pub mod past;
pub mod weigh;
