// The counts of a graph that was read.
#[derive(Clone, Copy, Debug, PartialEq, Eq)]
pub struct Counts {
    pub inputs: usize,
    pub gates: usize,
    pub outputs: usize,
}
