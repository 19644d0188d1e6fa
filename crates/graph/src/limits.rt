// The limits. specs/Graph.antt has them for the definitions.
pub const MOST_INPUTS: usize = 64;

pub const MOST_OUTPUTS: usize = 64;

pub const MOST_GATES: usize = 1024;

// Variable 0, the inputs and the gates.
pub const MOST_VARIABLES: usize = 1 + MOST_INPUTS + MOST_GATES;
