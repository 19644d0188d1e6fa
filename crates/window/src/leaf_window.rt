// Leaves under a root: what a sweep goes over.
ghost use Rattle.std.specs.Prelude.{◌≤◌};
ghost use Rattle.graph.specs.Graph.{last, WellFormedNet};
ghost use Rattle.window.specs.Leaves.{WellSet};

use crate::leaf_set::Leaves;
use graph::{Net, Var};

// A variable of a net, and leaves that are well set down below it.
#[derive(Clone, Copy)]
pub struct LeafWindow<'a> {
    pub net: &'a Net<'a>,
    pub root: Var,
    pub leaves: Leaves,
    ghost net_ok: { WellFormedNet net.now },
    ghost within: { root.0 ≤ last net.now },
    ghost well_set: { WellSet root.0 leaves },
}
