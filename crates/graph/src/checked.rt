// A lent graph that is well formed: whoever has one knows that it is. As a net, it holds the slices themselves.
ghost use Rattle.std.specs.Prelude.{◌≡◌};
ghost use Rattle.graph.specs.Graph.{graph_of, free, size, last, sinks, WellFormed};

use crate::net::Net;
use std::marker::Model;

#[derive(Drop)]
pub struct CheckedGraph<'a> {
    inputs: usize,
    gates: &'a [u32],
    outputs: &'a [u32],
}

impl<'a> Model for CheckedGraph<'a> {
    ghost use Rattle.graph.specs.Graph.{Graph, graph_of, WellFormed};

    ghost Value = { Graph };

    ghost view = { λ a. graph_of a.inputs a.gates.now a.outputs.now };

    ghost invariant = { λ a. WellFormed (graph_of a.inputs a.gates.now a.outputs.now) };
}

impl<'a> CheckedGraph<'a> {
    pub(crate) fn new(inputs: usize, gates: &'a [u32], outputs: &'a [u32]) -> CheckedGraph<'a>
        requires { WellFormed (graph_of inputs gates.now outputs.now) }
        ensures { result ≡ graph_of inputs gates.now outputs.now }
    {
        CheckedGraph {
            inputs,
            gates,
            outputs,
        }
    }

    pub fn outputs(&self) -> &'a [u32]
        ensures value { result.now ≡ sinks self.now }
        ensures well_formed { WellFormed self.now }
    {
        self.outputs
    }

    // Its inputs and gates.
    #[tactic(auto, using(crate::proofs::Graph::net_well_formed))]
    pub fn net(&self) -> Net<'a>
        ensures value { result ≡ self.now.net }
        ensures well_formed { WellFormed self.now }
    {
        Net::new(self.inputs, self.gates)
    }
}
