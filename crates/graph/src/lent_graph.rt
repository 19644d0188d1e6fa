// A graph as a caller lends it: any words whatever. What it means is a `Graph` of specs/Graph.antt, which every contract speaks of.
ghost use Rattle.std.specs.Prelude.{◌≡◌, ◌≤◌};
ghost use Rattle.graph.specs.Graph.{graph_of, free, size, last, sinks, most_inputs, first, second, IsGate, WellFormed, WellFormedNet};

use crate::checked::CheckedGraph;
use crate::gate::Fanins;
use crate::lit::{Lit, Var};
use crate::net::Net;
use std::marker::Model;

#[derive(Drop)]
pub struct LentGraph<'a> {
    inputs: usize,
    gates: &'a [u32],
    outputs: &'a [u32],
}

impl<'a> Model for LentGraph<'a> {
    ghost use Rattle.graph.specs.Graph.{Graph, graph_of};

    ghost Value = { Graph };

    ghost view = { λ a. graph_of a.inputs a.gates.now a.outputs.now };
}

impl<'a> LentGraph<'a> {
    // The graph of so many inputs, two words a gate and one an output.
    pub fn new(inputs: usize, gates: &'a [u32], outputs: &'a [u32]) -> LentGraph<'a>
        ensures { result ≡ graph_of inputs gates.now outputs.now }
    {
        LentGraph {
            inputs,
            gates,
            outputs,
        }
    }

    pub fn inputs(&self) -> usize
        ensures { result ≡ free self.now.net }
    {
        self.inputs
    }

    // The words of its gates.
    pub fn gates(&self) -> &'a [u32]
        ensures { result.now ≡ self.now.net.gates }
    {
        self.gates
    }

    pub fn outputs(&self) -> &'a [u32]
        ensures { result.now ≡ sinks self.now }
    {
        self.outputs
    }

    // How many gates it has.
    pub fn size(&self) -> usize
        ensures { result ≡ size self.now.net }
    {
        self.gates.len() / 2
    }

    // Its highest variable's number.
    pub fn last(&self) -> usize
        requires { free self.now.net ≤ most_inputs }
        ensures { result ≡ last self.now.net }
    {
        self.inputs + self.gates.len() / 2
    }

    // The two literals of v's gate: here a word becomes a literal. It asks for few inputs alone, so that a graph can be read while it is judged.
    #[tactic(auto, unfolding(crate::specs::Graph::first, crate::specs::Graph::second))]
    pub fn fanins_of(&self, v: Var) -> Fanins
        requires { (free self.now.net ≤ most_inputs) × IsGate self.now.net v.0 }
        ensures first_value { result.first.0 ≡ first self.now.net v.0 }
        ensures second_value { result.second.0 ≡ second self.now.net v.0 }
    {
        let at = 2 * (v.at() - (self.inputs + 1));
        Fanins {
            first: Lit(self.gates[at]),
            second: Lit(self.gates[at + 1]),
        }
    }

    // The same graph, which is well formed.
    pub fn checked(&self) -> CheckedGraph<'a>
        requires { WellFormed self.now }
        ensures { result ≡ self.now }
    {
        CheckedGraph::new(self.inputs, self.gates, self.outputs)
    }

    // Its inputs and gates, which keep the rules.
    pub fn net(&self) -> Net<'a>
        requires { WellFormedNet self.now.net }
        ensures { result ≡ self.now.net }
    {
        Net::new(self.inputs, self.gates)
    }
}
