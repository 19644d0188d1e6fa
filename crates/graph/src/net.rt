// The inputs and gates of a lent graph, where they keep the rules: whoever has a net knows that they do. Each method says so once more,
// since a proof learns what a type says from a call. No LentGraph is held: a type with a model cannot be copied out of a borrow.
ghost use Rattle.std.specs.Prelude.{◌≡◌, ◌<◌, ◌+◌, [], suc};
ghost use Rattle.graph.specs.Graph.{net_of, over, free, size, last, first, second, IsGate, WellFormedNet};

use crate::gate::Fanins;
use crate::lent_graph::LentGraph;
use crate::lit::Var;
use std::marker::Model;

#[derive(Drop)]
pub struct Net<'a> {
    inputs: usize,
    gates: &'a [u32],
}

impl<'a> Model for Net<'a> {
    ghost use Rattle.graph.specs.Graph.{Net, net_of, WellFormedNet};

    ghost Value = { Net };

    ghost view = { λ a. net_of a.inputs a.gates.now };

    ghost invariant = { λ a. WellFormedNet (net_of a.inputs a.gates.now) };
}

impl<'a> Net<'a> {
    pub(crate) fn new(inputs: usize, gates: &'a [u32]) -> Net<'a>
        requires { WellFormedNet (net_of inputs gates.now) }
        ensures { result ≡ net_of inputs gates.now }
    {
        Net { inputs, gates }
    }

    pub fn inputs(&self) -> usize
        ensures value { result ≡ free self.now }
        ensures well_formed { WellFormedNet self.now }
    {
        self.inputs
    }

    // The words of its gates.
    pub fn gates(&self) -> &'a [u32]
        ensures value { result.now ≡ self.now.gates }
        ensures well_formed { WellFormedNet self.now }
    {
        self.gates
    }

    // How many gates it has.
    pub fn size(&self) -> usize
        ensures value { result ≡ size self.now }
        ensures well_formed { WellFormedNet self.now }
    {
        self.gates.len() / 2
    }

    // Its highest variable's number.
    pub fn last(&self) -> usize
        ensures value { result ≡ last self.now }
        ensures well_formed { WellFormedNet self.now }
    {
        self.inputs + self.gates.len() / 2
    }

    // Gate k's variable, from gate 0 on.
    pub fn gate(&self, k: usize) -> Var
        requires { k < size self.now }
        ensures value { result.0 ≡ suc (free self.now + k) }
        ensures well_formed { WellFormedNet self.now }
    {
        Var((self.inputs + k + 1) as u32)
    }

    // The same inputs and gates, as a lent graph without outputs.
    pub fn graph(&self) -> LentGraph<'a>
        ensures value { result ≡ over self.now [] }
        ensures well_formed { WellFormedNet self.now }
    {
        LentGraph::new(self.inputs, self.gates, &[])
    }

    // The two literals of v's gate. That v is a gate stays in clauses: a type that says so would carry the net along with each variable.
    pub fn fanins_of(&self, v: Var) -> Fanins
        requires { IsGate self.now v.0 }
        ensures first_value { result.first.0 ≡ first self.now v.0 }
        ensures second_value { result.second.0 ≡ second self.now v.0 }
        ensures well_formed { WellFormedNet self.now }
    {
        self.graph().fanins_of(v)
    }
}
