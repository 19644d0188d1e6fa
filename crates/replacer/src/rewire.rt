// What becomes of gates and literals once a proposal stands for a gate.
ghost use Rattle.std.specs.Prelude.{◌≡◌, ◌<◌, ◌^◌};
ghost use Rattle.graph.specs.Graph.{first, second, IsGate, WellFormed};
ghost use Rattle.replacement.specs.Rewire.{Wires, redirected};
ghost use Rattle.replacement.proofs.Rewire.{Wires-prop};

use graph::{CheckedGraph, Fanins, Lit, Var};
use replacement::Proposal;

// A gate of a well-formed graph, and the proposal that is to stand for it: with its kind as a number, since `redirected` and `rewired_net`
// are defined over a `Proposal`.
#[derive(Clone, Copy)]
pub struct Rewiring<'a> {
    pub graph: &'a CheckedGraph<'a>,
    pub root: Var,
    pub proposal: Proposal,
    ghost gate: { IsGate graph.now.net root.0 },
    ghost small: { root.0 < 2 ^ 30 },
    ghost wires: { Wires root.0 proposal } by { Wires-prop root.0 proposal },
}

impl<'a> Rewiring<'a> {
    ghost use Rattle.replacer.specs.Rewiring.{net_after};

    pub fn redirected(&self, l: Lit) -> Lit
        ensures { result.0 ≡ redirected self.now.root.0 self.now.proposal l.0 }
    {
        self.proposal.redirected(self.root, l)
    }

    // What stands for v's gate.
    pub fn gate_of(&self, v: Var) -> Fanins
        requires { IsGate self.now.graph.now.net v.0 }
        ensures first_value { result.first.0 ≡ first (net_after self.now) v.0 }
        ensures second_value { result.second.0 ≡ second (net_after self.now) v.0 }
        ensures well_formed { WellFormed self.now.graph.now }
    {
        let gate = self.graph.net().fanins_of(v);
        if v != self.root {
            return Fanins::larger_first(self.redirected(gate.first), self.redirected(gate.second));
        }
        if self.proposal.kind == 0 {
            return Fanins::larger_first(gate.first, gate.second);
        }
        Fanins::larger_first(self.proposal.first, self.proposal.second)
    }
}
