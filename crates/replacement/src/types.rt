// A proposal, and the counts of what applying it finishes.
ghost use Rattle.std.specs.Prelude.{◌≡◌, ◌<◌, ◌^◌};
ghost use Rattle.replacement.specs.Rewire.{Wires, stand_in, redirected};
ghost use Rattle.replacement.specs.Vanish.{new_gates};

use graph::{Lit, Var};

// A replacement for a root. Kind 0: the literal `first`. Kind 1: the AND of `first` and `second`, complemented where `turned` is 1.
// Numbers, no enum: any may come in, and the clause of `apply` answers BAD CANDIDATE to a kind that there is not.
#[derive(Clone, Copy, Debug, PartialEq, Eq)]
pub struct Proposal {
    pub kind: u32,
    pub first: Lit,
    pub second: Lit,
    pub turned: u32,
}

impl Proposal {
    // How many gates it puts at the root.
    #[tactic(auto, unfolding(crate::specs::Vanish::new_gates))]
    pub fn new_gates(self) -> usize
        ensures { result ≡ new_gates self }
    {
        if self.kind == 0 {
            return 0;
        }
        1
    }

    // What a plain reference to the root becomes.
    #[tactic(auto, using(crate::proofs::Rewire::literal_stands, crate::proofs::Rewire::root_stands, crate::proofs::Rewire::and_kind))]
    fn stand_in(self, root: Var) -> Lit
        requires { Wires root.0 self × (root.0 < 2 ^ 30) }
        ensures { result.0 ≡ stand_in root.0 self }
    {
        if self.kind == 0 {
            return self.first;
        }
        Lit(2 * root.0 + self.turned)
    }

    // What a literal becomes: a reference to the root is redirected, and complemented where it was.
    // `Wires` stays a clause: this is a method of any proposal (docs/CONTRACTS.md). One that has it already is in replacer's `Rewiring`.
    #[tactic(auto, using(crate::proofs::Rewire::redirected_root, crate::proofs::Rewire::redirected_other))]
    pub fn redirected(self, root: Var, l: Lit) -> Lit
        requires { Wires root.0 self × (root.0 < 2 ^ 30) }
        ensures { result.0 ≡ redirected root.0 self l.0 }
    {
        if l.var() == root {
            return self.stand_in(root).flip(l);
        }
        l
    }
}

// The counts of the graph that applying a proposal finishes.
#[derive(Clone, Copy, Debug, PartialEq, Eq)]
pub struct Applied {
    pub gates: usize,
    pub outputs: usize,
}
