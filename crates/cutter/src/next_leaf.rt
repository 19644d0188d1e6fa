// The next leaf that an ascending sweep comes to: so it finds a leaf's place without a search, and looks at the leaf set only there.
ghost use Rattle.std.specs.Prelude.{◌≡◌, suc, slice_get};
ghost use Rattle.std.specs.Option.{option_map};
ghost use Rattle.graph.specs.declared.lit.Var.{Var};
ghost use Rattle.window.specs.Leaves.{leaf_list};
ghost use Rattle.cutter.specs.Sweeping.{Ahead, next_is};

use graph::Var;
use window::Leaves;

// A place of the leaf set, and the leaf that stands there, if one does.
#[derive(Clone, Copy, Debug, PartialEq, Eq)]
pub struct NextLeaf {
    pub place: usize,
    pub leaf: Option<Var>,
}

impl NextLeaf {
    pub fn at(leaves: Leaves, place: usize) -> NextLeaf
        ensures place_value { result.place ≡ place }
        ensures leaf_value { option_map (λ (v : Var). v.0) result.leaf ≡ slice_get (leaf_list leaves) place }
    {
        NextLeaf {
            place,
            leaf: leaves.as_slice().get(place).copied(),
        }
    }

    // The next leaf is variable v.
    pub fn is(self, v: Var) -> bool
        ensures { result ≡ next_is self v.0 }
    {
        self.leaf == Some(v)
    }

    // The next leaf once v is passed.
    pub fn past(self, leaves: Leaves, v: Var) -> NextLeaf
        requires { Ahead leaves v.0 self }
        ensures { Ahead leaves (suc v.0) result }
    {
        if self.is(v) {
            return NextLeaf::at(leaves, self.place + 1);
        }
        self
    }
}
