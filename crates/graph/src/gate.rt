// The two literals of a gate.
ghost use Rattle.std.specs.Prelude.{◌≡◌, max, min};

use crate::lit::Lit;

// The larger first.
#[derive(Clone, Copy, Debug, PartialEq, Eq)]
pub struct Fanins {
    pub first: Lit,
    pub second: Lit,
}

impl Fanins {
    // Those of a gate over two literals.
    pub fn larger_first(a: Lit, b: Lit) -> Fanins
        ensures first_value { result.first.0 ≡ max a.0 b.0 }
        ensures second_value { result.second.0 ≡ min a.0 b.0 }
    {
        Fanins {
            first: a.max(b),
            second: a.min(b),
        }
    }
}
