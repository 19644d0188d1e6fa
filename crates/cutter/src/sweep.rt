// What each variable has over an algebra, in one ascending sweep up to a window's root.
ghost use Rattle.std.specs.Prelude.{◌≡◌, ◌<◌, length, set};
ghost use Rattle.graph.specs.Lent.{written};
ghost use Rattle.cutter.specs.Sweeping.{swept_up_to};

use crate::next_leaf::NextLeaf;
use graph::{Algebra, Var, gate_value};
use window::LeafWindow;

// What leaves and inputs have; a gate that is no leaf has its value by the algebra.
pub trait Swept: Algebra {
    ghost use Rattle.std.specs.Prelude.{◌≡◌, ◌<◌, ◌≤◌, ℕ, length};
    ghost use Rattle.std.proofs.Math.Option.{get_or};
    ghost use Rattle.graph.specs.Sweep.{by_gate};
    ghost use Rattle.window.specs.Leaves.{leaf_limit};
    ghost use Rattle.cutter.specs.Sweeping.{Sweeping, own_ahead};

    ghost at_leaf: { ℕ → Self.Value };

    ghost at_input: { Self.Value };

    // What the leaf at this place has.
    fn leaf(place: usize) -> Self::Value
        requires { place < leaf_limit }
        ensures { result ≡ at_leaf place };

    // What an input has that is no leaf.
    fn input() -> Self::Value
        ensures { result ≡ at_input };

    // What variable v has, where `values` has what those below it have: a leaf has its own, even one that is a gate.
    #[tactic(auto, using(crate::proofs::Sweeping::leaf_has, crate::proofs::Sweeping::input_has, crate::proofs::Sweeping::gate_has))]
    fn value(window: &LeafWindow, values: &[Self::Value], v: Var, next: NextLeaf) -> Self::Value
        requires { Sweeping window.now.net.now next v.0 × (v.0 ≤ length values.now) }
        ensures { result ≡ get_or (own_ahead at_leaf at_input window.now.net.now next v.0) (by_gate Self.ops window.now.net.now v.0 values.now) }
    {
        if next.is(v) {
            return Self::leaf(next.place);
        }
        if v.at() <= window.net.inputs() {
            return Self::input();
        }
        gate_value::<Self>(window.net, values, v)
    }
}

// What variable v has is set down at its place: here alone the sweep writes.
fn put_value<A: Algebra>(values: &mut [A::Value], v: Var, value: A::Value)
    requires { v.0 < length values.old }
    ensures { values.new ≡ set values.old v.0 value }
{
    values[v.at()] = value;
}

// What the variables 0 to the root have stands at the front of `values`, a slice as in `cover` and `fill_tables`, which it is for.
pub fn sweep<A: Swept>(window: &LeafWindow, values: &mut [A::Value])
    requires { window.now.root.0 < length values.old }
    ensures { values.new
        ≡ written (swept_up_to A.ops A.at_leaf A.at_input window.now.net.now window.now.leaves window.now.root.0) values.old }
{
    put_value::<A>(values, Var(0), A::no());
    let mut next = NextLeaf::at(window.leaves, 0);
    for n in 0..window.root.0 {
        let v = Var(n + 1);
        let value = A::value(window, values, v, next);
        put_value::<A>(values, v, value);
        next = next.past(window.leaves, v);
    }
}
