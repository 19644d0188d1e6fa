// What a sweep computes of each variable: the values of gates over any algebra.
ghost use Rattle.std.specs.Prelude.{◌≡◌, ◌<◌, ◌≤◌, length, get_or};
ghost use Rattle.graph.specs.Literal.{var_of};
ghost use Rattle.graph.specs.Graph.{IsGate};
ghost use Rattle.graph.specs.Sweep.{lit_value, by_gate};

use crate::lit::{Lit, Var};
use crate::net::Net;

// What variable 0 has, the AND and the complement.
pub trait Algebra {
    ghost use Rattle.graph.specs.Sweep.{Algebra as Operations};

    type Value: Copy;

    ghost ops: { Operations Self.Value };

    fn no() -> Self::Value
        ensures { result ≡ ops.no };

    fn and(a: Self::Value, b: Self::Value) -> Self::Value
        ensures { result ≡ ops.conj a b };

    fn complement(a: Self::Value) -> Self::Value
        ensures { result ≡ ops.neg a };
}

// The value of a variable, where `values` has those of the variables from 0 on.
pub fn value_at<A: Algebra>(values: &[A::Value], v: Var) -> A::Value
    requires { v.0 < length values.now }
    ensures { result ≡ get_or values.now v.0 A.ops.no }
{
    values[v.at()]
}

// The value of a literal.
pub fn literal_value<A: Algebra>(values: &[A::Value], l: Lit) -> A::Value
    requires { var_of l.0 < length values.now }
    ensures { result ≡ lit_value A.ops values.now l.0 }
{
    let value = value_at::<A>(values, l.var());
    if l.is_complement() {
        A::complement(value)
    } else {
        value
    }
}

// The value of gate v, where `values` has those below it.
pub fn gate_value<A: Algebra>(net: &Net, values: &[A::Value], v: Var) -> A::Value
    requires { IsGate net.now v.0 × (v.0 ≤ length values.now) }
    ensures { result ≡ by_gate A.ops net.now v.0 values.now }
{
    let gate = net.fanins_of(v);
    A::and(
        literal_value::<A>(values, gate.first),
        literal_value::<A>(values, gate.second),
    )
}
