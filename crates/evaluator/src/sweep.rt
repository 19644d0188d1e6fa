// The values of all variables, in one ascending sweep. Its own, beside cutter's: it has no leaves and no root, goes over the whole net, and
// takes the values of inputs from an assignment (docs/DECISIONS.md, 51).
ghost use Rattle.std.specs.Prelude.{◌≡◌, ◌<◌, ◌≤◌, length};
ghost use Rattle.graph.specs.Literal.{var_of};
ghost use Rattle.graph.specs.Lent.{written};
ghost use Rattle.graph.specs.Graph.{free, last, IsGate};
ghost use Rattle.graph.specs.Sweep.{bools, lit_value, by_gate};
ghost use Rattle.graph.specs.Evaluate.{assignment_of, values_under};
ghost use Rattle.evaluator.specs.Values.{input_values};

use graph::{Algebra, Net, Var, gate_value};

// Evaluating is a sweep over the truth values.
pub struct Bools;

impl Algebra for Bools {
    ghost use Rattle.graph.specs.Sweep.{bools};

    type Value = bool;

    ghost ops = { bools };

    #[tactic(auto, unfolding(graph::specs::Sweep::bools))]
    fn no() -> bool {
        false
    }

    #[tactic(auto, unfolding(graph::specs::Sweep::bools))]
    fn and(a: bool, b: bool) -> bool {
        a & b
    }

    #[tactic(auto, unfolding(graph::specs::Sweep::bools))]
    fn complement(a: bool) -> bool {
        !a
    }
}

// The values of variable 0 and of the inputs stand at the front of `known`.
fn put_inputs(assignment: &[u32], known: &mut [bool])
    requires { length assignment.now < length known.old }
    ensures { known.new ≡ written (input_values assignment.now) known.old }
{
    known[0] = false;
    // By places: nothing is known of a list once `iter_mut().zip(..)` has gone over it.
    for (k, value) in assignment.iter().enumerate() {
        known[k + 1] = *value == 1;
    }
}

// The values of all variables stand at the front of `known`, from variable 0 on.
pub fn sweep(net: &Net, assignment: &[u32], known: &mut [bool])
    requires { (length assignment.now ≡ free net.now) × (last net.now < length known.old) }
    ensures { known.new ≡ written (values_under net.now (assignment_of assignment.now) (last net.now)) known.old }
{
    put_inputs(assignment, known);
    for n in net.inputs()..net.last() {
        known[n + 1] = gate_value::<Bools>(net, known, Var(n as u32 + 1));
    }
}
