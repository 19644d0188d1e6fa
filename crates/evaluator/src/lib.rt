// Evaluating a lent graph under a lent assignment of its inputs. All is judged before the first value is written.
#![tactic(auto)]

mod sweep;

ghost use Rattle.std.specs.Prelude.{◌≡◌, cond, map, ◌<◌, ◌≤◌, length};
ghost use Rattle.graph.specs.Literal.{LiteralsBelow};
ghost use Rattle.graph.specs.Lent.{written, ◌leaving◌};
ghost use Rattle.graph.specs.Refuse.{first_refusal, verdict_is};
ghost use Rattle.graph.specs.Sweep.{bools, lit_value};
ghost use Rattle.graph.specs.Evaluate.{is_assignment, evaluate_refusals, evaluate_effect};

use checker::{all_up_to, well_formed};
use graph::{LentGraph, Lit, MOST_VARIABLES, Refusal, literal_value};
use sweep::{Bools, sweep};

// There is one value an input, each 0 or 1.
#[tactic(auto, unfolding(graph::specs::Evaluate::is_assignment))]
fn is_assignment(graph: &LentGraph, assignment: &[u32]) -> bool
    ensures { result ≡ is_assignment graph.now.net assignment.now }
{
    assignment.len() == graph.inputs() && all_up_to(assignment, 1)
}

// Whether the graph is evaluated into these values, or why not.
#[tactic(auto, unfolding(graph::specs::Evaluate::evaluate_refusals, graph::specs::Refuse::first_refusal, graph::specs::Refuse::verdict_is, graph::specs::Lent::short))]
fn evaluate_verdict(graph: &LentGraph, assignment: &[u32], values: &[u32]) -> Result<(), Refusal>
    ensures { verdict_is result ≡ first_refusal (evaluate_refusals graph.now assignment.now values.now) }
{
    if !well_formed(graph) {
        return Err(Refusal::BadGraph);
    }
    if !is_assignment(graph, assignment) {
        return Err(Refusal::BadAssignment);
    }
    if values.len() < graph.outputs().len() {
        return Err(Refusal::NoRoom);
    }
    Ok(())
}

// The values of these literals, 0 or 1, stand at the front of `values`.
fn put_values(literals: &[u32], known: &[bool], values: &mut [u32])
    requires { LiteralsBelow literals.now (length known.now) × (length literals.now ≤ length values.old) }
    ensures { values.new
        ≡ written (map (λ b. cond b 1 0) (map (lit_value bools known.now) literals.now)) values.old }
{
    // By places: nothing is known of a list once `iter_mut().zip(..)` has gone over it.
    for (k, literal) in literals.iter().enumerate() {
        values[k] = literal_value::<Bools>(known, Lit(*literal)) as u32;
    }
}

// Evaluates a graph: the number of its outputs, whose values are then at the front of the lent list; or why it is refused.
pub fn evaluate(graph: &LentGraph, assignment: &[u32], values: &mut [u32]) -> Result<usize, Refusal>
    ensures { result leaving values.new ≡ evaluate_effect graph.now assignment.now values.old }
{
    evaluate_verdict(graph, assignment, values)?;
    let mut known = [false; MOST_VARIABLES];
    sweep(&graph.net(), assignment, &mut known);
    put_values(graph.outputs(), &known, values);
    Ok(graph.outputs().len())
}
