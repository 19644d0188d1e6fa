// Replacing a root: the call that judges a proposal and makes the finished graph. All is judged before the first word is stored.
// `words, results` stay two: of slices lent in a struct of both, a caller would know nothing afterwards (tried). Graph, root, leaves and
// proposal come as they are, since no fact joins them before the verdict.
#![tactic(auto)]

mod finish;
mod renumber;
mod rewire;

ghost use Rattle.std.specs.Prelude.{◌≡◌, ◌<◌, length};
ghost use Rattle.graph.specs.Lent.{buffers_of, ◌leaving◌};
ghost use Rattle.graph.specs.Graph.{last};
ghost use Rattle.graph.specs.Use.{InUse};
ghost use Rattle.checker.specs.Marks.{marks_in};
ghost use Rattle.replacement.specs.Rewire.{Wires};
ghost use Rattle.replacement.specs.Calls.{apply_effect};
ghost use Rattle.replacer.specs.Finishing.{KeptMarks, finish_effect, replace_effect};

use checker::no_room;
use finish::{mark_kept, put_gates, put_outputs};
use graph::{CheckedGraph, LentGraph, MOST_VARIABLES, Refusal, Var};
use judge::proposal_verdict;
use renumber::Renumbering;
use replacement::{Applied, Proposal};
use rewire::Rewiring;
use weigher::past::mark_past;
use weigher::weigh::{gain, going_with};
use window::Leaves;

// Stores the finished graph if there is room, where `marks` say which gates stay.
fn store_finished(
    rewiring: &Rewiring,
    marks: &[bool],
    words: &mut [u32],
    results: &mut [u32],
) -> Result<Applied, Refusal>
    requires { KeptMarks rewiring.now.graph.now rewiring.now.root.0 rewiring.now.proposal (marks_in marks.now)
        × (last rewiring.now.graph.now.net < length (marks_in marks.now)) }
    ensures { result leaving buffers_of words.new results.new
        ≡ finish_effect rewiring.now.graph.now rewiring.now.root.0 rewiring.now.proposal
        (buffers_of words.old results.old) }
{
    let net = rewiring.graph.net();
    let renumbering = Renumbering::new(&net, marks);
    let gates = renumbering.gates;
    let outputs = rewiring.graph.outputs().len();
    if no_room(2 * gates, outputs, words, results) {
        return Err(Refusal::NoRoom);
    }
    put_gates(rewiring, marks, &renumbering, words);
    put_outputs(rewiring, &renumbering, results);
    Ok(Applied { gates, outputs })
}

// Replaces a root in use by a proposal of literals below it, if that gains and there is room.
fn replace(
    graph: &CheckedGraph,
    root: Var,
    proposal: Proposal,
    words: &mut [u32],
    results: &mut [u32],
) -> Result<Applied, Refusal>
    requires { InUse graph.now root.0 × Wires root.0 proposal }
    ensures { result leaving buffers_of words.new results.new
        ≡ replace_effect graph.now root.0 proposal (buffers_of words.old results.old) }
{
    let net = graph.net();
    let mut marks = [false; MOST_VARIABLES];
    let mut list = [0u32; MOST_VARIABLES];
    mark_past(graph, root, &mut marks);
    let going = going_with(&net, root, &mut marks, &mut list);
    if gain(&net, going, proposal, &mut marks, &mut list) == 0 {
        return Err(Refusal::NoGain);
    }
    let rewiring = Rewiring {
        graph,
        root,
        proposal,
    };
    mark_kept(&rewiring, &mut marks, &mut list);
    store_finished(&rewiring, &marks, words, results)
}

// Applies a proposal: the counts of the finished graph, whose words are then at the front of the lent lists; or why it is refused.
pub fn apply(
    graph: &LentGraph,
    root: Var,
    leaves: Leaves,
    proposal: Proposal,
    words: &mut [u32],
    results: &mut [u32],
) -> Result<Applied, Refusal>
    ensures { result leaving buffers_of words.new results.new
        ≡ apply_effect graph.now root.0 leaves proposal (buffers_of words.old results.old) }
{
    proposal_verdict(graph, root, leaves, proposal)?;
    replace(&graph.checked(), root, proposal, words, results)
}
