// What calls on a root and on a window ask first. Graph, root and leaves come as they are, since no fact joins them before the verdict.
ghost use Rattle.std.specs.Prelude.{◌≡◌};
ghost use Rattle.graph.specs.Refuse.{first_refusal, verdict_is};
ghost use Rattle.window.specs.Calls.{root_refusals, window_refusals};

use crate::cover::is_cut;
use checker::usage::in_use;
use checker::well_formed;
use graph::{LentGraph, Refusal, Var};
use window::{LeafWindow, Leaves};

// Whether the root is a gate in use of a graph, or why not.
#[tactic(auto, using(graph::proofs::Graph::well_formed_lem), unfolding(window::specs::Calls::root_refusals, graph::specs::Refuse::first_refusal, graph::specs::Refuse::verdict_is))]
pub fn root_verdict(graph: &LentGraph, root: Var) -> Result<(), Refusal>
    ensures { verdict_is result ≡ first_refusal (root_refusals graph.now root.0) }
{
    if !well_formed(graph) {
        return Err(Refusal::BadGraph);
    }
    if !in_use(&graph.checked(), root) {
        return Err(Refusal::BadRoot);
    }
    Ok(())
}

// Whether the leaves besides are well set down and cut the root, or why not.
#[tactic(auto, unfolding(window::specs::Calls::window_refusals, window::specs::Calls::root_refusals, graph::specs::Refuse::first_refusal, graph::specs::Refuse::verdict_is))]
pub fn window_verdict(graph: &LentGraph, root: Var, leaves: Leaves) -> Result<(), Refusal>
    ensures { verdict_is result ≡ first_refusal (window_refusals graph.now root.0 leaves) }
{
    root_verdict(graph, root)?;
    if !leaves.well_set(root) {
        return Err(Refusal::BadLeaves);
    }
    let net = graph.net();
    let window = LeafWindow {
        net: &net,
        root,
        leaves,
    };
    if !is_cut(&window) {
        return Err(Refusal::NotACut);
    }
    Ok(())
}
