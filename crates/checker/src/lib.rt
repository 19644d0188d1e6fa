// What every call on a lent graph asks first: that the graph is well formed, that there is room, and, in `usage`, which gates are in use.
#![tactic(auto)]

pub mod marks;
pub mod usage;

ghost use Rattle.std.specs.Prelude.{◌≡◌, ◌||◌, suc, ◌+◌, ◌*◌, ◌<◌, ◌≤◌, leb, length};
ghost use Rattle.graph.specs.Lists.{all_below, all};
ghost use Rattle.graph.specs.Lent.{short};
ghost use Rattle.graph.specs.Graph.{free, size, most_inputs, most_gates, gate_ok, well_formed};

use graph::{LentGraph, MOST_GATES, MOST_INPUTS, MOST_OUTPUTS};

// Gate k, from 0, has its larger literal first, and both are below its own.
#[tactic(auto, using(crate::proofs::Checks::gate_bad, crate::proofs::Checks::gate_good))]
fn gate_ok(graph: &LentGraph, k: usize) -> bool
    requires { (free graph.now.net ≤ most_inputs) × (k < most_gates) × (2 * k + 1 < length graph.now.net.gates) }
    ensures { result ≡ gate_ok graph.now.net (suc (free graph.now.net + k)) }
{
    let gates = graph.gates();
    let first = gates[2 * k];
    let second = gates[2 * k + 1];
    if first < second {
        return false;
    }
    (first as usize) < 2 * (graph.inputs() + k + 1)
}

// A loop over the words themselves, as `mark_after` is. By a chain, `fanins_of` and `Net::gate`, and with `position` in `Leaves::put`, the
// leaf rule took 0.93 of the second program's time, where 0.8 is the most.
fn gates_ok(graph: &LentGraph) -> bool
    requires { (free graph.now.net ≤ most_inputs) × (length graph.now.net.gates ≤ 2 * most_gates) }
    ensures { result ≡ all_below (λ k. gate_ok graph.now.net (suc (free graph.now.net + k))) (size graph.now.net) }
{
    for k in 0..graph.size() {
        if !gate_ok(graph, k) {
            return false;
        }
    }
    true
}

// No word is above `most`.
pub fn all_up_to(words: &[u32], most: usize) -> bool
    ensures { result ≡ all (λ word. leb word most) words.now }
{
    words.iter().all(|word| *word as usize <= most)
}

// A lent graph keeps the rules and the limits. A bool, and no checked graph besides: each verdict that asks would need one clause more,
// to say that the graph it answers is the one it was given.
#[tactic(auto, using(crate::proofs::Checks::whole_graph))]
pub fn well_formed(graph: &LentGraph) -> bool
    ensures { result ≡ well_formed graph.now }
{
    if graph.gates().len() % 2 != 0 {
        return false;
    }
    if MOST_INPUTS < graph.inputs() {
        return false;
    }
    if MOST_OUTPUTS < graph.outputs().len() {
        return false;
    }
    if MOST_GATES < graph.size() {
        return false;
    }
    if !all_up_to(graph.outputs(), 2 * graph.last() + 1) {
        return false;
    }
    gates_ok(graph)
}

// Lists lent for a graph have fewer places than so many words for its gates and so many results.
#[tactic(auto, unfolding(graph::specs::Lent::short))]
pub fn no_room(words: usize, results: usize, gates: &[u32], outputs: &[u32]) -> bool
    ensures { result ≡ short words gates.now || short results outputs.now }
{
    gates.len() < words || outputs.len() < results
}
