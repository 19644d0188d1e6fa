// The leaf rule. Expansions are compared by their counts, and only the one that is taken is built.
ghost use Rattle.std.specs.Prelude.{◌≡◌, None};
ghost use Rattle.graph.specs.Lists.{◌∈◌};
ghost use Rattle.graph.specs.Graph.{IsGate};
ghost use Rattle.window.specs.Leaves.{leaf_list};
ghost use Rattle.window.specs.LeafRule.{picked};
ghost use Rattle.cutter.specs.Picking.{better, best, Choosing};

use graph::{LentGraph, Net, Var};
use window::{LEAF_LIMIT, Leaves};

// The leaf whose expansion is the smallest so far, and how many leaves that has.
#[derive(Clone, Copy, Debug, PartialEq, Eq)]
pub struct Choice {
    pub leaf: Var,
    pub count: usize,
}

// Over a lent graph, as `expanded_count`, `with_fanins` and `expand` of `Leaves` are: docs/CONTRACTS.md names them so, and the last two ask
// less than a `Net` says. So `pick_leaves` makes one of its net.

// The better of `best` and the expansion of v, if v is a gate: the smaller, v's on ties. One of more than six leaves is none.
fn better(leaves: Leaves, graph: &LentGraph, v: Var, best: Option<Choice>) -> Option<Choice>
    requires { Choosing graph.now.net leaves × (v.0 ∈ leaf_list leaves) }
    ensures { result ≡ better graph.now.net (leaf_list leaves) best v.0 }
{
    if v.at() <= graph.inputs() {
        return best;
    }
    let count = leaves.expanded_count(graph, v);
    if best.map_or(LEAF_LIMIT, |choice| choice.count) < count {
        return best;
    }
    Some(Choice { leaf: v, count })
}

// The leaf whose expansion is the smallest, the highest one on ties, if an expansion has at most six leaves.
fn best_leaf(leaves: Leaves, graph: &LentGraph) -> Option<Choice>
    requires { Choosing graph.now.net leaves }
    ensures { result ≡ best graph.now.net (leaf_list leaves) (leaf_list leaves) None }
{
    leaves
        .as_slice()
        .iter()
        .fold(None, |best, &v| better(leaves, graph, v, best))
}

// The leaf rule: the smallest expansion is taken until there is none. A variable that gave way can come back, so no number of gates
// bounds the turns; what falls is the sum of 2 ^ v over the leaves v.
pub fn pick_leaves(net: &Net, root: Var) -> Leaves
    requires { IsGate net.now root.0 }
    ensures { result ≡ picked net.now root.0 }
{
    let graph = net.graph();
    let mut leaves = Leaves::none().with_fanins(&graph, root).unwrap();
    while let Some(choice) = best_leaf(leaves, &graph) {
        leaves = leaves.expand(&graph, choice.leaf).unwrap();
    }
    leaves
}
