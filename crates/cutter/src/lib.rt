// Windows of a lent graph: the leaves that the rule picks for a root, and the root's table over leaves. What the crates above share stands
// in the modules.
#![tactic(auto)]

pub mod cover;
mod next_leaf;
pub mod rule;
mod sweep;
pub mod tables;
pub mod verdict;

ghost use Rattle.std.specs.Prelude.{◌≡◌};
ghost use Rattle.window.specs.Calls.{pick_answer, table_answer};

use graph::{LentGraph, Refusal, Var};
use rule::pick_leaves;
use tables::root_table;
use verdict::{root_verdict, window_verdict};
use window::{LeafWindow, Leaves, Table};

// Picks leaves: the set that the leaf rule comes to; or why it is refused.
pub fn pick(graph: &LentGraph, root: Var) -> Result<Leaves, Refusal>
    ensures { result ≡ pick_answer graph.now root.0 }
{
    root_verdict(graph, root)?;
    Ok(pick_leaves(&graph.net(), root))
}

// Asks for the root's table over the leaves: its 64 bits; or why it is refused.
pub fn table(graph: &LentGraph, root: Var, leaves: Leaves) -> Result<Table, Refusal>
    ensures { result ≡ table_answer graph.now root.0 leaves }
{
    window_verdict(graph, root, leaves)?;
    let net = graph.net();
    let window = LeafWindow {
        net: &net,
        root,
        leaves,
    };
    Ok(root_table(&window))
}
