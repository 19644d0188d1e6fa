// Writing a graph's text into a lent list of bytes. The bytes are counted first: where they do not fit, none is written.
#![tactic(auto)]

mod counting;
mod decimal;
mod put;

ghost use Rattle.std.specs.Prelude.{◌≡◌};
ghost use Rattle.graph.specs.Lent.{◌leaving◌};
ghost use Rattle.graph.specs.Refuse.{first_refusal, verdict_is};
ghost use Rattle.text.specs.Calls.{write_refusals, write_effect};

use checker::well_formed;
use counting::text_length;
use graph::{LentGraph, Refusal};
use put::put_text;

// Whether the graph is written into these bytes, or why not.
#[tactic(auto, using(graph::proofs::Graph::well_formed_lem), unfolding(text::specs::Calls::write_refusals, graph::specs::Refuse::first_refusal, graph::specs::Refuse::verdict_is, graph::specs::Lent::short))]
fn write_verdict(graph: &LentGraph, bytes: &[u8]) -> Result<(), Refusal>
    ensures { verdict_is result ≡ first_refusal (write_refusals graph.now bytes.now) }
{
    if !well_formed(graph) {
        return Err(Refusal::BadGraph);
    }
    if bytes.len() < text_length(&graph.checked()) {
        return Err(Refusal::NoRoom);
    }
    Ok(())
}

// Writes a graph's text: its number of bytes, which are then at the front of the lent list; or why it is refused.
pub fn write(graph: &LentGraph, bytes: &mut [u8]) -> Result<usize, Refusal>
    ensures { result leaving bytes.new ≡ write_effect graph.now bytes.old }
{
    write_verdict(graph, bytes)?;
    Ok(put_text(&graph.checked(), bytes))
}
