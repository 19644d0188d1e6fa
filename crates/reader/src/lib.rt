// Reading a text into lists lent for its graph. The words are kept aside until the whole text is judged: a refusal writes nothing.
#![tactic(auto)]

mod aside;
mod header;
mod limited;
mod section;

ghost use Rattle.std.specs.Prelude.{◌≡◌};
ghost use Rattle.graph.specs.Lent.{buffers_of, ◌leaving◌};
ghost use Rattle.text.specs.Calls.{read_effect};

use aside::{Aside, read_aside};
use checker::no_room;
use copier::copy_words;
use graph::{MOST_OUTPUTS, Refusal};
use section::MOST_GATE_WORDS;
use text::Counts;

// Reads a text: the counts of the graph that it states, whose words are then in the lent lists; or why it is refused. The lists stay two, as
// those of `checker::no_room` and of replacer's `apply`: of slices lent in a struct of both, a caller would know nothing afterwards.
#[tactic(auto, unfolding(graph::specs::Lent::short))]
pub fn read(text: &[u8], gates: &mut [u32], outputs: &mut [u32]) -> Result<Counts, Refusal>
    ensures { result leaving buffers_of gates.new outputs.new
        ≡ read_effect text.now (buffers_of gates.old outputs.old) }
{
    let mut aside = Aside {
        gates: [0; MOST_GATE_WORDS],
        outputs: [0; MOST_OUTPUTS],
    };
    let counts = read_aside(text, &mut aside)?;
    let gate_words = &aside.gates[..2 * counts.gates];
    let output_words = &aside.outputs[..counts.outputs];
    if no_room(gate_words.len(), output_words.len(), gates, outputs) {
        return Err(Refusal::NoRoom);
    }
    copy_words(gate_words, gates);
    copy_words(output_words, outputs);
    Ok(counts)
}
