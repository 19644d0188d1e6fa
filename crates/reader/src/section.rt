// The lines after the first, a section at a time: the place where it ends, or why its first wrong line is refused.
// `text, at` stay two: a section answers the next place alone, `line_of` takes the two, and a `TextReader`, which holds them, is for one line.
// Three loops: each section has a rule and a store of its own, and as closures both would need contracts of their own.
ghost use Rattle.std.specs.Prelude.{◌≡◌, [], ◌+◌, ◌*◌, ◌<◌, ◌≤◌, length, take, drop};
ghost use Rattle.text.specs.Reading.{gate_needed, inputs_needed, outputs_needed, gates_needed, gate_words};
ghost use Rattle.reader.specs.Sections.{no_words, output_words, read_words, section_words};
ghost use Rattle.graph.specs.Graph.{most_inputs, most_gates, larger_first};
ghost use Rattle.graph.specs.Lent.{laid};

use crate::limited::LimitedHeader;
use graph::{Fanins, Lit, MOST_GATES, MOST_OUTPUTS, Refusal, Var};
use scanner::{line_of, line_verdict};

// Two words a gate.
pub(crate) const MOST_GATE_WORDS: usize = 2 * MOST_GATES;

// Input line k is 2k.
pub(crate) fn read_inputs(text: &[u8], at: usize, limited: LimitedHeader) -> Result<usize, Refusal>
    ensures { section_words text.now [] result ≡ read_words no_words (inputs_needed limited.header) (drop at text.now) }
{
    let mut next = at;
    for k in 0..limited.header.inputs {
        let mut numbers = [0; 1];
        let line = line_of(text, next, &mut numbers);
        let kept = Lit(numbers[0]) == Var(k + 1).plain();
        next = line_verdict(line, kept)?;
    }
    Ok(next)
}

// An output is any literal up to 2M + 1.
pub(crate) fn read_outputs(
    text: &[u8],
    at: usize,
    limited: LimitedHeader,
    words: &mut [u32; MOST_OUTPUTS],
) -> Result<usize, Refusal>
    ensures { section_words text.now (take limited.header.outputs words.new) result
        ≡ read_words output_words (outputs_needed limited.header) (drop at text.now) }
{
    let most = Var(limited.header.highest).plain().0 + 1;
    let mut next = at;
    for word in words[..limited.header.outputs as usize].iter_mut() {
        let mut numbers = [0; 1];
        let line = line_of(text, next, &mut numbers);
        next = line_verdict(line, numbers[0] <= most)?;
        *word = numbers[0];
    }
    Ok(next)
}

// That a line's numbers are this gate's: its own literal on the left, and smaller ones on the right.
#[tactic(auto, unfolding(text::specs::Reading::gate_needed))]
fn is_gate_line(numbers: [u32; 3], gate: Var) -> bool
    requires { gate.0 ≤ most_inputs + most_gates }
    ensures { result ≡ (gate_needed gate.0).rule numbers }
{
    let own = gate.plain();
    Lit(numbers[0]) == own && Lit(numbers[1]) < own && Lit(numbers[2]) < own
}

// Stores a gate's two literals, the larger first.
// The two assignments stand here and in `put_gate` of `replacer`: a function for both would be no shorter than they are.
#[tactic(auto, using(graph::proofs::Lent::laid_gate))]
fn store_gate(words: &mut [u32], at: usize, one: Lit, other: Lit)
    requires { at + 1 < length words.old }
    ensures { words.new ≡ laid at (larger_first one.0 other.0) words.old }
{
    let Fanins { first, second } = Fanins::larger_first(one, other);
    words[at] = first.0;
    words[at + 1] = second.0;
}

// Gate line k has left side 2(F + k), where F variables stand before the first gate, and its right sides in either order.
pub(crate) fn read_gates(
    text: &[u8],
    at: usize,
    limited: LimitedHeader,
    words: &mut [u32; MOST_GATE_WORDS],
) -> Result<usize, Refusal>
    ensures { section_words text.now (take (2 * limited.header.gates) words.new) result
        ≡ read_words gate_words (gates_needed limited.header) (drop at text.now) }
{
    let free = limited.header.free();
    let mut next = at;
    for k in 0..limited.header.gates {
        let mut numbers = [0; 3];
        let line = line_of(text, next, &mut numbers);
        let kept = is_gate_line(numbers, Var(free + k + 1));
        next = line_verdict(line, kept)?;
        store_gate(words, 2 * k as usize, Lit(numbers[1]), Lit(numbers[2]));
    }
    Ok(next)
}
