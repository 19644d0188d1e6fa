// A text read into words kept aside.
ghost use Rattle.std.specs.Prelude.{◌≡◌, drop, IfOk};
ghost use Rattle.graph.specs.Lent.{buffers_of};
ghost use Rattle.text.specs.Reading.{read_body, reading};
ghost use Rattle.reader.specs.KeptAside.{Counted, reading_of};

use crate::header::{HeaderAt, header_line, header_verdict};
use crate::limited::LimitedHeader;
use crate::section::{MOST_GATE_WORDS, read_gates, read_inputs, read_outputs};
use graph::{MOST_OUTPUTS, Refusal};
use scanner::rest_is_skipped;
use text::Counts;

// Room for the words of any graph: arrays, as nothing takes memory here. The header says how many words there are.
#[derive(Drop)]
pub(crate) struct Aside {
    pub gates: [u32; MOST_GATE_WORDS],
    pub outputs: [u32; MOST_OUTPUTS],
}

// The lines after the first, into words kept aside.
fn read_body(
    text: &[u8],
    at: usize,
    limited: LimitedHeader,
    aside: &mut Aside,
) -> Result<Counts, Refusal>
    ensures result_after { reading_of (buffers_of aside.new.gates aside.new.outputs) result ≡ read_body limited.header (drop at text.now) }
    ensures counted { IfOk result Counted }
{
    let after_inputs = read_inputs(text, at, limited)?;
    let after_outputs = read_outputs(text, after_inputs, limited, &mut aside.outputs)?;
    let after_gates = read_gates(text, after_outputs, limited, &mut aside.gates)?;
    if !rest_is_skipped(text, after_gates) {
        return Err(Refusal::BadLine);
    }
    let header = limited.header;
    // Field by field: a conversion in `text` would be a public function with these three equations as its contract, for this one place.
    Ok(Counts {
        inputs: header.inputs as usize,
        gates: header.gates as usize,
        outputs: header.outputs as usize,
    })
}

// The whole text, into words kept aside.
pub(crate) fn read_aside(text: &[u8], aside: &mut Aside) -> Result<Counts, Refusal>
    ensures result_after { reading_of (buffers_of aside.new.gates aside.new.outputs) result ≡ reading text.now }
    ensures counted { IfOk result Counted }
{
    let HeaderAt { header, next } = header_line(text).ok_or(Refusal::BadHeader)?;
    header_verdict(text, header)?;
    read_body(text, next, LimitedHeader { header }, aside)
}
