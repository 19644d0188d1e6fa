// The first line: `aag M I L O A`, and what it alone decides.
ghost use Rattle.std.specs.Prelude.{◌≡◌};
ghost use Rattle.graph.specs.Refuse.{first_refusal, verdict_is};
ghost use Rattle.text.specs.Line.{after};
ghost use Rattle.text.specs.States.{aag};
ghost use Rattle.text.specs.Reading.{header_line, header_refusals};
ghost use Rattle.scanner.specs.Tokens.{byte_step};
ghost use Rattle.reader.specs.FirstLine.{header_step};

use graph::{MOST_GATES, MOST_INPUTS, MOST_OUTPUTS, Refusal};
use scanner::line_of;
use text::{Header, MOST_BYTES};

// The first line's counts, and the place after it. A struct of its own, as `NumberAt` of `scanner` is: its field's name says that
// this is the place.
#[derive(Clone, Copy, Debug, PartialEq, Eq)]
pub(crate) struct HeaderAt {
    pub header: Header,
    pub next: usize,
}

// The place after `aag` and a space, if they stand at the front of the text.
fn aag_at_front(text: &[u8]) -> Option<usize>
    ensures { byte_step text.now result ≡ after aag text.now }
{
    text.starts_with(b"aag ").then_some(4)
}

pub(crate) fn header_line(text: &[u8]) -> Option<HeaderAt>
    ensures { header_step text.now result ≡ header_line text.now }
{
    let start = aag_at_front(text)?;
    let mut numbers = [0; 5];
    let next = line_of(text, start, &mut numbers)?;
    let [highest, inputs, latches, outputs, gates] = numbers;
    let header = Header {
        highest,
        inputs,
        latches,
        outputs,
        gates,
    };
    Some(HeaderAt { header, next })
}

// What the counts say of the text.
#[tactic(auto, unfolding(text::specs::Reading::header_refusals, graph::specs::Refuse::first_refusal, graph::specs::Refuse::verdict_is))]
pub(crate) fn header_verdict(text: &[u8], header: Header) -> Result<(), Refusal>
    ensures { verdict_is result ≡ first_refusal (header_refusals text.now header) }
{
    if MOST_INPUTS < header.inputs as usize
        || MOST_OUTPUTS < header.outputs as usize
        || MOST_GATES < header.gates as usize
        || MOST_BYTES < text.len()
    {
        return Err(Refusal::TooLarge);
    }
    if header.latches != 0 {
        return Err(Refusal::Latches);
    }
    if header.highest != header.free() + header.gates {
        return Err(Refusal::BadCount);
    }
    Ok(())
}
