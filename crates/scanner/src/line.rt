// Lines of numbers: one space between, one line feed at the end.
ghost use Rattle.std.specs.Prelude.{◌≡◌, length, drop, is_some, IfOk};
ghost use Rattle.graph.specs.Refuse.{verdict_is};
ghost use Rattle.text.specs.Line.{line_of};
ghost use Rattle.scanner.specs.Lines.{line_step, line_refusal};

use crate::text_reader::TextReader;
use graph::Refusal;

// Reads a line of as many numbers as are lent, and gives the place after it. Where none stands there, the numbers are of no use.
// A slice and no array: `docs/CONTRACTS.md` promises it for any count of numbers, and a length fixed in the type would ask more.
pub fn line_of(text: &[u8], at: usize, numbers: &mut [u32]) -> Option<usize>
    ensures { line_step text.now numbers.new result
        ≡ line_of (length numbers.old) (drop at text.now) }
{
    let mut reader = TextReader { text, at };
    // An index by hand: the byte after a number hangs on it, and nothing is known of a list after `iter_mut().enumerate()`.
    for k in 0..numbers.len() {
        let number = reader.number()?;
        numbers[k] = number.value;
        reader.at = number.next;
        reader.at = if k + 1 < numbers.len() {
            reader.space()?
        } else {
            reader.line_end()?
        };
    }
    Some(reader.at)
}

// A misshapen line is a bad line, one that breaks its rule a bad literal.
// `kept` is a bool: its three callers each have a rule of their own, and the clause names the two answers.
#[tactic(auto, unfolding(crate::specs::Lines::line_refusal, graph::specs::Refuse::verdict_is))]
pub fn line_verdict(line: Option<usize>, kept: bool) -> Result<usize, Refusal>
    ensures refusal { verdict_is result ≡ line_refusal (is_some line) kept }
    ensures next { IfOk result (λ n. line ≡ Some n) }
{
    let next = line.ok_or(Refusal::BadLine)?;
    if !kept {
        return Err(Refusal::BadLiteral);
    }
    Ok(next)
}
