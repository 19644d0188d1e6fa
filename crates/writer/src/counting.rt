// How many bytes a graph's text has. A line's bytes are those of its numbers and one after each, so lines are counted number by number.
ghost use Rattle.std.specs.Prelude.{◌≡◌, [], true, ◌+◌, ◌*◌, ◌≤◌, length};
ghost use Rattle.graph.specs.Graph.{net_of, last, most_gates};
ghost use Rattle.text.specs.Number.{decimal};
ghost use Rattle.text.specs.Line.{line, lines};
ghost use Rattle.text.specs.States.{counts, input_numbers, text_of};

use crate::decimal::decimal_length;
use graph::{CheckedGraph, Net, Var};

// The counts of the first line.
pub(crate) fn counts(graph: &CheckedGraph) -> [u32; 5]
    ensures { result ≡ counts graph.now }
{
    let net = graph.net();
    [
        net.last() as u32,
        net.inputs() as u32,
        0,
        graph.outputs().len() as u32,
        net.size() as u32,
    ]
}

// The bytes of a number and of one after it.
#[tactic(auto, using(crate::proofs::Sizes::ten_digits))]
fn number_length(number: u32) -> usize
    ensures is { result ≡ length (decimal number) + 1 }
    ensures few { result ≤ 11 }
{
    decimal_length(number) + 1
}

// The same of a list of numbers.
fn numbers_length(numbers: &[u32]) -> usize
    requires { length numbers.now ≤ 2 * most_gates }
    ensures { result ≡ length (line numbers.now) }
{
    numbers.iter().map(|number| number_length(*number)).sum()
}

// And of the plain literals of a net's variables: the input lines' and the gates' left sides.
fn variables_length(net: &Net) -> usize
    ensures { result ≡ length (lines (input_numbers (net_of (last net.now) []))) }
{
    (0..net.last())
        .map(|k| number_length(Var(k as u32 + 1).plain().0))
        .sum()
}

// The bytes of a graph's whole text: `aag` and a space, the counts, and the numbers of the other lines.
#[tactic(auto, using(crate::proofs::Sizes::text_count, crate::proofs::Sizes::text_few))]
pub(crate) fn text_length(graph: &CheckedGraph) -> usize
    ensures { result ≡ length (text_of graph.now) }
{
    let net = graph.net();
    4 + numbers_length(&counts(graph))
        + variables_length(&net)
        + numbers_length(graph.outputs())
        + numbers_length(net.gates())
}
