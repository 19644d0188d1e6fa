// Lines written out: each answers the place after it. The buffer and the place go as two: a value that holds them would change in each call,
// and each clause would have to say once more that the buffer keeps its length.
ghost use Rattle.std.specs.Prelude.{◌≡◌, false, true, ◌+◌, ◌*◌, ◌≤◌, length};
ghost use Rattle.graph.specs.Lent.{laid};
ghost use Rattle.text.specs.Line.{separator, line, lines};
ghost use Rattle.text.specs.States.{input_numbers, output_numbers, gate_numbers, text_of};

use crate::counting::counts;
use crate::decimal::put_decimal;
use graph::{CheckedGraph, Net, Var};

// What follows a number when so many more are to come in its line.
#[tactic(auto, unfolding(text::specs::Line::separator))]
fn separator(more: usize) -> u8
    ensures { result ≡ separator more }
{
    if more == 0 { b'\n' } else { b' ' }
}

// The line of these numbers, from a place on; the place after it.
#[tactic(auto, using(graph::proofs::Lent::pieces_all, crate::proofs::Writing::line_numbers))]
fn put_line(bytes: &mut [u8], at: usize, numbers: &[u32]) -> usize
    requires { at + length (line numbers.now) ≤ length bytes.old }
    ensures value { result ≡ at + length (line numbers.now) }
    ensures bytes_after { bytes.new ≡ laid at (line numbers.now) bytes.old }
{
    let mut next = at;
    for (k, number) in numbers.iter().enumerate() {
        next = put_decimal(bytes, next, *number);
        bytes[next] = separator(numbers.len() - 1 - k);
        next += 1;
    }
    next
}

// Three loops: one over a closure would have to say what the closure asks and answers at each place, and each caller to prove it.
#[tactic(auto, using(graph::proofs::Lent::pieces_all, crate::proofs::Writing::input_lines))]
fn put_inputs(bytes: &mut [u8], at: usize, net: &Net) -> usize
    requires { at + length (lines (input_numbers net.now)) ≤ length bytes.old }
    ensures value { result ≡ at + length (lines (input_numbers net.now)) }
    ensures bytes_after { bytes.new ≡ laid at (lines (input_numbers net.now)) bytes.old }
{
    let mut next = at;
    for k in 0..net.inputs() {
        next = put_line(bytes, next, &[Var(k as u32 + 1).plain().0]);
    }
    next
}

#[tactic(auto, using(graph::proofs::Lent::pieces_all, crate::proofs::Writing::output_lines))]
fn put_outputs(bytes: &mut [u8], at: usize, outputs: &[u32]) -> usize
    requires { at + length (lines (output_numbers outputs.now)) ≤ length bytes.old }
    ensures value { result ≡ at + length (lines (output_numbers outputs.now)) }
    ensures bytes_after { bytes.new ≡ laid at (lines (output_numbers outputs.now)) bytes.old }
{
    let mut next = at;
    for output in outputs {
        next = put_line(bytes, next, &[*output]);
    }
    next
}

#[tactic(auto, using(graph::proofs::Lent::pieces_all, crate::proofs::Writing::gate_lines))]
fn put_gates(bytes: &mut [u8], at: usize, net: &Net) -> usize
    requires { at + length (lines (gate_numbers net.now (λ k. false))) ≤ length bytes.old }
    ensures value { result ≡ at + length (lines (gate_numbers net.now (λ k. false))) }
    ensures bytes_after { bytes.new ≡ laid at (lines (gate_numbers net.now (λ k. false))) bytes.old }
{
    let mut next = at;
    for k in 0..net.size() {
        let own = net.gate(k);
        let gate = net.fanins_of(own);
        next = put_line(bytes, next, &[own.plain().0, gate.first.0, gate.second.0]);
    }
    next
}

// The whole text, from the first byte on; its number of bytes.
#[tactic(auto, using(crate::proofs::Writing::text_size))]
pub(crate) fn put_text(graph: &CheckedGraph, bytes: &mut [u8]) -> usize
    requires { length (text_of graph.now) ≤ length bytes.old }
    ensures value { result ≡ length (text_of graph.now) }
    ensures bytes_after { bytes.new ≡ laid 0 (text_of graph.now) bytes.old }
{
    let net = graph.net();
    bytes[..4].copy_from_slice(b"aag ");
    let after_counts = put_line(bytes, 4, &counts(graph));
    let after_inputs = put_inputs(bytes, after_counts, &net);
    let after_outputs = put_outputs(bytes, after_inputs, graph.outputs());
    put_gates(bytes, after_outputs, &net)
}
