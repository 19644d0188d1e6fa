// Promises about calls, alone and in a row: a function here only makes the calls. Its last clause is the promise; those before it fix the
// answers and every lent word, as the calls' own contracts do.
#![tactic(auto)]

ghost use Rattle.std.specs.Prelude.{◌≡◌, MatchResult};
ghost use Rattle.graph.specs.Evaluate.{evaluate_effect};
ghost use Rattle.graph.specs.Lent.{buffers_of, ◌leaving◌};
ghost use Rattle.text.specs.Calls.{read_effect, write_effect};
ghost use Rattle.window.specs.Calls.{pick_answer, table_answer};
ghost use Rattle.replacement.specs.Calls.{apply_effect};
ghost use Rattle.promises.specs.Promises.{
  read_back,
  WrittenAgain,
  PickedAndTabled,
  Tabled,
  ValuesLeft,
  GoodIsAccepted,
  AcceptedKeeps,
  SameAgain,
};

use graph::{LentGraph, Refusal, Var};
use replacement::{Applied, Proposal};
use text::Counts;
use window::{Leaves, Table};

// Writes a graph and reads what was written.
pub fn write_then_read(
    graph: &LentGraph,
    bytes: &mut [u8],
    words: &mut [u32],
    results: &mut [u32],
) -> Result<Counts, Refusal>
    ensures results_after { result leaving buffers_of words.new results.new
        ≡ read_back (write_effect graph.now bytes.old)
        (buffers_of words.old results.old) }
    ensures bytes_after { bytes.new
        ≡ (write_effect graph.now bytes.old).lent }
    ensures written_again { WrittenAgain graph.now bytes.old
        (buffers_of words.old results.old) result (buffers_of words.new results.new) }
{
    let length = writer::write(graph, bytes)?;
    reader::read(&bytes[..length], words, results)
}

// The answers of two calls.
#[derive(Clone, Copy)]
pub struct TwoAnswers {
    pub first: Result<Counts, Refusal>,
    pub second: Result<Counts, Refusal>,
}

// Reads a text twice, each time into lists of its own.
pub fn read_twice(
    text: &[u8],
    gates: &mut [u32],
    outputs: &mut [u32],
    words: &mut [u32],
    results: &mut [u32],
) -> TwoAnswers
    ensures outputs_after { result.first leaving buffers_of gates.new outputs.new
        ≡ read_effect text.now (buffers_of gates.old outputs.old) }
    ensures results_after { result.second leaving buffers_of words.new results.new
        ≡ read_effect text.now (buffers_of words.old results.old) }
    ensures same_again { SameAgain (buffers_of gates.old outputs.old) result.first
        (buffers_of gates.new outputs.new)
        (buffers_of words.old results.old) result.second (buffers_of words.new results.new) }
{
    let first = reader::read(text, gates, outputs);
    let second = reader::read(text, words, results);
    TwoAnswers { first, second }
}

// A root's leaves, and its table over them: the same refusal where there are no leaves.
#[derive(Clone, Copy)]
pub struct LeavesAndTable {
    pub picked: Result<Leaves, Refusal>,
    pub table: Result<Table, Refusal>,
}

// Picks a root's leaves and asks for its table over them.
pub fn pick_then_table(graph: &LentGraph, root: Var) -> LeavesAndTable
    ensures picked_value { result.picked ≡ pick_answer graph.now root.0 }
    ensures table_value { MatchResult result.picked (λ leaves. result.table ≡ table_answer graph.now root.0 leaves) (λ refusal. result.table ≡ Err refusal) }
    ensures picked_and_tabled { PickedAndTabled graph.now root.0 result.picked result.table }
{
    let picked = cutter::pick(graph, root);
    let table = match picked {
        Ok(leaves) => cutter::table(graph, root, leaves),
        Err(refusal) => Err(refusal),
    };
    LeavesAndTable { picked, table }
}

// Asks for a root's table over lent leaves.
pub fn table_over(graph: &LentGraph, root: Var, leaves: Leaves) -> Result<Table, Refusal>
    ensures value { result ≡ table_answer graph.now root.0 leaves }
    ensures tabled { Tabled graph.now root.0 leaves result }
{
    cutter::table(graph, root, leaves)
}

// Evaluates a graph under a lent assignment.
pub fn evaluate_under(
    graph: &LentGraph,
    assignment: &[u32],
    values: &mut [u32],
) -> Result<usize, Refusal>
    ensures values_value { result leaving values.new
        ≡ evaluate_effect graph.now assignment.now values.old }
    ensures values_left { ValuesLeft graph.now assignment.now
        values.old result values.new }
{
    evaluator::evaluate(graph, assignment, values)
}

// Applies a proposal. Good ones are accepted, and none else; what then stands in the lent lists keeps each output's value.
pub fn apply_proposal(
    graph: &LentGraph,
    root: Var,
    leaves: Leaves,
    proposal: Proposal,
    words: &mut [u32],
    results: &mut [u32],
) -> Result<Applied, Refusal>
    ensures results_after { result leaving buffers_of words.new results.new
        ≡ apply_effect graph.now root.0 leaves proposal
        (buffers_of words.old results.old) }
    ensures good_is_accepted { GoodIsAccepted graph.now root.0 leaves proposal
        (buffers_of words.old results.old) result (buffers_of words.new results.new) }
    ensures accepted_keeps { AcceptedKeeps graph.now root.0 leaves proposal
        (buffers_of words.old results.old) result (buffers_of words.new results.new) }
{
    replacer::apply(graph, root, leaves, proposal, words, results)
}
