// The public calls on numbers and slices, as programs in other languages have them by `exports_c`. Each answers the refusal's number, which
// is 0 where the call is accepted; what else it answers goes through references, which a refusal leaves as they were. Each call's answer has
// parts and places of its own, so each has its own `match`.
#![tactic(auto)]

ghost use Rattle.std.specs.Prelude.{◌≡◌, [], ◌∷◌};
ghost use Rattle.graph.specs.Lent.{buffers_of};
ghost use Rattle.exports.specs.Exported.{
  reads,
  read_numbers,
  writes,
  written_numbers,
  evaluates,
  evaluated_numbers,
  picked_numbers,
  leaves_at,
  no_lists,
  table_numbers,
  proposal_by,
  applies,
  applied_numbers,
  Told,
};

use graph::{LentGraph, Lit, Var};
use replacement::Proposal;
use window::Leaves;

// Reads a text; i, a and o get the counts of inputs, gates and outputs.
pub fn nenquilco_read(
    text: &[u8],
    gates: &mut [u32],
    outputs: &mut [u32],
    i: &mut usize,
    a: &mut usize,
    o: &mut usize,
) -> u32
    ensures { Told (read_numbers text.now gates.old outputs.old)
        (reads text.now gates.old outputs.old).lent
        (i.old ∷ a.old ∷ o.old ∷ [])
        result (i.new ∷ a.new ∷ o.new ∷ []) (buffers_of gates.new outputs.new) }
{
    match reader::read(text, gates, outputs) {
        Err(refusal) => refusal.number(),
        Ok(counts) => {
            *i = counts.inputs;
            *a = counts.gates;
            *o = counts.outputs;
            0
        }
    }
}

// Writes a graph's text; n gets its number of bytes.
pub fn nenquilco_write(
    inputs: usize,
    gates: &[u32],
    outputs: &[u32],
    bytes: &mut [u8],
    n: &mut usize,
) -> u32
    ensures { Told (written_numbers inputs gates.now outputs.now bytes.old)
        (writes inputs gates.now outputs.now bytes.old).lent
        (n.old ∷ []) result (n.new ∷ []) bytes.new }
{
    let graph = LentGraph::new(inputs, gates, outputs);
    match writer::write(&graph, bytes) {
        Err(refusal) => refusal.number(),
        Ok(length) => {
            *n = length;
            0
        }
    }
}

// Evaluates a graph under an assignment; n gets the number of its outputs.
pub fn nenquilco_evaluate(
    inputs: usize,
    gates: &[u32],
    outputs: &[u32],
    assignment: &[u32],
    values: &mut [u32],
    n: &mut usize,
) -> u32
    ensures { Told
        (evaluated_numbers inputs gates.now outputs.now assignment.now values.old)
        (evaluates inputs gates.now outputs.now assignment.now values.old).lent
        (n.old ∷ []) result (n.new ∷ []) values.new }
{
    let graph = LentGraph::new(inputs, gates, outputs);
    match evaluator::evaluate(&graph, assignment, values) {
        Err(refusal) => refusal.number(),
        Ok(count) => {
            *n = count;
            0
        }
    }
}

// Picks a root's leaves; n gets their number, and a to f the six places.
pub fn nenquilco_pick(
    inputs: usize,
    gates: &[u32],
    outputs: &[u32],
    root: u32,
    n: &mut usize,
    a: &mut u32,
    b: &mut u32,
    c: &mut u32,
    d: &mut u32,
    e: &mut u32,
    f: &mut u32,
) -> u32
    ensures { Told (picked_numbers inputs gates.now outputs.now root) no_lists
        (n.old ∷ a.old ∷ b.old ∷ c.old ∷ d.old ∷ e.old ∷ f.old ∷ []) result
        (n.new ∷ a.new ∷ b.new ∷ c.new ∷ d.new ∷ e.new ∷ f.new ∷ []) no_lists }
{
    let graph = LentGraph::new(inputs, gates, outputs);
    match cutter::pick(&graph, Var(root)) {
        Err(refusal) => refusal.number(),
        Ok(leaves) => {
            *n = leaves.count;
            *a = leaves.places[0].0;
            *b = leaves.places[1].0;
            *c = leaves.places[2].0;
            *d = leaves.places[3].0;
            *e = leaves.places[4].0;
            *f = leaves.places[5].0;
            0
        }
    }
}

// n leaves in the six places a to f.
fn leaves_at(n: usize, a: u32, b: u32, c: u32, d: u32, e: u32, f: u32) -> Leaves
    ensures { result ≡ leaves_at n (a ∷ b ∷ c ∷ d ∷ e ∷ f ∷ []) }
{
    let places = [Var(a), Var(b), Var(c), Var(d), Var(e), Var(f)];
    Leaves { count: n, places }
}

// Asks for a root's table over n leaves in the six places a to f; bits gets its 64 bits.
pub fn nenquilco_table(
    inputs: usize,
    gates: &[u32],
    outputs: &[u32],
    root: u32,
    n: usize,
    a: u32,
    b: u32,
    c: u32,
    d: u32,
    e: u32,
    f: u32,
    bits: &mut u64,
) -> u32
    ensures { Told
        (table_numbers inputs gates.now outputs.now root (leaves_at n (a ∷ b ∷ c ∷ d ∷ e ∷ f ∷ []))) no_lists
        (bits.old ∷ []) result (bits.new ∷ []) no_lists }
{
    let leaves = leaves_at(n, a, b, c, d, e, f);
    let graph = LentGraph::new(inputs, gates, outputs);
    match cutter::table(&graph, Var(root), leaves) {
        Err(refusal) => refusal.number(),
        Ok(table) => {
            *bits = table.0;
            0
        }
    }
}

// Applies a proposal at a root over n leaves in the six places a to f; x and y get the finished graph's counts of gates and outputs.
pub fn nenquilco_apply(
    inputs: usize,
    gates: &[u32],
    outputs: &[u32],
    root: u32,
    n: usize,
    a: u32,
    b: u32,
    c: u32,
    d: u32,
    e: u32,
    f: u32,
    kind: u32,
    first: u32,
    second: u32,
    turned: u32,
    words: &mut [u32],
    results: &mut [u32],
    x: &mut usize,
    y: &mut usize,
) -> u32
    ensures { Told
        (applied_numbers inputs gates.now outputs.now root (leaves_at n (a ∷ b ∷ c ∷ d ∷ e ∷ f ∷ []))
        (proposal_by kind first second turned) words.old results.old)
        (applies inputs gates.now outputs.now root (leaves_at n (a ∷ b ∷ c ∷ d ∷ e ∷ f ∷ []))
        (proposal_by kind first second turned) words.old results.old).lent
        (x.old ∷ y.old ∷ []) result
        (x.new ∷ y.new ∷ []) (buffers_of words.new results.new) }
{
    let leaves = leaves_at(n, a, b, c, d, e, f);
    let proposal = Proposal {
        kind,
        first: Lit(first),
        second: Lit(second),
        turned,
    };
    let graph = LentGraph::new(inputs, gates, outputs);
    match replacer::apply(&graph, Var(root), leaves, proposal, words, results) {
        Err(refusal) => refusal.number(),
        Ok(finished) => {
            *x = finished.gates;
            *y = finished.outputs;
            0
        }
    }
}
