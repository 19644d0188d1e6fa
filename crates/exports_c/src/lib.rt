// The calls of `exports` under their own names for programs in other languages: to C a slice is a pointer and a length. Each is one call,
// under the same clause. They stand a second time since a crate is a library for Rattle or one for C, and C's names have no type parameter.
#![tactic(auto)]

ghost use Rattle.std.specs.Prelude.{◌≡◌, [], ◌∷◌};
ghost use Rattle.graph.specs.Lent.{buffers_of};
ghost use Rattle.exports.specs.Exported.{
  reads,
  read_numbers,
  writes,
  written_numbers,
  evaluates,
  evaluated_numbers,
  picked_numbers,
  leaves_at,
  no_lists,
  table_numbers,
  proposal_by,
  applies,
  applied_numbers,
  Told,
};

// Reads a text; i, a and o get the counts of inputs, gates and outputs.
#[unsafe(no_mangle)]
pub extern "C" fn nenquilco_read(
    text: &[u8],
    gates: &mut [u32],
    outputs: &mut [u32],
    i: &mut usize,
    a: &mut usize,
    o: &mut usize,
) -> u32
    ensures { Told (read_numbers text.now gates.old outputs.old)
        (reads text.now gates.old outputs.old).lent
        (i.old ∷ a.old ∷ o.old ∷ [])
        result (i.new ∷ a.new ∷ o.new ∷ []) (buffers_of gates.new outputs.new) }
{
    exports::nenquilco_read(text, gates, outputs, i, a, o)
}

// Writes a graph's text; n gets its number of bytes.
#[unsafe(no_mangle)]
pub extern "C" fn nenquilco_write(
    inputs: usize,
    gates: &[u32],
    outputs: &[u32],
    bytes: &mut [u8],
    n: &mut usize,
) -> u32
    ensures { Told (written_numbers inputs gates.now outputs.now bytes.old)
        (writes inputs gates.now outputs.now bytes.old).lent
        (n.old ∷ []) result (n.new ∷ []) bytes.new }
{
    exports::nenquilco_write(inputs, gates, outputs, bytes, n)
}

// Evaluates a graph under an assignment; n gets the number of its outputs.
#[unsafe(no_mangle)]
pub extern "C" fn nenquilco_evaluate(
    inputs: usize,
    gates: &[u32],
    outputs: &[u32],
    assignment: &[u32],
    values: &mut [u32],
    n: &mut usize,
) -> u32
    ensures { Told
        (evaluated_numbers inputs gates.now outputs.now assignment.now values.old)
        (evaluates inputs gates.now outputs.now assignment.now values.old).lent
        (n.old ∷ []) result (n.new ∷ []) values.new }
{
    exports::nenquilco_evaluate(inputs, gates, outputs, assignment, values, n)
}

// Picks a root's leaves; n gets their number, and a to f the six places.
#[unsafe(no_mangle)]
pub extern "C" fn nenquilco_pick(
    inputs: usize,
    gates: &[u32],
    outputs: &[u32],
    root: u32,
    n: &mut usize,
    a: &mut u32,
    b: &mut u32,
    c: &mut u32,
    d: &mut u32,
    e: &mut u32,
    f: &mut u32,
) -> u32
    ensures { Told (picked_numbers inputs gates.now outputs.now root) no_lists
        (n.old ∷ a.old ∷ b.old ∷ c.old ∷ d.old ∷ e.old ∷ f.old ∷ []) result
        (n.new ∷ a.new ∷ b.new ∷ c.new ∷ d.new ∷ e.new ∷ f.new ∷ []) no_lists }
{
    exports::nenquilco_pick(inputs, gates, outputs, root, n, a, b, c, d, e, f)
}

// Asks for a root's table over n leaves in the six places a to f; bits gets its 64 bits.
#[unsafe(no_mangle)]
pub extern "C" fn nenquilco_table(
    inputs: usize,
    gates: &[u32],
    outputs: &[u32],
    root: u32,
    n: usize,
    a: u32,
    b: u32,
    c: u32,
    d: u32,
    e: u32,
    f: u32,
    bits: &mut u64,
) -> u32
    ensures { Told
        (table_numbers inputs gates.now outputs.now root (leaves_at n (a ∷ b ∷ c ∷ d ∷ e ∷ f ∷ []))) no_lists
        (bits.old ∷ []) result (bits.new ∷ []) no_lists }
{
    exports::nenquilco_table(inputs, gates, outputs, root, n, a, b, c, d, e, f, bits)
}

// Applies a proposal at a root over n leaves in the six places a to f; x and y get the finished graph's counts of gates and outputs.
#[unsafe(no_mangle)]
pub extern "C" fn nenquilco_apply(
    inputs: usize,
    gates: &[u32],
    outputs: &[u32],
    root: u32,
    n: usize,
    a: u32,
    b: u32,
    c: u32,
    d: u32,
    e: u32,
    f: u32,
    kind: u32,
    first: u32,
    second: u32,
    turned: u32,
    words: &mut [u32],
    results: &mut [u32],
    x: &mut usize,
    y: &mut usize,
) -> u32
    ensures { Told
        (applied_numbers inputs gates.now outputs.now root (leaves_at n (a ∷ b ∷ c ∷ d ∷ e ∷ f ∷ []))
        (proposal_by kind first second turned) words.old results.old)
        (applies inputs gates.now outputs.now root (leaves_at n (a ∷ b ∷ c ∷ d ∷ e ∷ f ∷ []))
        (proposal_by kind first second turned) words.old results.old).lent
        (x.old ∷ y.old ∷ []) result
        (x.new ∷ y.new ∷ []) (buffers_of words.new results.new) }
{
    exports::nenquilco_apply(
        inputs, gates, outputs, root, n, a, b, c, d, e, f, kind, first, second, turned, words,
        results, x, y,
    )
}
