// The finished graph: gates not in use are dropped, and the rest renumbered.
ghost use Rattle.std.specs.Prelude.{◌≡◌, [], ◌∷◌, map, suc, ◌+◌, ◌<◌, ◌≤◌, length};
ghost use Rattle.graph.specs.Literal.{var_of};
ghost use Rattle.graph.specs.Lent.{written, laid};
ghost use Rattle.graph.specs.Graph.{last, sinks, IsGate};
ghost use Rattle.checker.specs.Marks.{marks_in};
ghost use Rattle.replacement.specs.Rewire.{redirected};
ghost use Rattle.weigher.specs.Held.{WalkRoom};
ghost use Rattle.replacer.specs.Rewiring.{net_after};
ghost use Rattle.replacer.specs.Finishing.{KeptPast, by_numbers, kept_words, kept_gates};

use crate::renumber::Renumbering;
use crate::rewire::Rewiring;
use checker::marks::{has_mark, put_mark};
use graph::{Fanins, Lit, MOST_VARIABLES, Var};
use weigher::held::mark_reached;

// Beside the marks past the root, marks what is in use once it is replaced. `marks, list` stay two, as in weigher's `mark_reached`.
pub fn mark_kept(rewiring: &Rewiring, marks: &mut [bool], list: &mut [u32])
    requires { WalkRoom rewiring.now.graph.now.net (marks_in marks.old) list.old }
    ensures { KeptPast rewiring.now.graph.now.net (marks_in marks.old) rewiring.now.root.0 rewiring.now.proposal
        (marks_in marks.new) }
{
    let net = rewiring.graph.net();
    let proposal = rewiring.proposal;
    mark_reached(&net, proposal.first, proposal.second, marks, list);
    if proposal.kind != 0 {
        put_mark(marks, rewiring.root, true);
    }
}

// The two words of a gate by the new numbers go to place `at`; the place after them. Its two assignments are like those of reader's
// `store_gate`; a function for both would be no shorter than they are.
fn put_gate(words: &mut [u32], at: usize, gate: Fanins, renumbering: &Renumbering) -> usize
    requires at_in_bounds { suc at < length words.old }
    requires first_in_bounds { (var_of gate.first.0 < MOST_VARIABLES) × (var_of gate.second.0 < MOST_VARIABLES) }
    ensures value { result ≡ at + 2 }
    ensures words_after { words.new
        ≡ laid at (by_numbers renumbering.now.numbers gate.first.0 ∷ by_numbers renumbering.now.numbers gate.second.0 ∷ [])
        words.old }
{
    words[at] = renumbering.renumbered(gate.first).0;
    words[at + 1] = renumbering.renumbered(gate.second).0;
    at + 2
}

// What is left of v's gate goes to place `at`, if it stays; the place after it.
fn put_kept(
    rewiring: &Rewiring,
    v: Var,
    marks: &[bool],
    renumbering: &Renumbering,
    words: &mut [u32],
    at: usize,
) -> usize
    requires gate { IsGate rewiring.now.graph.now.net v.0 × (v.0 < length (marks_in marks.now)) }
    requires room { at + length (kept_words (net_after rewiring.now) (marks_in marks.now) renumbering.now.numbers v.0) ≤ length words.old }
    ensures value { result ≡ at + length (kept_words (net_after rewiring.now) (marks_in marks.now) renumbering.now.numbers v.0) }
    ensures words_after { words.new
        ≡ laid at (kept_words (net_after rewiring.now) (marks_in marks.now) renumbering.now.numbers v.0) words.old }
{
    if !has_mark(marks, v) {
        return at;
    }
    put_gate(words, at, rewiring.gate_of(v), renumbering)
}

// The words of the gates that stay stand at the front of `words`.
pub fn put_gates(rewiring: &Rewiring, marks: &[bool], renumbering: &Renumbering, words: &mut [u32])
    requires marks_there { last rewiring.now.graph.now.net < length (marks_in marks.now) }
    requires room { length (kept_gates (net_after rewiring.now) (marks_in marks.now) renumbering.now.numbers) ≤ length words.old }
    ensures { words.new ≡ written (kept_gates (net_after rewiring.now) (marks_in marks.now) renumbering.now.numbers) words.old }
{
    let net = rewiring.graph.net();
    let mut at = 0;
    for k in 0..net.size() {
        let v = net.gate(k);
        at = put_kept(rewiring, v, marks, renumbering, words, at);
    }
}

// The outputs, redirected and renumbered, stand at the front of `results`.
pub fn put_outputs(rewiring: &Rewiring, renumbering: &Renumbering, results: &mut [u32])
    requires { length (sinks rewiring.now.graph.now) ≤ length results.old }
    ensures { results.new
        ≡ written (map (λ l. by_numbers renumbering.now.numbers (redirected rewiring.now.root.0 rewiring.now.proposal l)) (sinks rewiring.now.graph.now))
        results.old }
{
    let outputs = rewiring.graph.outputs();
    // By places: nothing is known of a list once `iter_mut().zip(..)` has gone over it.
    for (k, &output) in outputs.iter().enumerate() {
        let l = rewiring.redirected(Lit(output));
        results[k] = renumbering.renumbered(l).0;
    }
}
