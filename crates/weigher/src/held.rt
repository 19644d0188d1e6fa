// What a proposal holds back: the gates without a mark that its literals reach. They are listed as they are found, so that nothing else is
// visited, and their marks can be taken off again.
// `first, second` stay two literals: any two of the net may come, and a value that says so of both would have to hold the net besides.
// Two lent lists, not one value: a call could leave a shorter list in a struct of both, so each contract would have to say that it does not
// (tried). So `WalkRoom`, that both are long enough for a net, stays a clause, and how many are listed stands beside the list.
ghost use Rattle.std.specs.Prelude.{◌≡◌, true, false, [], ◌∷◌, ℕ, suc, ◌<◌, ◌≤◌, length, get_or, take};
ghost use Rattle.graph.specs.Literal.{var_of};
ghost use Rattle.graph.specs.Graph.{free, last, first, second, IsGate, WellFormedNet};
ghost use Rattle.checker.specs.Marks.{marks_in};
ghost use Rattle.weigher.specs.Held.{set_each, walked_to, held, Holding, CountsHeld, WalkRoom};

use checker::marks::{has_mark, put_mark};
use graph::{Lit, Net, Var};

// A gate without a mark is marked, and put after the `count` that are listed; how many are listed then.
fn mark_new(inputs: usize, v: Var, marks: &mut [bool], list: &mut [u32], count: usize) -> usize
    requires { (v.0 < length (marks_in marks.old)) × (count < length list.old) }
    ensures { walked_to (marks_in marks.new) list.new result
        ≡ held inputs v.0 (walked_to (marks_in marks.old) list.old count) }
{
    if v.at() <= inputs {
        return count;
    }
    if has_mark(marks, v) {
        return count;
    }
    put_mark(marks, v, true);
    list[count] = v.0;
    count + 1
}

// The fanins of v's gate, each in this way.
fn mark_new_fanins(net: &Net, v: Var, marks: &mut [bool], list: &mut [u32], count: usize) -> usize
    requires { IsGate net.now v.0 × (v.0 < length (marks_in marks.old)) × (suc count < length list.old) }
    ensures { walked_to (marks_in marks.new) list.new result
        ≡ held (free net.now) (var_of (second net.now v.0))
        (held (free net.now) (var_of (first net.now v.0)) (walked_to (marks_in marks.old) list.old count)) }
{
    let gate = net.fanins_of(v);
    let inputs = net.inputs();
    let with_first = mark_new(inputs, gate.first.var(), marks, list, count);
    mark_new(inputs, gate.second.var(), marks, list, with_first)
}

// All that the two literals reach without a mark is marked and listed; how many that are.
pub fn mark_reached(
    net: &Net,
    first: Lit,
    second: Lit,
    marks: &mut [bool],
    list: &mut [u32],
) -> usize
    requires room { WalkRoom net.now (marks_in marks.old) list.old }
    requires first_bound { (var_of first.0 ≤ last net.now) × (var_of second.0 ≤ last net.now) }
    ensures holding { Holding net.now (first.0 ∷ second.0 ∷ []) (marks_in marks.old)
        (take result list.new) result }
    ensures well_formed { WellFormedNet net.now }
    ensures marks_after { marks_in marks.new ≡ set_each true (take result list.new) (marks_in marks.old) }
{
    let inputs = net.inputs();
    let with_first = mark_new(inputs, first.var(), marks, list, 0);
    let mut count = mark_new(inputs, second.var(), marks, list, with_first);
    let mut done = 0;
    // No range: the list grows while it is gone through.
    while done < count {
        count = mark_new_fanins(net, Var(list[done]), marks, list, count);
        done += 1;
    }
    count
}

// The marks of the variables listed are taken off.
fn unmark(marks: &mut [bool], listed: &[u32])
    requires { (j : ℕ) → j < length listed.now → get_or listed.now j 0 < length (marks_in marks.old) }
    ensures { marks_in marks.new ≡ set_each false listed.now (marks_in marks.old) }
{
    for number in listed {
        put_mark(marks, Var(*number), false);
    }
}

// How many gates without a mark the two literals reach. A marked gate's fanins are to be marked as well, since the walk stops there.
pub fn held_back(net: &Net, first: Lit, second: Lit, marks: &mut [bool], list: &mut [u32]) -> usize
    requires room { WalkRoom net.now (marks_in marks.old) list.old }
    requires first_bound { (var_of first.0 ≤ last net.now) × (var_of second.0 ≤ last net.now) }
    ensures counts_held { CountsHeld net.now (marks_in marks.old) (first.0 ∷ second.0 ∷ []) result }
    ensures marks_unchanged { marks_in marks.new ≡ marks_in marks.old }
{
    let count = mark_reached(net, first, second, marks, list);
    unmark(marks, &list[..count]);
    count
}
