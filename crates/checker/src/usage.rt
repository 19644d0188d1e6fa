// The gates in use, and their number R.
ghost use Rattle.std.specs.Prelude.{◌≡◌, false, ◌-◌, ◌<◌, ◌≤◌, length, replicate};
ghost use Rattle.graph.specs.Literal.{LiteralsBelow};
ghost use Rattle.graph.specs.Graph.{size, last, IsGate};
ghost use Rattle.graph.specs.Use.{mark_each, mark_fanins, marks_over, count_marks, in_use, used_gates};
ghost use Rattle.checker.specs.Marks.{marks_in, mark_after};

use crate::marks::{has_mark, put_mark};
use graph::{CheckedGraph, Lit, MOST_VARIABLES, Net, Var};

// The variables of these literals are marked.
pub fn mark_each(literals: &[u32], marks: &mut [bool])
    requires { LiteralsBelow literals.now (length (marks_in marks.old)) }
    ensures { marks_in marks.new ≡ mark_each literals.now (marks_in marks.old) }
{
    for literal in literals {
        put_mark(marks, Lit(*literal).var(), true);
    }
}

// The fanins of v's gate are marked if v is.
fn mark_fanins(net: &Net, v: Var, marks: &mut [bool])
    requires { IsGate net.now v.0 × (v.0 < length (marks_in marks.old)) }
    ensures { marks_in marks.new ≡ mark_fanins net.now v.0 (marks_in marks.old) }
{
    if has_mark(marks, v) {
        let gate = net.fanins_of(v);
        put_mark(marks, gate.first.var(), true);
        put_mark(marks, gate.second.var(), true);
    }
}

// So from gate number `from` down to the one after number `stop`, where the first gate is number 1.
pub fn mark_after(net: &Net, from: usize, stop: usize, marks: &mut [bool])
    requires { (stop ≤ from) × (from ≤ size net.now) × (last net.now < length (marks_in marks.old)) }
    ensures { marks_in marks.new ≡ mark_after net.now stop (from - stop) (marks_in marks.old) }
{
    for k in (stop..from).rev() {
        mark_fanins(net, Var((net.inputs() + k + 1) as u32), marks);
    }
}

// What outputs reach is marked, in marks that are all unset.
pub fn mark_used(graph: &CheckedGraph, marks: &mut [bool])
    requires marks_there { last graph.now.net < length (marks_in marks.old) }
    requires marks_value { marks_in marks.old ≡ replicate (length (marks_in marks.old)) false }
    ensures { marks_in marks.new ≡ marks_over (length (marks_in marks.old)) graph.now }
{
    let net = graph.net();
    mark_each(graph.outputs(), marks);
    mark_after(&net, net.size(), 0, marks);
}

// The gate is in use, where v may be any number: marks above it decide.
pub fn in_use(graph: &CheckedGraph, v: Var) -> bool
    ensures { result ≡ in_use graph.now v.0 }
{
    let net = graph.net();
    if v.at() <= net.inputs() {
        return false;
    }
    if net.last() < v.at() {
        return false;
    }
    let mut marks = [false; MOST_VARIABLES];
    mark_each(graph.outputs(), &mut marks);
    mark_after(&net, net.size(), v.at() - net.inputs(), &mut marks);
    has_mark(&marks, v)
}

// How many gates have a mark.
fn count_marks(net: &Net, marks: &[bool]) -> usize
    requires { last net.now < length (marks_in marks.now) }
    ensures { result ≡ count_marks net.now (marks_in marks.now) (size net.now) }
{
    (0..net.size())
        .filter(|&k| has_mark(marks, Var((net.inputs() + k + 1) as u32)))
        .count()
}

// R, the number of gates in use.
pub fn used_gates(graph: &CheckedGraph) -> usize
    ensures { result ≡ used_gates graph.now }
{
    let net = graph.net();
    let mut marks = [false; MOST_VARIABLES];
    mark_used(graph, &mut marks);
    count_marks(&net, &marks)
}
