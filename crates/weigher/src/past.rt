// The marks past a root: of what outputs reach through no reference to it. Only outputs and gates above the root refer to it, so its own
// mark is taken off before its turn comes.
ghost use Rattle.std.specs.Prelude.{◌≡◌, false, ◌<◌, length, replicate};
ghost use Rattle.graph.specs.Graph.{last, IsGate};
ghost use Rattle.checker.specs.Marks.{marks_in};
ghost use Rattle.replacement.specs.Vanish.{MarksPast};

use checker::marks::put_mark;
use checker::usage::{mark_after, mark_each};
use graph::{CheckedGraph, Var};

// Marks what outputs reach past the root, in marks that are all unset.
pub fn mark_past(graph: &CheckedGraph, root: Var, marks: &mut [bool])
    requires gate { IsGate graph.now.net root.0 × (last graph.now.net < length (marks_in marks.old)) }
    requires marks_value { marks_in marks.old ≡ replicate (length (marks_in marks.old)) false }
    ensures { MarksPast graph.now root.0 (marks_in marks.new) }
{
    let net = graph.net();
    let number = root.at() - net.inputs();
    mark_each(graph.outputs(), marks);
    mark_after(&net, net.size(), number, marks);
    put_mark(marks, root, false);
    mark_after(&net, number - 1, 0, marks);
}
