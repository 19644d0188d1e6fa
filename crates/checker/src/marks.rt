// Marks of variables in lent memory, put and read through these two functions alone.
// A lent slice, and no type of its own: a slice keeps its length through a call, but once it was lent in a struct its owner knows nothing of it
// (tried). docs/CONTRACTS.md names these functions over as many marks as are lent: an array of fixed length would ask more.
ghost use Rattle.std.specs.Prelude.{◌≡◌, false, ◌<◌, length, get_or, set};
ghost use Rattle.checker.specs.Marks.{marks_in};

use graph::Var;

// The variable's mark is set, or taken off.
#[tactic(auto, unfolding(crate::specs::Marks::marks_in))]
pub fn put_mark(marks: &mut [bool], v: Var, mark: bool)
    requires { v.0 < length (marks_in marks.old) }
    ensures { marks_in marks.new ≡ set (marks_in marks.old) v.0 mark }
{
    marks[v.at()] = mark;
}

#[tactic(auto, unfolding(crate::specs::Marks::marks_in))]
pub fn has_mark(marks: &[bool], v: Var) -> bool
    requires { v.0 < length (marks_in marks.now) }
    ensures { result ≡ get_or (marks_in marks.now) v.0 false }
{
    marks[v.at()]
}
