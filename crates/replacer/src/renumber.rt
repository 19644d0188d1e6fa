// The numbers that a net's variables have once only the gates with a mark stay.
ghost use Rattle.std.specs.Prelude.{◌≡◌, false, ◌||◌, ◌<◌, leb, length, get_or, replicate};
ghost use Rattle.graph.specs.Literal.{var_of};
ghost use Rattle.graph.specs.Lent.{written};
ghost use Rattle.graph.specs.Graph.{free, size, last};
ghost use Rattle.graph.specs.Use.{count_marks};
ghost use Rattle.checker.specs.Marks.{marks_in};
ghost use Rattle.replacer.specs.Finishing.{new_numbers, SmallNumbers, by_numbers};

use checker::marks::has_mark;
use graph::{Lit, MOST_VARIABLES, Net, Var};

// The new numbers, all small enough for literals, and how many gates stay. An array, as nothing takes memory.
#[derive(Drop)]
pub struct Renumbering {
    pub numbers: [u32; MOST_VARIABLES],
    pub gates: usize,
    ghost small: { SmallNumbers numbers },
}

// The variable stays: it is no gate, or it has a mark.
fn stays(net: &Net, marks: &[bool], v: Var) -> bool
    requires { v.0 < length (marks_in marks.now) }
    ensures { result ≡ leb v.0 (free net.now) || get_or (marks_in marks.now) v.0 false }
{
    v.at() <= net.inputs() || has_mark(marks, v)
}

impl Renumbering {
    pub fn new(net: &Net, marks: &[bool]) -> Renumbering
        requires { last net.now < length (marks_in marks.now) }
        ensures gates_value { result.gates ≡ count_marks net.now (marks_in marks.now) (size net.now) }
        ensures numbers_value { result.numbers
            ≡ written (new_numbers net.now (marks_in marks.now)) (replicate MOST_VARIABLES 0) }
    {
        let mut numbers = [0u32; MOST_VARIABLES];
        let mut number = 0;
        for n in 0..net.last() {
            let v = n + 1;
            number += stays(net, marks, Var(v as u32)) as u32;
            numbers[v] = number;
        }
        Renumbering {
            numbers,
            gates: number as usize - net.inputs(),
        }
    }

    // A literal by the new numbers.
    pub fn renumbered(&self, l: Lit) -> Lit
        requires { var_of l.0 < MOST_VARIABLES }
        ensures { result.0 ≡ by_numbers self.now.numbers l.0 }
    {
        let at = l.var().at();
        Var(self.numbers[at]).plain().flip(l)
    }
}
