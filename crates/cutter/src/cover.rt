// Which variables are covered, up to a window's root.
ghost use Rattle.std.specs.Prelude.{◌≡◌, ◌<◌, ◌≤◌, length};
ghost use Rattle.graph.specs.Lent.{written};
ghost use Rattle.window.specs.Local.{covered_up_to, covered};
ghost use Rattle.cutter.specs.Sweeping.{covered_in};

use crate::sweep::{Swept, sweep};
use graph::{Algebra, MOST_VARIABLES, Var};
use window::LeafWindow;

// Coverage is a sweep in which leaves are covered, and inputs that are none are not.
struct Coverage;

#[tactic(auto, unfolding(window::specs::Local::coverage))]
impl Algebra for Coverage {
    ghost use Rattle.window.specs.Local.{coverage};

    type Value = bool;

    ghost ops = { coverage };

    fn no() -> bool {
        true
    }

    fn and(a: bool, b: bool) -> bool {
        a & b
    }

    fn complement(a: bool) -> bool {
        a
    }
}

impl Swept for Coverage {
    ghost use Rattle.std.specs.Prelude.{true, false};

    ghost at_leaf = { λ place. true };

    ghost at_input = { false };

    fn leaf(_place: usize) -> bool {
        true
    }

    fn input() -> bool {
        false
    }
}

// Which of the variables 0 to the root are covered stands at the front of `covers`: a slice, so that a list of any length with a place for
// each of them will do (docs/CONTRACTS.md); an array would ask for one length.
#[tactic(auto, using(crate::proofs::Sweeping::covered_swept))]
pub fn cover(window: &LeafWindow, covers: &mut [bool])
    requires { window.now.root.0 < length covers.old }
    ensures { covers.new ≡ written (covered_up_to window.now.net.now window.now.leaves window.now.root.0) covers.old }
{
    sweep::<Coverage>(window, covers);
}

// The leaves cut the root: it is covered. Its array is its own, as that of `root_table` is: for both over any algebra it would be one of a
// type parameter's values, and nothing says that such an array fits memory (tried).
#[tactic(auto, using(crate::proofs::Sweeping::covered_at))]
pub fn is_cut(window: &LeafWindow) -> bool
    ensures { result ≡ covered window.now.net.now window.now.leaves window.now.root.0 }
{
    let mut covers = [false; MOST_VARIABLES];
    cover(window, &mut covers);
    covers[window.root.at()]
}

// The covered variables below the root, ascending, stand at the front of the list; how many there are.
pub fn list_covered(covers: &[bool], root: Var, list: &mut [u32]) -> usize
    requires { (root.0 ≤ length covers.now) × (root.0 ≤ length list.old) }
    ensures value { result ≡ length (covered_in covers.now root.0) }
    ensures list_after { list.new ≡ written (covered_in covers.now root.0) list.old }
{
    // An index by hand: only a covered variable takes a place.
    let mut count = 0;
    for n in 0..root.0 {
        if covers[Var(n).at()] {
            list[count] = n;
            count += 1;
        }
    }
    count
}
