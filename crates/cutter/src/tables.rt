// The tables of all variables up to a window's root.
ghost use Rattle.std.specs.Prelude.{◌≡◌, ◌<◌, length, get_or};
ghost use Rattle.graph.specs.Literal.{var_of};
ghost use Rattle.graph.specs.Lent.{written};
ghost use Rattle.graph.specs.Sweep.{lit_value};
ghost use Rattle.window.specs.Table.{words, words_up_to, table};

use crate::sweep::{Swept, sweep};
use graph::{Algebra, Lit, MOST_VARIABLES, Var, literal_value, value_at};
use window::{LeafWindow, Table};

// Tables as words: a leaf has its pattern, and an input that is none has all bits 0. Words, since contracts speak of lists of numbers
// (`words_up_to`); of lists of `Table` each of them would first have to take the words out.
struct Words;

impl Algebra for Words {
    ghost use Rattle.window.specs.Table.{words};

    type Value = u64;

    ghost ops = { words };

    fn no() -> u64 {
        Table::zero().0
    }

    fn and(a: u64, b: u64) -> u64 {
        Table(a).and(Table(b)).0
    }

    fn complement(a: u64) -> u64 {
        Table(a).complement().0
    }
}

impl Swept for Words {
    ghost use Rattle.window.specs.Table.{words, leaf_pattern};

    ghost at_leaf = { leaf_pattern };

    ghost at_input = { words.no };

    fn leaf(place: usize) -> u64 {
        Table::of_leaf(place).0
    }

    fn input() -> u64 {
        Table::zero().0
    }
}

// The table of variable v.
pub fn table_at(tables: &[u64], v: Var) -> Table
    requires { v.0 < length tables.now }
    ensures { result.0 ≡ get_or tables.now v.0 0 }
{
    Table(value_at::<Words>(tables, v))
}

// The table of a literal.
pub fn literal_table(tables: &[u64], l: Lit) -> Table
    requires { var_of l.0 < length tables.now }
    ensures { result.0 ≡ lit_value words tables.now l.0 }
{
    Table(literal_value::<Words>(tables, l))
}

// The tables of the variables 0 to the root stand at the front of `tables`, a slice as in `cover`.
#[tactic(auto, using(crate::proofs::Sweeping::words_swept))]
pub fn fill_tables(window: &LeafWindow, tables: &mut [u64])
    requires { window.now.root.0 < length tables.old }
    ensures { tables.new ≡ written (words_up_to window.now.net.now window.now.leaves window.now.root.0) tables.old }
{
    sweep::<Words>(window, tables);
}

// The root's own table, from an array of its own, as in `is_cut`.
#[tactic(auto, using(crate::proofs::Sweeping::table_in))]
pub fn root_table(window: &LeafWindow) -> Table
    ensures { result.0 ≡ table window.now.net.now window.now.leaves window.now.root.0 }
{
    let mut tables = [0u64; MOST_VARIABLES];
    fill_tables(window, &mut tables);
    table_at(&tables, window.root)
}
