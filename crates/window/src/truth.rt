// Tables by value.
ghost use Rattle.std.specs.Prelude.{◌≡◌, ◌<◌};
ghost use Rattle.window.specs.Leaves.{leaf_limit};
ghost use Rattle.window.specs.Table.{words, same_table, leaf_pattern};

use crate::leaf_set::LEAF_LIMIT;

// The 64 bits of a local function: bit i is its value where leaf j has bit j of i.
#[derive(Clone, Copy, Debug, PartialEq, Eq)]
pub struct Table(pub u64);

// The tables of the leaves themselves.
const LEAF_PATTERNS: [Table; LEAF_LIMIT] = [
    Table(0xAAAAAAAAAAAAAAAA),
    Table(0xCCCCCCCCCCCCCCCC),
    Table(0xF0F0F0F0F0F0F0F0),
    Table(0xFF00FF00FF00FF00),
    Table(0xFFFF0000FFFF0000),
    Table(0xFFFFFFFF00000000),
];

#[tactic(auto, unfolding(crate::specs::Table::words, crate::specs::Table::same_table))]
impl Table {
    // All bits are 0: what variable 0 has.
    pub fn zero() -> Table
        ensures { result.0 ≡ words.no }
    {
        Table(0)
    }

    // The table of leaf j.
    pub fn of_leaf(j: usize) -> Table
        requires { j < leaf_limit }
        ensures { result.0 ≡ leaf_pattern j }
    {
        LEAF_PATTERNS[j]
    }

    pub fn and(self, other: Table) -> Table
        ensures { result.0 ≡ words.conj self.0 other.0 }
    {
        Table(self.0 & other.0)
    }

    pub fn complement(self) -> Table
        ensures { result.0 ≡ words.neg self.0 }
    {
        Table(!self.0)
    }

    // The two are the same in every bit. It stands beside `==` because `window/tables_compared_on_low_patterns` turns its body.
    pub fn same(self, other: Table) -> bool
        ensures { result ≡ same_table self.0 other.0 }
    {
        self.0 == other.0
    }
}
