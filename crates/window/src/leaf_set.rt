// Leaf sets by value: each method hands back the changed set.
ghost use Rattle.std.specs.Prelude.{◌≡◌, true, cond, ◌&&◌, ◌||◌, [], ◌∷◌, ◌++◌, ◌<◌, ◌≤◌, ltb, eqb, length, drop};
ghost use Rattle.graph.specs.Lists.{is_in, all, ◌∈◌};
ghost use Rattle.graph.specs.Graph.{most_inputs, free, IsGate, WellFormedNet};
ghost use Rattle.window.specs.Leaves.{leaf_limit, numbers, leaf_list, leaves_of, ascends_from, well_set};
ghost use Rattle.window.specs.LeafRule.{put, insert, remove, with_fanins, expand};
ghost use Rattle.window.specs.Growing.{grown_of, Tidy};

use graph::{LentGraph, Var};

pub const LEAF_LIMIT: usize = 6;

// A leaf set: how many leaves there are, and six places, ascending without repeats; unused places are 0.
// A count beside an array, no vector: other languages pass just these (`nenquilco_table`, `nenquilco_apply`), whatever they hold, and no
// memory is taken.
#[derive(Clone, Copy, Debug, PartialEq, Eq)]
pub struct Leaves {
    pub count: usize,
    pub places: [Var; LEAF_LIMIT],
}

impl Leaves {
    #[tactic(auto, unfolding(crate::specs::Leaves::leaves_of))]
    pub fn none() -> Leaves
        ensures { result ≡ leaves_of [] }
    {
        Leaves {
            count: 0,
            places: [Var(0); LEAF_LIMIT],
        }
    }

    // The leaves themselves: six at most, where the count may be any number.
    pub fn as_slice(&self) -> &[Var]
        ensures { numbers result.now ≡ leaf_list self.now }
    {
        &self.places[..self.count.min(LEAF_LIMIT)]
    }

    pub fn has(self, v: Var) -> bool
        ensures { result ≡ is_in v.0 (leaf_list self) }
    {
        self.as_slice().contains(&v)
    }

    // The leaves ascend from 1 on, and each is below the root.
    fn ascends(self, root: Var) -> bool
        ensures { result ≡ ascends_from 0 (leaf_list self) && all (λ v. ltb v root.0) (leaf_list self) }
    {
        // One loop: as a chain it would be three tests, that the leaves ascend, that the first is above 0, and that the last is below the root.
        let mut before = Var(0);
        for &leaf in self.as_slice() {
            if leaf <= before || root <= leaf {
                return false;
            }
            before = leaf;
        }
        true
    }

    // The places that no leaf uses are 0.
    fn rest_is_zero(self) -> bool
        ensures { result ≡ all (λ x. eqb x 0) (drop self.count (numbers self.places)) }
    {
        self.places.iter().skip(self.count).all(|&v| v == Var(0))
    }

    // The leaves are well set down below the root, where the count and the places may be any numbers.
    #[tactic(auto, using(crate::proofs::Places::well_set_by))]
    pub fn well_set(self, root: Var) -> bool
        ensures { result ≡ well_set root.0 self }
    {
        self.count <= LEAF_LIMIT && self.ascends(root) && self.rest_is_zero()
    }

    // These leaves, and v after them.
    #[tactic(auto, using(crate::proofs::Growing::pushed))]
    fn push(self, v: Var) -> Leaves
        requires { Tidy self × (self.count < leaf_limit) }
        ensures { result ≡ leaves_of (leaf_list self ++ (v.0 ∷ [])) }
    {
        let mut longer = self;
        longer.places[self.count] = v;
        longer.count += 1;
        longer
    }

    // These leaves, and after them the rest, if there is room for all.
    fn follow(self, rest: &[Var]) -> Option<Leaves>
        requires { Tidy self }
        ensures { result ≡ grown_of (leaf_list self ++ numbers rest.now) }
    {
        let mut out = self;
        for &v in rest {
            if out.count == LEAF_LIMIT {
                return None;
            }
            out = out.push(v);
        }
        Some(out)
    }

    // v put in, in order and without repeats: one walk, as in `remove`. By `position`, and with chains in `checker`, the leaf rule took 0.93
    // of the second program's time, where 0.8 is the most.
    fn put(self, v: Var) -> Option<Leaves>
        ensures { result ≡ grown_of (put v.0 (leaf_list self)) }
    {
        let leaves = self.as_slice();
        let mut out = Leaves::none();
        for (k, &x) in leaves.iter().enumerate() {
            if v < x {
                return out.push(v).follow(&leaves[k..]);
            }
            if v == x {
                return out.follow(&leaves[k..]);
            }
            out = out.push(x);
        }
        out.follow(&[v])
    }

    // v put in, unless it is variable 0.
    pub fn insert(self, v: Var) -> Option<Leaves>
        ensures { result ≡ grown_of (insert v.0 (leaf_list self)) }
    {
        if v == Var(0) {
            return Leaves::none().follow(self.as_slice());
        }
        self.put(v)
    }

    pub fn remove(self, v: Var) -> Leaves
        ensures { result ≡ leaves_of (remove v.0 (leaf_list self)) }
    {
        let leaves = self.as_slice();
        let mut out = Leaves::none();
        for (k, &x) in leaves.iter().enumerate() {
            if v == x {
                return out.follow(&leaves[k + 1..]).unwrap();
            }
            out = out.push(x);
        }
        out
    }

    // The set with the fanin variables of v's gate, without 0. Over a lent graph, as `expand` is, since both ask less
    // than a `Net` says; so `expanded_count` takes one too.
    pub fn with_fanins(self, graph: &LentGraph, v: Var) -> Option<Leaves>
        requires { (free graph.now.net ≤ most_inputs) × IsGate graph.now.net v.0 }
        ensures { result ≡ grown_of (with_fanins graph.now.net v.0 (leaf_list self)) }
    {
        let gate = graph.fanins_of(v);
        self.insert(gate.second.var())?.insert(gate.first.var())
    }

    // How many leaves there are more once v is put in.
    fn added(self, v: Var) -> usize
        ensures { result ≡ cond (eqb v.0 0 || is_in v.0 (leaf_list self)) 0 1 }
    {
        if v == Var(0) || self.has(v) { 0 } else { 1 }
    }

    // How many leaves there are once the gate leaf is exchanged for its own fanin variables.
    pub fn expanded_count(self, graph: &LentGraph, leaf: Var) -> usize
        requires { WellFormedNet graph.now.net × IsGate graph.now.net leaf.0
            × (ascends_from 0 (leaf_list self) ≡ true) × (leaf.0 ∈ leaf_list self) }
        ensures { result ≡ length (expand graph.now.net (leaf_list self) leaf.0) }
    {
        let gate = graph.fanins_of(leaf);
        let first = gate.first.var();
        let second = gate.second.var();
        let with_second = self.as_slice().len() - 1 + self.added(second);
        if first == second {
            return with_second;
        }
        with_second + self.added(first)
    }

    // The gate leaf is exchanged for its own fanin variables.
    pub fn expand(self, graph: &LentGraph, leaf: Var) -> Option<Leaves>
        requires { (free graph.now.net ≤ most_inputs) × IsGate graph.now.net leaf.0 }
        ensures { result ≡ grown_of (expand graph.now.net (leaf_list self) leaf.0) }
    {
        self.remove(leaf).with_fanins(graph, leaf)
    }
}
