// The gain of a proposal, by the marks past its root. `marks, list` stay two, as in `held`.
ghost use Rattle.std.specs.Prelude.{◌≡◌, ◌≤◌};
ghost use Rattle.graph.specs.Literal.{var_of};
ghost use Rattle.graph.specs.Graph.{last, IsGate};
ghost use Rattle.checker.specs.Marks.{marks_in};
ghost use Rattle.weigher.specs.Held.{WalkRoom};
ghost use Rattle.weigher.specs.Weighing.{GoingWith, Gains};

use crate::held::held_back;
use graph::{Lit, Net, Var};
use replacement::Proposal;

// How many gates go with the root, itself included: those that it reaches without a mark, where the marks are those past it.
pub fn going_with(net: &Net, root: Var, marks: &mut [bool], list: &mut [u32]) -> usize
    requires room { WalkRoom net.now (marks_in marks.old) list.old }
    requires gate { IsGate net.now root.0 }
    ensures going_with { GoingWith net.now (marks_in marks.old) root.0 result }
    ensures marks_unchanged { marks_in marks.new ≡ marks_in marks.old }
{
    // So its number is small enough for a literal.
    prove!(root.at() <= net.last());
    held_back(net, root.plain(), Lit(0), marks, list)
}

// What the proposal gains, or 0 where that is negative. The marks are those past its root, and `going` is how many gates go with it.
pub fn gain(
    net: &Net,
    going: usize,
    proposal: Proposal,
    marks: &mut [bool],
    list: &mut [u32],
) -> usize
    requires room { WalkRoom net.now (marks_in marks.old) list.old }
    requires first_bound { (var_of proposal.first.0 ≤ last net.now)
        × (var_of proposal.second.0 ≤ last net.now) }
    ensures gains { Gains net.now (marks_in marks.old) going proposal result }
    ensures marks_unchanged { marks_in marks.new ≡ marks_in marks.old }
{
    let held = held_back(net, proposal.first, proposal.second, marks, list);
    going
        .saturating_sub(held)
        .saturating_sub(proposal.new_gates())
}
