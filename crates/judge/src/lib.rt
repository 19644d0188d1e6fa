// Whether a proposal may stand for a root: its kind's rule, and its table over the leaves.
#![tactic(auto)]

ghost use Rattle.std.specs.Prelude.{◌≡◌, false, ◌<◌, length, get_or};
ghost use Rattle.graph.specs.Lists.{every};
ghost use Rattle.graph.specs.Literal.{var_of};
ghost use Rattle.graph.specs.Refuse.{first_refusal, verdict_is};
ghost use Rattle.window.specs.Table.{words, table, same_table};
ghost use Rattle.replacement.specs.Proposal.{divides, literal_rules, and_rules, keeps_rule, allowed, proposed_value, proposed_table};
ghost use Rattle.replacement.specs.Calls.{proposal_refusals};

use cutter::cover::cover;
use cutter::tables::{fill_tables, literal_table, table_at};
use cutter::verdict::window_verdict;
use graph::{LentGraph, Lit, MOST_VARIABLES, Refusal, Var};
use replacement::Proposal;
use window::{LeafWindow, Leaves, Table};

// What a proposal may draw on: the covered variables below a root.
#[derive(Clone, Copy)]
struct Divisors<'a> {
    covers: &'a [bool],
    root: Var,
    ghost within: { root.0 < length covers.now },
}

impl<'a> Divisors<'a> {
    // The literal's variable is one of them.
    #[tactic(auto, unfolding(replacement::specs::Proposal::divides))]
    fn have(&self, l: Lit) -> bool
        ensures { result ≡ divides (λ v. get_or self.now.covers.now v false) self.now.root.0 l.0 }
    {
        l.var() < self.root && self.covers[l.var().at()]
    }
}

// The rule of kind 0: a literal whose variable divides the root, and the other fields are 0.
#[tactic(auto, unfolding(replacement::specs::Proposal::literal_rules, graph::specs::Lists::every))]
fn is_literal(divisors: &Divisors, proposal: Proposal) -> bool
    ensures { result ≡ every (literal_rules (λ v. get_or divisors.now.covers.now v false) divisors.now.root.0 proposal) }
{
    proposal.second.0 == 0 && proposal.turned == 0 && divisors.have(proposal.first)
}

// The rule of kind 1: two literals whose variables divide the root, neither of them 0, the second's below the first's; turned is 0 or 1.
#[tactic(auto, unfolding(replacement::specs::Proposal::and_rules, graph::specs::Lists::every))]
fn is_and(divisors: &Divisors, proposal: Proposal) -> bool
    ensures { result ≡ every (and_rules (λ v. get_or divisors.now.covers.now v false) divisors.now.root.0 proposal) }
{
    let first = proposal.first.var();
    let second = proposal.second.var();
    Var(0) < second
        && second < first
        && proposal.turned <= 1
        && divisors.have(proposal.first)
        && divisors.have(proposal.second)
}

// The proposal keeps its kind's rule.
#[tactic(auto, unfolding(replacement::specs::Proposal::keeps_rule))]
fn keeps_rule(divisors: &Divisors, proposal: Proposal) -> bool
    ensures { result ≡ keeps_rule (λ v. get_or divisors.now.covers.now v false) divisors.now.root.0 proposal }
{
    match proposal.kind {
        0 => is_literal(divisors, proposal),
        1 => is_and(divisors, proposal),
        _ => false,
    }
}

// The proposal keeps its kind's rule over these leaves.
fn is_allowed(window: &LeafWindow, proposal: Proposal) -> bool
    ensures { result ≡ allowed window.now.net.now window.now.root.0 window.now.leaves proposal }
{
    let mut covers = [false; MOST_VARIABLES];
    cover(window, &mut covers);
    let divisors = Divisors {
        covers: &covers,
        root: window.root,
    };
    keeps_rule(&divisors, proposal)
}

// The proposal's table, where `tables` has those of its variables.
#[tactic(auto, unfolding(replacement::specs::Proposal::proposed_value, graph::specs::Sweep::turned))]
pub fn proposal_table(tables: &[u64], proposal: Proposal) -> Table
    requires { (var_of proposal.first.0 < length tables.now) × (var_of proposal.second.0 < length tables.now) }
    ensures { result.0 ≡ proposed_value words tables.now proposal }
{
    let first = literal_table(tables, proposal.first);
    if proposal.kind == 0 {
        return first;
    }
    let product = first.and(literal_table(tables, proposal.second));
    if proposal.turned % 2 == 1 {
        product.complement()
    } else {
        product
    }
}

// The proposal's table is the root's, in all 64 bits.
#[tactic(auto, using(crate::proofs::Rules::table_by, cutter::proofs::Sweeping::table_in))]
fn is_equal(window: &LeafWindow, proposal: Proposal) -> bool
    requires { (var_of proposal.first.0 < window.now.root.0) × (var_of proposal.second.0 < window.now.root.0) }
    ensures { result ≡ same_table (proposed_table window.now.net.now window.now.root.0 window.now.leaves proposal) (table window.now.net.now window.now.leaves window.now.root.0) }
{
    let mut tables = [0u64; MOST_VARIABLES];
    fill_tables(window, &mut tables);
    proposal_table(&tables, proposal).same(table_at(&tables, window.root))
}

// Whether the proposal may stand for the root, or why not.
pub fn proposal_verdict(
    graph: &LentGraph,
    root: Var,
    leaves: Leaves,
    proposal: Proposal,
) -> Result<(), Refusal>
    ensures { verdict_is result ≡ first_refusal (proposal_refusals graph.now root.0 leaves proposal) }
{
    window_verdict(graph, root, leaves)?;
    let net = graph.net();
    let window = LeafWindow {
        net: &net,
        root,
        leaves,
    };
    if !is_allowed(&window, proposal) {
        return Err(Refusal::BadCandidate);
    }
    if !is_equal(&window, proposal) {
        return Err(Refusal::NotEqual);
    }
    Ok(())
}
