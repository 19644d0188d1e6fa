// Runs of applying a proposal. Each names its case and prints what the call answers, 0 and the counts of gates and outputs or the
// refusal's number, and then the two lent lists, words that were 9 before. `stdout` holds what must come out.
#![tactic(auto)]

use graph::{LentGraph, Lit, Var};
use replacement::Proposal;
use say::{say, say_number, say_refusal, say_words};
use std::io;
use window::Leaves;

fn any(kind: u32, first: u32, second: u32, turned: u32) -> Proposal {
    Proposal {
        kind,
        first: Lit(first),
        second: Lit(second),
        turned,
    }
}

fn literal(first: u32) -> Proposal {
    any(0, first, 0, 0)
}

fn and_of(first: u32, second: u32, turned: u32) -> Proposal {
    any(1, first, second, turned)
}

// A graph over two inputs.
fn over_two<'a>(gates: &'a [u32], outputs: &'a [u32]) -> LentGraph<'a> {
    LentGraph::new(2, gates, outputs)
}

// So many leaves, the first two of which are a and b. The other runs have one like it: programs share only what they print.
fn over(count: usize, a: u32, b: u32) -> Leaves {
    Leaves {
        count,
        places: [Var(a), Var(b), Var(0), Var(0), Var(0), Var(0)],
    }
}

fn applies_into(
    rt: &impl Print,
    name: &[u8],
    graph: &LentGraph,
    root: u32,
    leaves: Leaves,
    proposal: Proposal,
    words: &mut [u32],
    results: &mut [u32],
) -> io::Result<()> {
    say(rt, name)?;
    say(rt, b":")?;
    match replacer::apply(graph, Var(root), leaves, proposal, words, results) {
        Err(refusal) => say_refusal(rt, refusal)?,
        Ok(applied) => {
            say_number(rt, 0)?;
            say_number(rt, applied.gates as u64)?;
            say_number(rt, applied.outputs as u64)?;
        }
    }
    say_words(rt, words)?;
    say_words(rt, results)?;
    say(rt, b"\n")
}

// With room for three gates and two outputs.
fn applies(
    rt: &impl Print,
    name: &[u8],
    graph: &LentGraph,
    root: u32,
    leaves: Leaves,
    proposal: Proposal,
) -> io::Result<()> {
    let mut words = [9u32; 6];
    let mut results = [9u32; 2];
    applies_into(
        rt,
        name,
        graph,
        root,
        leaves,
        proposal,
        &mut words,
        &mut results,
    )
}

// At a root whose leaves are the two inputs.
fn applies_at(
    rt: &impl Print,
    name: &[u8],
    graph: &LentGraph,
    root: u32,
    proposal: Proposal,
) -> io::Result<()> {
    applies(rt, name, graph, root, over(2, 1, 2), proposal)
}

fn applies_e1(rt: &impl Print, name: &[u8], proposal: Proposal) -> io::Result<()> {
    applies_at(rt, name, &over_two(&[4, 2, 6, 2], &[8]), 4, proposal)
}

// The window of E1 is another one.
fn applies_over(
    rt: &impl Print,
    name: &[u8],
    root: u32,
    leaves: Leaves,
    proposal: Proposal,
) -> io::Result<()> {
    applies(
        rt,
        name,
        &over_two(&[4, 2, 6, 2], &[8]),
        root,
        leaves,
        proposal,
    )
}

fn good(rt: &impl Print) -> io::Result<()> {
    applies_e1(rt, b"a literal", literal(6))?;
    applies_e1(rt, b"an AND", and_of(4, 2, 0))?;
    applies_at(rt, b"P11", &over_two(&[5, 3, 7, 2], &[8]), 4, literal(2))
}

fn references(rt: &impl Print) -> io::Result<()> {
    applies_at(
        rt,
        b"a complemented reference",
        &over_two(&[4, 2, 6, 2], &[9]),
        4,
        literal(6),
    )?;
    applies_at(
        rt,
        b"turned",
        &over_two(&[5, 3, 7, 7], &[8]),
        4,
        and_of(5, 3, 1),
    )?;
    applies_at(
        rt,
        b"larger first again",
        &over_two(&[4, 2, 6, 2, 8, 7], &[10]),
        4,
        literal(6),
    )
}

fn gains(rt: &impl Print) -> io::Result<()> {
    applies_e1(rt, b"P7", and_of(6, 2, 0))?;
    applies_at(
        rt,
        b"another output uses the cone",
        &over_two(&[4, 2, 6, 2], &[8, 6]),
        4,
        and_of(4, 2, 0),
    )?;
    applies_at(
        rt,
        b"a gate comes back into use",
        &over_two(&[4, 2, 4, 2], &[8]),
        4,
        literal(6),
    )
}

fn kinds(rt: &impl Print) -> io::Result<()> {
    applies_e1(rt, b"kind 2", any(2, 6, 0, 0))?;
    applies_e1(rt, b"a literal and a second", any(0, 6, 2, 0))?;
    applies_e1(rt, b"a literal, turned", any(0, 6, 0, 1))?;
    applies_e1(rt, b"turned twice", and_of(4, 2, 2))
}

fn literals(rt: &impl Print) -> io::Result<()> {
    applies_e1(rt, b"the root itself", literal(8))?;
    applies_e1(rt, b"above the root", literal(10))?;
    applies_e1(rt, b"the largest literal", literal(4294967295))
}

fn pairs_of_literals(rt: &impl Print) -> io::Result<()> {
    applies_e1(rt, b"variable 0 in an AND", and_of(4, 1, 0))?;
    applies_e1(rt, b"one variable twice", and_of(4, 5, 0))?;
    applies_e1(rt, b"smaller first", and_of(2, 4, 0))
}

fn windows(rt: &impl Print) -> io::Result<()> {
    applies_over(rt, b"P5", 4, over(2, 1, 3), and_of(4, 2, 0))?;
    applies_e1(rt, b"P6", literal(2))?;
    applies_over(rt, b"P8", 3, over(1, 1, 0), literal(2))
}

fn neighbours(rt: &impl Print) -> io::Result<()> {
    applies_at(rt, b"7 and 9", &over_two(&[2, 4], &[6]), 2, literal(2))?;
    applies_over(rt, b"9 and 10", 2, over(2, 2, 1), literal(2))?;
    applies_over(rt, b"10 and 11", 3, over(1, 1, 2), literal(2))?;
    applies_over(rt, b"11 and 12", 3, over(1, 1, 0), literal(6))
}

fn later_neighbours(rt: &impl Print) -> io::Result<()> {
    applies_e1(rt, b"12 and 13", any(0, 2, 0, 1))?;
    applies_e1(rt, b"13 and 14", and_of(6, 5, 0))
}

fn applies_with_room(
    rt: &impl Print,
    name: &[u8],
    proposal: Proposal,
    words: &mut [u32],
    results: &mut [u32],
) -> io::Result<()> {
    applies_into(
        rt,
        name,
        &over_two(&[4, 2, 6, 2], &[8]),
        4,
        over(2, 1, 2),
        proposal,
        words,
        results,
    )
}

fn rooms(rt: &impl Print) -> io::Result<()> {
    let mut two = [9u32; 2];
    let mut one = [9u32; 1];
    applies_with_room(rt, b"no room for the gate", literal(6), &mut one, &mut two)?;
    applies_with_room(rt, b"no room for the output", literal(6), &mut two, &mut [])?;
    applies_with_room(rt, b"14 and 16", and_of(6, 2, 0), &mut one, &mut two)?;
    applies_with_room(rt, b"room just so", literal(6), &mut two, &mut one)
}

fn main(rt: HostRuntime) -> io::Result<()> {
    good(&rt)?;
    references(&rt)?;
    gains(&rt)?;
    kinds(&rt)?;
    literals(&rt)?;
    pairs_of_literals(&rt)?;
    windows(&rt)?;
    neighbours(&rt)?;
    later_neighbours(&rt)?;
    rooms(&rt)
}
