// Runs of evaluating.
use graph::LentGraph;
use say::{say, say_number, say_refusal, say_words};
use std::io;

fn evaluates_into(
    rt: &impl Print,
    name: &[u8],
    graph: &LentGraph,
    assignment: &[u32],
    values: &mut [u32],
) -> io::Result<()> {
    say(rt, name)?;
    say(rt, b":")?;
    match evaluator::evaluate(graph, assignment, values) {
        Err(refusal) => say_refusal(rt, refusal)?,
        Ok(count) => {
            say_number(rt, 0)?;
            say_number(rt, count as u64)?;
        }
    }
    say_words(rt, values)?;
    say(rt, b"\n")
}

// With room for two values.
fn evaluates(
    rt: &impl Print,
    name: &[u8],
    graph: &LentGraph,
    assignment: &[u32],
) -> io::Result<()> {
    let mut values = [9u32; 2];
    evaluates_into(rt, name, graph, assignment, &mut values)
}

fn evaluates_e1(rt: &impl Print, name: &[u8], assignment: &[u32]) -> io::Result<()> {
    evaluates(
        rt,
        name,
        &LentGraph::new(2, &[4, 2, 6, 2], &[8]),
        assignment,
    )
}

fn assignments(rt: &impl Print) -> io::Result<()> {
    evaluates_e1(rt, b"E1 at 1 1", &[1, 1])?;
    evaluates_e1(rt, b"E1 at 1 0", &[1, 0])?;
    evaluates(
        rt,
        b"gate 3 2 at 1",
        &LentGraph::new(1, &[3, 2], &[4, 5]),
        &[1],
    )
}

fn bad_assignments(rt: &impl Print) -> io::Result<()> {
    evaluates_e1(rt, b"one value", &[1])?;
    evaluates_e1(rt, b"three values", &[1, 1, 1])?;
    evaluates_e1(rt, b"a value of 2", &[1, 2])?;
    evaluates(rt, b"7 and 8", &LentGraph::new(1, &[2, 3], &[4]), &[2])
}

fn rooms(rt: &impl Print) -> io::Result<()> {
    let e1 = LentGraph::new(2, &[4, 2, 6, 2], &[8]);
    let two_outputs = LentGraph::new(2, &[4, 2, 6, 2], &[8, 9]);
    let mut one = [9u32; 1];
    evaluates_into(rt, b"room just so", &e1, &[1, 1], &mut one)?;
    evaluates_into(rt, b"no room", &two_outputs, &[1, 1], &mut one)?;
    evaluates_into(rt, b"8 and 16", &two_outputs, &[1, 2], &mut one)
}

fn input_limit(rt: &impl Print) -> io::Result<()> {
    let ones = [1u32; 65];
    evaluates(
        rt,
        b"64 inputs",
        &LentGraph::new(64, &[], &[128, 129]),
        &ones[..64],
    )?;
    evaluates(
        rt,
        b"65 inputs",
        &LentGraph::new(65, &[], &[128, 129]),
        &ones,
    )
}

fn gate_limit(rt: &impl Print) -> io::Result<()> {
    let gates = [0u32; 2050];
    evaluates(
        rt,
        b"1,024 gates",
        &LentGraph::new(0, &gates[..2048], &[2048, 2049]),
        &[],
    )?;
    evaluates(
        rt,
        b"1,025 gates",
        &LentGraph::new(0, &gates, &[2048, 2049]),
        &[],
    )
}

pub fn run(rt: &impl Print) -> io::Result<()> {
    assignments(rt)?;
    bad_assignments(rt)?;
    rooms(rt)?;
    input_limit(rt)?;
    gate_limit(rt)
}
