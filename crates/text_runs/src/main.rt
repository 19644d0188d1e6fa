// Runs of reading and writing. Each names its case and prints what the call answers, 0 and its values or the refusal's number, and
// then all that was lent: words that were 9 before, bytes that were dots. `stdout` holds what must come out.
#![tactic(auto)]

use graph::LentGraph;
use say::{say, say_number, say_refusal, say_words};
use std::io;

fn reads_into(
    rt: &impl Print,
    name: &[u8],
    text: &[u8],
    gates: &mut [u32],
    outputs: &mut [u32],
) -> io::Result<()> {
    say(rt, name)?;
    say(rt, b":")?;
    match reader::read(text, gates, outputs) {
        Err(refusal) => say_refusal(rt, refusal)?,
        Ok(counts) => {
            say_number(rt, 0)?;
            say_number(rt, counts.inputs as u64)?;
            say_number(rt, counts.gates as u64)?;
            say_number(rt, counts.outputs as u64)?;
        }
    }
    say_words(rt, gates)?;
    say_words(rt, outputs)?;
    say(rt, b"\n")
}

// With room to spare: three gates and two outputs.
fn reads(rt: &impl Print, name: &[u8], text: &[u8]) -> io::Result<()> {
    let mut gates = [9u32; 6];
    let mut outputs = [9u32; 2];
    reads_into(rt, name, text, &mut gates, &mut outputs)
}

fn read_bad_headers(rt: &impl Print) -> io::Result<()> {
    reads(rt, b"leading zero", b"aag 01 1 0 0 0\n2\n")?;
    reads(rt, b"four counts", b"aag 65 65 0 0\n")?;
    reads(rt, b"empty text", b"")
}

fn read_bad_counts(rt: &impl Print) -> io::Result<()> {
    reads(rt, b"65 inputs", b"aag 65 65 0 0 0\n")?;
    reads(rt, b"latches", b"aag 1 0 1 0 0\n2 2\n")?;
    reads(rt, b"count", b"aag 2 1 0 0 0\n2\n")
}

fn read_bad_lines(rt: &impl Print) -> io::Result<()> {
    reads(rt, b"no line feed", b"aag 1 1 0 0 0\n2")?;
    reads(rt, b"carriage return", b"aag 1 1 0 0 0\n2\r\n")?;
    reads(rt, b"rest", b"aag 1 1 0 0 0\n2\nx")
}

fn read_bad_literals(rt: &impl Print) -> io::Result<()> {
    reads(rt, b"input", b"aag 1 1 0 0 0\n4\n")?;
    reads(rt, b"output", b"aag 1 1 0 1 0\n2\n4\n")?;
    reads(rt, b"gate 4 4 2", b"aag 2 1 0 1 1\n2\n4\n4 4 2\n")
}

fn read_pairs(rt: &impl Print) -> io::Result<()> {
    reads(rt, b"2 and 3", b"aag 66 65 1 0 0\n")?;
    reads(rt, b"3 and 4", b"aag 9 1 1 0 0\n2\n")?;
    reads(rt, b"4 and 5", b"aag 9 1 0 0 0\nx\n")
}

fn read_lines_in_order(rt: &impl Print) -> io::Result<()> {
    reads(rt, b"5 before 6", b"aag 2 2 0 0 0\nx\n5\n")?;
    reads(rt, b"6 before 5", b"aag 2 2 0 0 0\n5\nx\n")
}

fn read_graphs(rt: &impl Print) -> io::Result<()> {
    reads(rt, b"E1", b"aag 4 2 0 1 2\n2\n4\n8\n6 4 2\n8 6 2\n")?;
    reads(rt, b"gate 4 2 3", b"aag 2 1 0 1 1\n2\n4\n4 2 3\n")?;
    reads(rt, b"nothing", b"aag 0 0 0 0 0\n")?;
    reads(rt, b"rest skipped", b"aag 1 1 0 1 0\n2\n3\ni0 sensor\n")
}

// Room for E1 is four words and one.
fn read_rooms(rt: &impl Print) -> io::Result<()> {
    let e1 = b"aag 4 2 0 1 2\n2\n4\n8\n6 4 2\n8 6 2\n";
    let mut four = [9u32; 4];
    let mut three = [9u32; 3];
    let mut one = [9u32; 1];
    let mut none = [9u32; 0];
    reads_into(rt, b"no room for gates", e1, &mut three, &mut one)?;
    reads_into(rt, b"no room for outputs", e1, &mut four, &mut none)?;
    reads_into(rt, b"room just so", e1, &mut four, &mut one)?;
    reads_into(
        rt,
        b"6 and 16",
        b"aag 1 1 0 1 0\n2\n4\n",
        &mut three,
        &mut none,
    )
}

// The text of nothing, with a rest of `c` that fills what was lent.
fn reads_filled(rt: &impl Print, name: &[u8], bytes: &mut [u8]) -> io::Result<()> {
    let _ = writer::write(&LentGraph::new(0, &[], &[]), bytes);
    reads(rt, name, bytes)
}

fn read_long(rt: &impl Print) -> io::Result<()> {
    let mut just_so = [b'c'; 65535];
    reads_filled(rt, b"65,535 bytes", &mut just_so)?;
    let mut one_more = [b'c'; 65536];
    reads_filled(rt, b"65,536 bytes", &mut one_more)?;
    reads(rt, b"1 and 2", &[b'c'; 65536])
}

fn writes_into(
    rt: &impl Print,
    name: &[u8],
    graph: &LentGraph,
    bytes: &mut [u8],
) -> io::Result<()> {
    say(rt, name)?;
    say(rt, b":")?;
    match writer::write(graph, bytes) {
        Err(refusal) => say_refusal(rt, refusal)?,
        Ok(length) => {
            say_number(rt, 0)?;
            say_number(rt, length as u64)?;
        }
    }
    say(rt, b"\n")?;
    say(rt, bytes)?;
    say(rt, b"\n")
}

fn writes(rt: &impl Print, name: &[u8], graph: &LentGraph) -> io::Result<()> {
    let mut bytes = [b'.'; 40];
    writes_into(rt, name, graph, &mut bytes)
}

// E1's text has 32 bytes.
fn write_rooms(rt: &impl Print) -> io::Result<()> {
    let e1 = LentGraph::new(2, &[4, 2, 6, 2], &[8]);
    writes(rt, b"E1 written", &e1)?;
    let mut short = [b'.'; 31];
    writes_into(rt, b"one byte short", &e1, &mut short)?;
    let mut exact = [b'.'; 32];
    writes_into(rt, b"room just so", &e1, &mut exact)?;
    let mut tiny = [b'.'; 1];
    let many_inputs = LentGraph::new(65, &[4, 2, 6, 2], &[8]);
    writes_into(rt, b"7 and 16", &many_inputs, &mut tiny)
}

fn write_bad_graphs(rt: &impl Print) -> io::Result<()> {
    writes(rt, b"odd length", &LentGraph::new(2, &[4, 2, 6], &[4]))?;
    writes(rt, b"smaller first", &LentGraph::new(1, &[2, 3], &[4]))?;
    writes(rt, b"65 inputs", &LentGraph::new(65, &[], &[]))
}

fn write_many_gates(rt: &impl Print) -> io::Result<()> {
    let gates = [0u32; 2050];
    writes(rt, b"1,025 gates", &LentGraph::new(0, &gates, &[]))?;
    let most = LentGraph::new(0, &gates[..2048], &[]);
    writes(rt, b"1,024 gates, no room", &most)
}

fn main(rt: HostRuntime) -> io::Result<()> {
    read_bad_headers(&rt)?;
    read_bad_counts(&rt)?;
    read_bad_lines(&rt)?;
    read_bad_literals(&rt)?;
    read_pairs(&rt)?;
    read_lines_in_order(&rt)?;
    read_graphs(&rt)?;
    read_rooms(&rt)?;
    read_long(&rt)?;
    write_rooms(&rt)?;
    write_bad_graphs(&rt)?;
    write_many_gates(&rt)
}
