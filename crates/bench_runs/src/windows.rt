// Runs of picking leaves and of asking for a root's table.
ghost use Rattle.std.specs.Prelude.{◌≤◌, IfOk, length};

use graph::{LentGraph, Var};
use say::{say, say_bits, say_number, say_refusal, say_word};
use std::io;
use std::io::Read;
use window::{Leaves, Table};

fn say_leaves(rt: &impl Print, leaves: Leaves) -> io::Result<()> {
    say_number(rt, leaves.count as u64)?;
    for leaf in leaves.places {
        say_word(rt, leaf.0)?;
    }
    Ok(())
}

fn picks(rt: &impl Print, name: &[u8], graph: &LentGraph, root: u32) -> io::Result<()> {
    say(rt, name)?;
    say(rt, b":")?;
    let picked = cutter::pick(graph, Var(root));
    match picked {
        Err(refusal) => say_refusal(rt, refusal)?,
        Ok(_) => say_number(rt, 0)?,
    }
    say_leaves(rt, picked.unwrap_or(Leaves::none()))?;
    say(rt, b"\n")
}

fn picks_e1(rt: &impl Print, name: &[u8], root: u32) -> io::Result<()> {
    picks(rt, name, &LentGraph::new(2, &[4, 2, 6, 2], &[8]), root)
}

fn roots_in_use(rt: &impl Print) -> io::Result<()> {
    picks_e1(rt, b"P2", 4)?;
    picks_e1(rt, b"root 3", 3)?;
    picks(rt, b"gate 3 2", &LentGraph::new(1, &[3, 2], &[4]), 2)
}

fn bad_roots(rt: &impl Print) -> io::Result<()> {
    picks_e1(rt, b"root 2", 2)?;
    picks_e1(rt, b"root 0", 0)?;
    picks_e1(rt, b"root 5", 5)
}

fn unused_roots(rt: &impl Print) -> io::Result<()> {
    picks(
        rt,
        b"a gate not in use",
        &LentGraph::new(2, &[4, 2, 4, 3], &[6]),
        4,
    )?;
    picks(rt, b"no output", &LentGraph::new(2, &[4, 2], &[]), 3)?;
    picks(rt, b"7 and 9", &LentGraph::new(1, &[2, 3], &[4]), 1)
}

fn input_limit(rt: &impl Print) -> io::Result<()> {
    picks(rt, b"64 inputs", &LentGraph::new(64, &[128, 2], &[130]), 65)?;
    picks(rt, b"65 inputs", &LentGraph::new(65, &[130, 2], &[132]), 66)
}

fn gate_limit(rt: &impl Print) -> io::Result<()> {
    let gates = [0u32; 2050];
    picks(
        rt,
        b"1,024 gates",
        &LentGraph::new(0, &gates[..2048], &[2048]),
        1024,
    )?;
    picks(
        rt,
        b"1,025 gates",
        &LentGraph::new(0, &gates, &[2048]),
        1024,
    )
}

// Reads until the bytes are full or the input ends, and says how many there are.
// A loop by hand, since there is no heap: `read_to_end` fills a vector, and `read_exact` fails where the input is shorter.
fn read_full<R: Read>(reader: &mut R, bytes: &mut [u8]) -> io::Result<usize>
    ensures { IfOk result (λ n. n ≤ length bytes.new) }
{
    let mut got = 0;
    for _ in 0..bytes.len() {
        let n = reader.read(&mut bytes[got..])?;
        if n == 0 {
            break;
        }
        got += n;
    }
    Ok(got)
}

// Standard input has the leaf rule's worst root: some 130,000 expansions.
fn ladder<R: Print + Input>(rt: &R) -> io::Result<()> {
    let mut text = [0u8; 65536];
    let got = read_full(&mut rt.reader(), &mut text)?;
    let mut gates = [0u32; 2048];
    let mut output = [0u32; 1];
    let _ = reader::read(&text[..got], &mut gates, &mut output);
    picks(rt, b"the ladder", &LentGraph::new(5, &gates, &output), 1029)
}

fn tables(
    rt: &impl Print,
    name: &[u8],
    graph: &LentGraph,
    root: u32,
    leaves: Leaves,
) -> io::Result<()> {
    say(rt, name)?;
    say(rt, b":")?;
    let asked = cutter::table(graph, Var(root), leaves);
    match asked {
        Err(refusal) => say_refusal(rt, refusal)?,
        Ok(_) => say_number(rt, 0)?,
    }
    say_bits(rt, asked.unwrap_or(Table::zero()).0)?;
    say(rt, b"\n")
}

// So many leaves, the first two of which are a and b; `apply_runs` has one like it, since programs share only what they print.
fn two_places(count: usize, a: u32, b: u32) -> Leaves {
    Leaves {
        count,
        places: [Var(a), Var(b), Var(0), Var(0), Var(0), Var(0)],
    }
}

fn tables_e1(
    rt: &impl Print,
    name: &[u8],
    root: u32,
    count: usize,
    a: u32,
    b: u32,
) -> io::Result<()> {
    tables(
        rt,
        name,
        &LentGraph::new(2, &[4, 2, 6, 2], &[8]),
        root,
        two_places(count, a, b),
    )
}

fn leaf_sets(rt: &impl Print) -> io::Result<()> {
    tables_e1(rt, b"P1", 4, 2, 1, 2)?;
    tables_e1(rt, b"a gate as a leaf", 4, 2, 1, 3)?;
    tables_e1(rt, b"the window of P8", 3, 1, 1, 0)
}

fn bad_leaves(rt: &impl Print) -> io::Result<()> {
    tables_e1(rt, b"descending", 4, 2, 2, 1)?;
    tables_e1(rt, b"a leaf twice", 4, 2, 1, 1)?;
    tables_e1(rt, b"variable 0 as a leaf", 4, 2, 0, 1)
}

fn leaves_out_of_place(rt: &impl Print) -> io::Result<()> {
    tables_e1(rt, b"the root as a leaf", 4, 2, 1, 4)?;
    tables_e1(rt, b"an unused place", 4, 1, 1, 2)
}

fn roots_of_tables(rt: &impl Print) -> io::Result<()> {
    tables(
        rt,
        b"gate 3 2 over 1",
        &LentGraph::new(1, &[3, 2], &[4]),
        2,
        two_places(1, 1, 0),
    )?;
    tables(
        rt,
        b"not in use",
        &LentGraph::new(2, &[4, 2, 4, 3], &[6]),
        4,
        two_places(2, 1, 2),
    )?;
    tables_e1(rt, b"root 2 over none", 2, 0, 0, 0)
}

fn table_limits(rt: &impl Print) -> io::Result<()> {
    tables(
        rt,
        b"64 inputs over 2",
        &LentGraph::new(64, &[128, 2], &[130]),
        65,
        two_places(2, 1, 64),
    )?;
    tables(
        rt,
        b"65 inputs over 2",
        &LentGraph::new(65, &[130, 2], &[132]),
        66,
        two_places(2, 1, 65),
    )?;
    let gates = [0u32; 2050];
    tables(
        rt,
        b"1,024 gates over none",
        &LentGraph::new(0, &gates[..2048], &[2048]),
        1024,
        two_places(0, 0, 0),
    )?;
    tables(
        rt,
        b"1,025 gates over none",
        &LentGraph::new(0, &gates, &[2048]),
        1024,
        two_places(0, 0, 0),
    )
}

fn table_pairs(rt: &impl Print) -> io::Result<()> {
    tables(
        rt,
        b"7 and 9",
        &LentGraph::new(1, &[2, 3], &[4]),
        1,
        two_places(1, 1, 0),
    )?;
    tables_e1(rt, b"9 and 10", 2, 2, 2, 1)?;
    tables_e1(rt, b"10 and 11", 3, 1, 1, 2)
}

fn and_of_six(rt: &impl Print, name: &[u8], count: usize) -> io::Result<()> {
    let all = Leaves {
        count,
        places: [Var(1), Var(2), Var(3), Var(4), Var(5), Var(6)],
    };
    tables(
        rt,
        name,
        &LentGraph::new(6, &[4, 2, 14, 6, 16, 8, 18, 10, 20, 12], &[22]),
        11,
        all,
    )
}

pub fn run<R: Print + Input>(rt: &R) -> io::Result<()> {
    roots_in_use(rt)?;
    bad_roots(rt)?;
    unused_roots(rt)?;
    input_limit(rt)?;
    gate_limit(rt)?;
    ladder(rt)?;
    leaf_sets(rt)?;
    bad_leaves(rt)?;
    leaves_out_of_place(rt)?;
    roots_of_tables(rt)?;
    table_limits(rt)?;
    table_pairs(rt)?;
    and_of_six(rt, b"six leaves", 6)?;
    and_of_six(rt, b"seven leaves", 7)
}
