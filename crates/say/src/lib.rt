// What the runs of the public calls print, through the handle that `main` is given.
#![tactic(auto)]

use graph::Refusal;
use std::io;

pub fn say(rt: &impl Print, words: &[u8]) -> io::Result<()> {
    rt.write_all(words)
}

pub fn say_number(rt: &impl Print, number: u64) -> io::Result<()> {
    print!(rt; " {number}")
}

pub fn say_word(rt: &impl Print, word: u32) -> io::Result<()> {
    say_number(rt, word as u64)
}

pub fn say_refusal(rt: &impl Print, refusal: Refusal) -> io::Result<()> {
    say_word(rt, refusal.number())
}

pub fn say_words(rt: &impl Print, words: &[u32]) -> io::Result<()> {
    say(rt, b" |")?;
    for word in words {
        say_word(rt, *word)?;
    }
    Ok(())
}

// The 64 bits of a table in hexadecimal.
pub fn say_bits(rt: &impl Print, bits: u64) -> io::Result<()> {
    print!(rt; " {bits:016x}")
}
