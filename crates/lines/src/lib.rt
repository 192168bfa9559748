// What the programs share: the picture that they ask about, and the lines that they print, of what was asked and what a call answers.
#![tactic(auto)]

use refusal::Refusal;
use std::io;

// The list of the picture P.
pub const P: [u64; 7] = [257, 262144, 327680, 393216, 458753, 524544, 786689];

pub fn say(rt: &impl Print, text: &[u8]) -> io::Result<()> {
    rt.write_all(text)
}

// What was asked: of which call, and about what.
pub fn asked(rt: &impl Print, call: &[u8], what: &[u8]) -> io::Result<()> {
    say(rt, call)?;
    say(rt, b", ")?;
    say(rt, what)
}

// What a call answers that gives a number.
pub fn answer(rt: &impl Print, answer: Result<u64, Refusal>) -> io::Result<()> {
    match answer {
        Ok(value) => println!(rt; ": {value}"),
        Err(r) => refused(rt, r),
    }
}

pub fn refused(rt: &impl Print, r: Refusal) -> io::Result<()> {
    println!(rt; ": {r}")
}

// Words of memory, on one line.
pub fn words(rt: &impl Print, list: &[u64]) -> io::Result<()> {
    for word in list {
        print!(rt; " {word}")?;
    }
    println!(rt)
}

// What is left in memory that was lent, on one line.
pub fn left(rt: &impl Print, lent: &[u64]) -> io::Result<()> {
    say(rt, b"  left:")?;
    words(rt, lent)
}
