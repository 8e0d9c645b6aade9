// What the test programs lend and print: the words of an area; bytes and rows of words in hexadecimal, the number and the count that
// a call answered, and whether lent words are as before.
#![tactic(auto)]

ghost use Rattle.std.specs.Prelude.{◌≤◌, ◌<◌};

use refusals::Refusal;
use std::io;

// The words of an area for a height limit, by document 02, M-109: 16, and 64 times the smaller of L + 1 and 27.
pub fn area_words(limit: u64) -> usize
    ensures { (80 ≤ result) × (result ≤ 1744) }
{
    16 + 64 * (limit.min(26) + 1) as usize
}

// Writes bytes in hexadecimal.
pub fn bytes(rt: &impl Print, bytes: &[u8]) -> io::Result<()> {
    for b in bytes {
        print!(rt; "{b:02x}")?;
    }
    Ok(())
}

// Writes what a call answered, as C is told: 0 and the count, or the number that refuses it and 0.
pub fn answer(rt: &impl Print, told: Result<u64, Refusal>) -> io::Result<()> {
    match told {
        Ok(count) => print!(rt; "0 {count}"),
        Err(refusal) => print!(rt; "{} 0", refusal.number()),
    }
}

// Writes whether words are those of a copy, from a place on.
pub fn same(rt: &impl Print, words: &[u64], before: &[u64], from: usize) -> io::Result<()> {
    if words.get(from..) == before.get(from..words.len()) {
        return print!(rt; " same");
    }
    print!(rt; " changed")
}

// Writes words as a line.
fn row(rt: &impl Print, words: &[u64]) -> io::Result<()> {
    for (i, word) in words.iter().enumerate() {
        if 0 < i {
            print!(rt; " ")?;
        }
        print!(rt; "{word:016x}")?;
    }
    println!(rt; "")
}

// Writes words in rows of so many: a log in rows of two, a node a line.
pub fn rows(rt: &impl Print, words: &[u64], width: usize) -> io::Result<()>
    requires { 0 < width }
{
    for words in words.chunks(width) {
        row(rt, words)?;
    }
    Ok(())
}
