// Reads lines from standard input, gives each to the library byte by byte, and writes what it says: d, L, r (- for the default),
// the count of key bytes that are kept and these bytes, or that the line is unreadable.
#![tactic(auto)]

ghost use Rattle.std.specs.Prelude.{◌≤◌, IfOk, length};

use line::{FirstLine, State};
use std::io;
use std::io::Read;

fn write_rounds(rt: &impl Print, rounds: Option<u64>) -> io::Result<()> {
    match rounds {
        None => print!(rt; "-"),
        Some(r) => print!(rt; "{r}"),
    }
}

fn write_numbers(rt: &impl Print, said: FirstLine) -> io::Result<()> {
    print!(rt; "{} {} ", said.d, said.limit)?;
    write_rounds(rt, said.rounds)?;
    print!(rt; " {}:", said.key_bytes)
}

fn write_reading(rt: &impl Print, s: State) -> io::Result<()> {
    match s.reading() {
        None => print!(rt; "unreadable")?,
        Some(said) => {
            write_numbers(rt, said)?;
            test_print::bytes(rt, &s.key.bytes[..said.key_bytes])?;
        }
    }
    println!(rt; "")
}

// Each line of a text, ended by byte 10.
fn write_lines(rt: &impl Print, text: &[u8]) -> io::Result<()> {
    for line in text.split_inclusive(|b| *b == 10) {
        if let Some(line) = line.strip_suffix(b"\n") {
            write_reading(rt, State::new().steps(line))?;
        }
    }
    Ok(())
}

// Reads until the text is full or the input ends, and answers how many bytes were read.
fn read_full(input: &mut impl Read, text: &mut [u8]) -> io::Result<usize>
    ensures { IfOk result (λ n. n ≤ length text.new) }
{
    let mut n = 0;
    for _ in 0..text.len() {
        let got = input.read(&mut text[n..])?;
        if got == 0 {
            break;
        }
        n += got;
    }
    Ok(n)
}

fn main(rt: HostRuntime) -> io::Result<()> {
    let mut text = [0u8; 65536];
    let n = read_full(&mut rt.stdin(), &mut text)?;
    write_lines(&rt, &text[..n])
}
