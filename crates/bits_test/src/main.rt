// Fills blocks at many alignments and prints their words, then the hexadecimal digits. tests/bits/expected.py makes the
// expected lines, bit by bit.
#![tactic(auto)]

ghost use Rattle.std.specs.Prelude.{◌<◌, ◌≤◌, length};

use std::io;

// Writes the words on one line.
fn show(rt: &impl Print, words: &[u64]) -> io::Result<()> {
    for word in words {
        print!(rt; "{word:016x} ")?;
    }
    println!(rt; "")
}

// Byte i of the message.
fn message_byte(i: usize) -> u8
    requires { i < 33 }
{
    ((i * 37 + 11) % 256) as u8
}

// One fill, the k-th. The bytes that are lent end with the last byte that is read.
fn fill_once(rt: &impl Print, message: &[u8], k: usize) -> io::Result<()>
    requires { (33 ≤ length message.now) × (k < 80) }
{
    let at = k * 11 % 67;
    let byte = k % 9;
    let bit = k % 8;
    let count = k * 29 % 190;
    let end = byte + (bit + count + 7) / 8;
    let mut block = [
        0xffffffff00000000u64,
        0x0123456789abcdef,
        0,
        0xffffffffffffffff,
    ];
    bits::fill(&mut block, at, &message[..end], byte, bit, count);
    show(rt, &block)
}

fn message() -> [u8; 33] {
    let mut message = [0u8; 33];
    for (i, byte) in message.iter_mut().enumerate() {
        *byte = message_byte(i);
    }
    message
}

fn fills(rt: &impl Print) -> io::Result<()> {
    let message = message();
    for k in 0..80 {
        fill_once(rt, &message, k)?;
    }
    Ok(())
}

// Each value's digit.
fn digits(rt: &impl Print) -> io::Result<()> {
    for n in 0..16 {
        rt.write_all(&[digits::value_digit(n)])?;
    }
    println!(rt; "")
}

// The value of a byte that is a digit.
fn value(rt: &impl Print, b: u8) -> io::Result<()> {
    if let Some(v) = digits::digit_value(b) {
        rt.write_all(&[b])?;
        print!(rt; "={v} ")?;
    }
    Ok(())
}

// Every byte that is a digit, with its value.
fn values(rt: &impl Print) -> io::Result<()> {
    for b in 0..=u8::MAX {
        value(rt, b)?;
    }
    println!(rt; "")
}

fn main(rt: HostRuntime) -> io::Result<()> {
    fills(&rt)?;
    digits(&rt)?;
    values(&rt)
}
