// Calls `hash` from Rattle, since `md6_hash` does not tell C the count: for each bit count of the rows that tests/hash/rows.c runs
// from C, at three height limits and start bits, and for refused calls. A line is the number of what `check` refuses by, the number and
// the count that hash answers, and the output, which held a5 in every byte before the call. Then some default rounds.
// tests/hash/expected.py --rattle makes the expected lines with the second program and from document 02.
#![tactic(auto)]

use bits::Span;
use refusals::Params;
use std::io;

// The bit counts.
const BITS: [u64; 25] = [
    0, 1, 7, 8, 9, 17, 18, 19, 20, 21, 22, 23, 24, 3071, 3072, 3073, 4095, 4096, 4097, 4800, 6400,
    12288, 12289, 16384, 16385,
];

// Ones from a start bit on.
fn call(
    rt: &impl Print,
    key: &[u8],
    start: u64,
    bits: u64,
    d: u64,
    limit: u64,
    rounds: u64,
) -> io::Result<()> {
    let ones = [0xffu8; 2050];
    let mut out = [0xa5u8; 3];
    let params = Params {
        keylen: key.len() as u64,
        d,
        limit,
        rounds,
    };
    let number = match hash::check(&ones, Span { start, bits }, params, &out) {
        Ok(()) => 0,
        Err(refusal) => refusal.number(),
    };
    print!(rt; "{number} ")?;
    let told = hash::hash(&ones, start, bits, key, d, limit, rounds, &mut out);
    test_print::answer(rt, told)?;
    print!(rt; " ")?;
    test_print::bytes(rt, &out)?;
    println!(rt; "")
}

fn under_key(
    rt: &impl Print,
    start: u64,
    bits: u64,
    d: u64,
    limit: u64,
    rounds: u64,
) -> io::Result<()> {
    call(rt, b"key", start, bits, d, limit, rounds)
}

fn all_bits(rt: &impl Print) -> io::Result<()> {
    for bits in BITS {
        under_key(rt, 0, bits, 9, 0, 0)?;
        under_key(rt, 1, bits, 9, 1, 0)?;
        under_key(rt, 7, bits, 9, 64, 0)?;
    }
    Ok(())
}

// Each refusal, with all that come after it; then a call that is accepted.
fn refused(rt: &impl Print) -> io::Result<()> {
    let long = [0x6bu8; 65];
    call(rt, &long, 8, 16393, 513, 65, 4096)?;
    call(rt, &long, 7, 16393, 513, 65, 4096)?;
    call(rt, &long, 7, 16393, 25, 65, 4096)?;
    under_key(rt, 7, 16393, 25, 65, 4096)?;
    under_key(rt, 7, 16393, 25, 64, 4096)?;
    under_key(rt, 7, 16393, 25, 64, 4095)?;
    under_key(rt, 7, 16393, 24, 64, 4095)?;
    Ok(())
}

// Start bits and counts whose sum passes 2^64, a start bit that is 0 in 32 bits, and so a digest size.
fn edges(rt: &impl Print) -> io::Result<()> {
    under_key(rt, 7, u64::MAX, 9, 64, 0)?;
    under_key(rt, u64::MAX, 1, 9, 64, 0)?;
    under_key(rt, 4294967296, 1, 9, 64, 0)?;
    under_key(rt, 0, 1, 4294967304, 64, 0)?;
    under_key(rt, 0, 1, 0, 64, 0)?;
    Ok(())
}

// What is told for a digest size and a key length, and the rounds by the formula alone.
fn told(rt: &impl Print, d: u64, key_bytes: u64) -> io::Result<()> {
    test_print::answer(rt, hash::default_rounds(d, key_bytes))?;
    println!(rt; " {}", hash::rounds_by_default(d, key_bytes))
}

fn main(rt: HostRuntime) -> io::Result<()> {
    all_bits(&rt)?;
    refused(&rt)?;
    edges(&rt)?;
    told(&rt, 8, 0)?;
    told(&rt, 8, 1)?;
    told(&rt, 512, 64)?;
    told(&rt, 513, 65)?;
    told(&rt, 512, 65)
}
