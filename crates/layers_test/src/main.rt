// Calls `layers` from Rattle, on trees of several levels, a chain and nothing, and on refused ones. A line is the number, the count and the
// output; then a line for every two words of the log and one for every 16 words, of all that were lent. All held a5 in every byte before
// the call. Last some words and log words that are told. All other rows are run from C, by tests/layers/rows.c.
// tests/layers/expected.py --rattle makes the expected lines from documents 01 and 02.
#![tactic(auto)]

use std::io;

// What lent words hold before a call.
const FILL: u64 = 0xa5a5a5a5a5a5a5a5;

// Ones under the key "key", with five rounds: words for six level-1 nodes, and log for eight nodes.
fn show(rt: &impl Print, bits: u64, d: u64, limit: u64) -> io::Result<()> {
    let ones = [0xffu8; 3585];
    let mut words = [FILL; 96];
    let mut log = [FILL; 16];
    let mut out = [0xa5u8; 3];
    let told = layers::layers(
        &ones, 0, bits, b"key", d, limit, 5, &mut words, &mut log, &mut out,
    );
    test_print::answer(rt, told)?;
    print!(rt; " ")?;
    test_print::bytes(rt, &out)?;
    println!(rt; "")?;
    test_print::rows(rt, &log, 2)?;
    test_print::rows(rt, &words, 16)
}

fn accepted(rt: &impl Print) -> io::Result<()> {
    show(rt, 16385, 8, 64)?;
    show(rt, 12289, 20, 1)?;
    show(rt, 3073, 9, 0)?;
    show(rt, 0, 24, 64)
}

// By 5, 1, 3, 9, 7 and 8.
fn refused(rt: &impl Print) -> io::Result<()> {
    show(rt, 28681, 0, 65)?;
    show(rt, 28680, 0, 65)?;
    show(rt, 28680, 25, 65)?;
    show(rt, 28680, 25, 64)?;
    show(rt, 28680, 24, 64)?;
    show(rt, 20481, 24, 64)
}

// The words that are told, and the words of log.
fn told(rt: &impl Print, bits: u64, limit: u64) -> io::Result<()> {
    test_print::answer(rt, layers::layer_words(bits, limit))?;
    print!(rt; " ")?;
    test_print::answer(rt, layers::layer_log_words(bits, limit))?;
    println!(rt; "")
}

fn main(rt: HostRuntime) -> io::Result<()> {
    accepted(&rt)?;
    refused(&rt)?;
    told(&rt, 16385, 64)?;
    told(&rt, 16385, 0)?;
    told(&rt, u64::MAX, 1)?;
    told(&rt, 16385, 65)
}
