// Calls each public function of the stream from Rattle. Showing a level is one that C cannot call, so that all rows of it stand here:
// levels of areas of every length, and level 1 of short and unsound areas, of ended ones and of ones with a word changed. The rows of
// the other calls stand in tests/stream/rows.c. A call writes a line, its number and its count, and an end then its output; a level that
// is shown writes how many words it has. tests/stream/expected.py makes the expected lines.
#![tactic(auto)]

ghost use Rattle.std.specs.Prelude.{◌≤◌};

use refusals::Refusal;
use std::io;
use stream::{area_words, close, end, feed, level, log_words, open, preview};

// What lent words hold before a call that does not need them.
const FILL: u64 = 0xa5a5a5a5a5a5a5a5;

// The words that stand in a test: a few more than the longest area has.
const LENT: usize = 1750;

// Levels to show: 0, L + 1 and L + 2 for each limit of `main`, and 2^63.
const LEVELS: [u64; 12] = [0, 1, 2, 3, 4, 26, 27, 28, 29, 65, 66, 9223372036854775808];

// An area that is fed ones and of which a word is changed: the words of it that are lent, L, the bits fed, the place of the word,
// what it is changed to, and whether the area is closed before. No struct: rt fmt would give each field of 44 rows a line.
type Change = (usize, u64, u64, usize, u64, bool);

const CHANGES: [Change; 44] = [
    // words before the levels
    (1750, 64, 1, 0, 0, false),
    (1750, 64, 1, 0, 3, false),
    (1750, 64, 1, 1, 0, false),
    (1750, 64, 1, 2, 2, false),
    (1750, 64, 1, 2, 65, false),
    (1750, 64, 1, 3, 0, false),
    (1750, 64, 1, 3, 513, false),
    (1750, 64, 1, 3, 4294967304, false),
    (1750, 64, 1, 5, 4096, false),
    (1750, 64, 1, 6, 0x6b65790000000001, false),
    (1750, 64, 1, 13, 1, false),
    (1750, 64, 1, 14, 1, false),
    (1750, 64, 4097, 14, 0, false),
    (1750, 64, 1, 15, 1, false),
    // another L in word 4
    (80, 0, 0, 4, 65, false),
    (1744, 0, 0, 4, 65, false),
    (1750, 64, 1, 4, 65, false),
    (80, 0, 0, 4, u64::MAX, false),
    (1744, 0, 0, 4, u64::MAX, false),
    (1750, 64, 1, 4, u64::MAX, false),
    (80, 64, 0, 4, 0, false),
    (143, 64, 0, 4, 1, false),
    (144, 64, 0, 4, 1, false),
    (1750, 0, 0, 4, 1, false),
    // a bit behind the held ones, or where no sequential output is yet, or past the area
    (1750, 64, 1, 16, 0xc000000000000000, false),
    (1750, 64, 4095, 79, u64::MAX, false),
    (1750, 64, 4096, 80, 1, false),
    (1750, 64, 4097, 96, 0x8000000000000000, false),
    (1750, 0, 3072, 31, 1, false),
    (1750, 0, 3073, 32, 0xc000000000000000, false),
    (1750, 0, 3073, 80, 1, false),
    (1750, 1, 4097, 95, 1, false),
    (1750, 1, 12289, 96, 1, false),
    (1750, 1, 12289, 144, 1, false),
    // held words, a chained output and rounds, which may be others
    (1750, 64, 1, 16, 0, false),
    (1750, 64, 4096, 79, 0, false),
    (1750, 0, 3073, 31, 0, false),
    (1750, 64, 1, 5, 255, false),
    (1750, 64, 1, 5, 256, false),
    (1750, 64, 1, 5, 4095, false),
    // words of closed areas
    (1750, 64, 1, 16, 1, true),
    (1750, 64, 1, 14, 0, true),
    (1750, 64, 1, 0, 1, true),
    (1750, 64, 16384, 15, 1, true),
];

// Writes a line: the number and the count that a call answered.
fn print_answer(rt: &impl Print, answer: Result<u64, Refusal>) -> io::Result<()> {
    test_print::answer(rt, answer)?;
    println!(rt; "")
}

// Writes how many words are shown of a level.
fn show(rt: &impl Print, area: &[u64], k: u64) -> io::Result<()> {
    let part = level(area, k);
    println!(rt; "{}", part.len())
}

// Writes the same of each of these levels.
fn show_levels(rt: &impl Print, area: &[u64]) -> io::Result<()> {
    for k in LEVELS {
        show(rt, area, k)?;
    }
    Ok(())
}

// Opens an area under the key "key" and feeds it ones, with the log words told before.
fn begin(
    rt: &impl Print,
    area: &mut [u64],
    d: u64,
    limit: u64,
    rounds: u64,
    bits: u64,
) -> io::Result<()> {
    let ones = [0xffu8; 2049];
    let mut log = [FILL; 64];
    print_answer(rt, open(&mut *area, b"key", d, limit, rounds))?;
    print_answer(rt, log_words(&*area, bits))?;
    print_answer(rt, feed(&mut *area, &ones, 0, bits, &mut log))
}

// A stream, whatever the area held, with its levels before the end, and its digest.
fn stream_in(rt: &impl Print, area: &mut [u64], limit: u64) -> io::Result<()> {
    let mut digest = [0xa5u8; 3];
    let mut log = [FILL; 54];
    begin(rt, &mut *area, 24, limit, 9, 16385)?;
    show_levels(rt, &*area)?;
    print_answer(rt, end(&mut *area, &mut digest, &mut log))?;
    test_print::bytes(rt, &digest)?;
    println!(rt; "")
}

// This in so many words.
fn stream_in_words(rt: &impl Print, words: usize, limit: u64) -> io::Result<()>
    requires { words ≤ 1750 }
{
    let mut area = [FILL; LENT];
    stream_in(rt, &mut area[..words], limit)
}

// Closes an area of d = 8 with the figure of its preview, if it is to be closed.
fn finish(rt: &impl Print, area: &mut [u64], closed: bool) -> io::Result<()> {
    if !closed {
        return Ok(());
    }
    let mut figure = [0u8; 1];
    let mut log = [FILL; 54];
    print_answer(rt, preview(&*area, &mut figure))?;
    print_answer(rt, close(&mut *area, &figure, &mut log))
}

// Changes a word, if there is one.
fn set(area: &mut [u64], at: usize, value: u64) {
    if let Some(word) = area.get_mut(at) {
        *word = value;
    }
}

// Level 1 of the first words, so many, of an area of which a word is changed, and which may be closed before that; then of the same
// area closed.
fn altered(rt: &impl Print, change: Change) -> io::Result<()> {
    let (words, limit, bits, at, value, closed) = change;
    let mut area = [FILL; LENT];
    let lent = words.min(LENT);
    begin(rt, &mut area, 8, limit, 0, bits)?;
    finish(rt, &mut area, closed)?;
    set(&mut area, at, value);
    show(rt, &area[..lent], 1)?;
    finish(rt, &mut area, true)?;
    show(rt, &area[..lent], 1)
}

// An area in just enough words, in more and in one fewer; then with its last word and the word past it changed, open and closed.
fn by_limit(rt: &impl Print, limit: u64) -> io::Result<()> {
    let words = test_print::area_words(limit);
    print_answer(rt, area_words(limit))?;
    stream_in_words(rt, words, limit)?;
    stream_in_words(rt, LENT, limit)?;
    stream_in_words(rt, words - 1, limit)?;
    altered(rt, (words - 1, limit, 1, LENT, 0, false))?;
    altered(rt, (LENT, limit, 1, words - 1, 1, false))?;
    altered(rt, (LENT, limit, 1, words, 1, false))?;
    altered(rt, (LENT, limit, 1, words - 1, 1, true))?;
    altered(rt, (LENT, limit, 1, words, 1, true))
}

// Areas with the first level of many, without all of the words before the levels, and with no level.
fn few_words(rt: &impl Print) -> io::Result<()> {
    altered(rt, (80, 64, 1, LENT, 0, false))?;
    for words in 0..17 {
        altered(rt, (words, 0, 1, LENT, 0, false))?;
    }
    Ok(())
}

fn all_changes(rt: &impl Print) -> io::Result<()> {
    for change in CHANGES {
        altered(rt, change)?;
    }
    Ok(())
}

// The limits are at the edges of an area's length, which from 26 on is the same.
fn main(rt: HostRuntime) -> io::Result<()> {
    for limit in [0, 1, 2, 25, 26, 27, 64] {
        by_limit(&rt, limit)?;
    }
    few_words(&rt)?;
    all_changes(&rt)
}
