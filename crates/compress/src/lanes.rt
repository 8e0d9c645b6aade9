// The words that the rounds are written to, in one lane, or in two for two windows at a time: word i of lane j stands at
// LANES * i + j, so that a step does the same to neighbours, and the compiler takes both at once in a vector register.
ghost use Rattle.std.specs.Prelude.{◌≡◌, ℕ, ◌+◌, ◌*◌, ◌≤◌, ◌<◌, length, drop};
ghost use Rattle.std.proofs.Math.Seq.{paste};
ghost use Rattle.compress.specs.Buffer.{new_word, put_at, put_round, before, lane, Lanes, Sized, Placed};

use super::{LANE, ROUND, SHIFTS, Shifts, WINDOW, WRITTEN};

// The word to be written at place p, from those before it in its lane.
fn new_word<const LANES: usize>(a: &[u64], p: usize, s: u64, by: Shifts) -> u64
    requires { (1 ≤ LANES) × (LANES ≤ 2) × (LANES * 89 ≤ p) × (p < length a.now) }
    ensures { result ≡ new_word LANES p s by.r by.l a.now }
{
    super::step(
        s,
        a[p - LANES * 89],
        a[p - LANES * 17],
        a[p - LANES * 18],
        a[p - LANES * 21],
        a[p - LANES * 31],
        a[p - LANES * 67],
        by,
    )
}

// Writes word i of every lane.
fn add_words<const LANES: usize>(a: &mut [u64], i: usize, s: u64, by: Shifts)
    requires { Sized LANES a.old × (89 ≤ i) × (i < 345) }
    ensures { Lanes LANES (put_at i s by.r by.l) a.old a.new }
{
    for j in 0..LANES {
        let p = LANES * i + j;
        a[p] = new_word::<LANES>(a, p, s, by);
    }
}

// Writes the 16 words of a round from word i on, of every lane. The compiler unrolls a loop that makes so many words, but not one of a
// whole round on two lanes, nor one in a function that is called for each half: either makes a round nearly twice as slow.
pub fn round<const LANES: usize>(a: &mut [u64], i: usize, s: u64)
    requires { Sized LANES a.old × (89 ≤ i) × (i + 16 ≤ 345) }
    ensures { Lanes LANES (put_round 16 i s) a.old a.new }
{
    let shifts = SHIFTS; // copied once: in the loops it would be for each step
    let unrolled = ROUND / LANES;
    for j in 0..unrolled {
        add_words::<LANES>(a, i + j, s, shifts[j]);
    }
    for j in unrolled..ROUND {
        add_words::<LANES>(a, i + j, s, shifts[j]);
    }
}

// Moves n words from place b on to the front, word by word and the last first. Of `copy_within`, and of a loop from the first on, the compiler
// makes a call of memcpy, which puts 8 bytes more on the stack where the rounds are more than a buffer has room for; they are to make no
// difference there (docs/C.md).
fn move_to_front(a: &mut [u64], b: usize, n: usize)
    requires { (n ≤ b) × (b + n ≤ length a.old) }
    ensures { a.new ≡ paste a.old 0 (drop b a.old) n }
{
    for m in 0..n {
        let i = n - 1 - m;
        a[i] = a[b + i];
    }
}

// Where the next round is written: at, or 89 after the last 89 words of each lane of a full buffer were moved to its front.
pub fn next_place<const LANES: usize>(a: &mut [u64], at: usize) -> usize
    requires { Placed LANES a.old at }
    ensures { Placed LANES a.new result × (result + 16 ≤ 345)
        × ((j : ℕ) → j < LANES → before result (lane LANES j a.new) ≡ before at (lane LANES j a.old)) }
{
    if at < LANE {
        at
    } else {
        move_to_front(a, LANES * WRITTEN, LANES * WINDOW);
        WINDOW
    }
}
