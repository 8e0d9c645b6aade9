// The buffer in which windows are compressed.
ghost use Rattle.std.specs.Prelude.{◌≡◌, ◌≢◌, ℕ, ◌+◌, ◌-◌, ◌≤◌, ◌<◌, min, length, take, drop};
ghost use Rattle.std.proofs.Math.Seq.{paste};
ghost use Rattle.constants.specs.Constants.{RoundTable, table_entries, part_entries};
ghost use Rattle.compress.specs.Buffer.{lane, Placed, Advances};

use super::{ROUND, WINDOW, lanes};
use constants::PART;

// The words of so many lanes, and the place in them after a window and whole rounds, where the next round is written. A computed
// length of an array is no type, so WORDS stands for LANES * 345. The field with no element has the buffer begin at a multiple of 16
// bytes, as vectors are: where it does not, a compression takes 3% longer.
#[derive(Drop)]
pub struct Buffer<const LANES: usize, const WORDS: usize> {
    pub words: [u64; WORDS],
    pub at: usize,
    pub aligned: [u128; 0],
    ghost placed: { Placed LANES words at },
}

impl<const LANES: usize, const WORDS: usize> Buffer<LANES, WORDS> {
    // Puts a window at the front of lane j.
    pub fn put_window(&mut self, j: usize, window: &[u64; WINDOW])
        requires { j < LANES }
        ensures { (lane LANES j self.new.words ≡ paste (lane LANES j self.old.words) 0 window.now 89)
            × ((k : ℕ) → k < LANES → k ≢ j → lane LANES k self.new.words ≡ lane LANES k self.old.words)
            × (self.new.at ≡ self.old.at) }
    {
        for i in 0..WINDOW {
            self.words[LANES * i + j] = window[i];
        }
    }

    // A round with each constant of a part. The place is in a register meanwhile, and `next_place` and `round` are no methods: with the
    // place in memory between rounds, those of one lane take 1 to 2% longer.
    fn some_rounds(&mut self, part: &[u64])
        ensures { (q : ℕ) → RoundTable q part.now
            → Advances LANES q (q + length part.now) self.old.at self.old.words self.new.at self.new.words }
    {
        let mut place = self.at;
        for s in part {
            place = lanes::next_place::<LANES>(&mut self.words, place);
            lanes::round::<LANES>(&mut self.words, place, *s);
            place += ROUND;
        }
        self.at = place;
    }

    // The rounds after the first 273, if there are any: the next part is fetched when they come to it.
    fn later_rounds(&mut self, rounds: usize)
        requires { rounds ≤ table_entries }
        ensures { Advances LANES (min rounds part_entries) rounds self.old.at self.old.words self.new.at self.new.words }
    {
        for part in 1..rounds.div_ceil(PART) {
            let s = constants::part(part);
            let n = PART.min(rounds - PART * part);
            self.some_rounds(&s[..n]);
        }
    }

    // So many rounds on the windows at the front of the lanes. The constants of the first 273 rounds are lent; more rounds fetch
    // theirs. Not inlined: words of the caller's own stack have longer addresses, and a compression of one lane takes 4% longer.
    #[inline(never)]
    pub fn all_rounds(&mut self, first: &[u64], rounds: usize)
        requires { RoundTable 0 first.now × (length first.now ≡ part_entries) × (rounds ≤ table_entries) }
        ensures { Advances LANES 0 rounds self.old.at self.old.words self.new.at self.new.words }
    {
        let n = PART.min(rounds);
        self.some_rounds(&first[..n]);
        self.later_rounds(rounds);
    }

    // The 16 words of lane j before the place.
    pub fn output(&self, j: usize) -> [u64; ROUND]
        requires { j < LANES }
        ensures { result ≡ take 16 (drop (self.now.at - 16) (lane LANES j self.now.words)) }
    {
        let mut c = [0u64; ROUND];
        let from = self.at - ROUND;
        for i in 0..ROUND {
            c[i] = self.words[LANES * (from + i) + j];
        }
        c
    }
}
