// The compression function of MD6. Document 01, "Compression".
#![tactic(auto)]

ghost use Rattle.std.specs.Prelude.{◌≡◌, ◌≤◌, ◌<◌, length};
ghost use Rattle.constants.specs.Constants.{RoundTable, table_entries, part_entries};
ghost use Rattle.compress.specs.Compress.{Q, compressed};
ghost use Rattle.compress.specs.Report.{report_step};

use buffer::Buffer;

mod buffer; // buffer.rt: the rounds on the windows at the front of a buffer
mod lanes; // lanes.rt: a step, a round and a move in each lane of a buffer

// Q: the first 960 bits of the fraction of the square root of 6.
const Q_WORDS: [u64; 15] = [
    0x7311c2812425cfa0,
    0x6432286434aac8e7,
    0xb60450e9ef68b7c1,
    0xe8fb23908d9f06f1,
    0xdd2e76cba691e5bf,
    0x0cd0d63b2c30bc41,
    0x1f8ccf6823058f8a,
    0x54e5ed5b88e3775d,
    0x4ad12aae0a6d6031,
    0x3e7f16bb88222e0d,
    0x8af8671d3fb50c2c,
    0x995ad1178bd25c31,
    0xc878c1dd04c4b633,
    0x3b72066c7a1552ac,
    0x0d6f3522631effcb,
];

// The words of a window, and those of a round, the last of which are the output.
pub const WINDOW: usize = 89;

pub const ROUND: usize = 16;

// The words of a lane of the buffer: a window, and the rounds that are written before its last words are moved to the front.
const WRITTEN: usize = 16 * ROUND;

const LANE: usize = WINDOW + WRITTEN;

const TWO_LANES: usize = 2 * LANE;

// The 15 words of Q, the first part of every window.
pub fn q_words() -> [u64; 15]
    ensures { result ≡ Q }
{
    Q_WORDS
}

// The shifts of a step: the report's r[i-n] and l[i-n], document 01's R and T.
#[derive(Clone, Copy)]
struct Shifts {
    r: u64,
    l: u64,
    ghost small: { (r < 64) × (l < 64) },
}

// The shifts of the 16 steps of a round.
const SHIFTS: [Shifts; ROUND] = [
    Shifts { r: 10, l: 11 },
    Shifts { r: 5, l: 24 },
    Shifts { r: 13, l: 9 },
    Shifts { r: 10, l: 16 },
    Shifts { r: 11, l: 15 },
    Shifts { r: 12, l: 9 },
    Shifts { r: 2, l: 27 },
    Shifts { r: 7, l: 15 },
    Shifts { r: 14, l: 6 },
    Shifts { r: 15, l: 2 },
    Shifts { r: 7, l: 29 },
    Shifts { r: 13, l: 8 },
    Shifts { r: 11, l: 15 },
    Shifts { r: 7, l: 5 },
    Shifts { r: 6, l: 31 },
    Shifts { r: 12, l: 9 },
];

// The new word of a step, line for line as figure 2.10 of the report has it: s is the constant, an is A[i-n], a0 to a4 are
// A[i-t0] to A[i-t4]. Document 01 calls them S; A[i-89]; A[i-17], A[i-18], A[i-21], A[i-31] and A[i-67].
fn step(s: u64, an: u64, a0: u64, a1: u64, a2: u64, a3: u64, a4: u64, by: Shifts) -> u64
    ensures { result ≡ report_step s an a0 a1 a2 a3 a4 by.r by.l }
{
    let x1 = s ^ an ^ a0;
    let x2 = x1 ^ (a1 & a2) ^ (a3 & a4);
    let x3 = x2 ^ (x2 >> by.r);
    x3 ^ (x3 << by.l)
}

// The compression function: so many rounds on a window. What is asked of `first` stands here, below and at `all_rounds`, and in no
// type: the signatures of the two public functions may not change.
pub fn compress(window: &[u64; WINDOW], first: &[u64], rounds: usize) -> [u64; ROUND]
    requires { RoundTable 0 first.now × (length first.now ≡ part_entries) × (rounds ≤ table_entries) }
    ensures { result ≡ compressed rounds window.now }
{
    let mut buffer = Buffer::<1, LANE> {
        words: [0; LANE],
        at: WINDOW,
        aligned: [],
    };
    buffer.put_window(0, window);
    buffer.all_rounds(first, rounds);
    buffer.output(0)
}

// The outputs of two windows.
#[derive(Clone, Copy)]
pub struct Two {
    pub first: [u64; ROUND],
    pub second: [u64; ROUND],
}

// The compression function on two windows at a time, one in each lane.
pub fn compress_two(one: &[u64; WINDOW], other: &[u64; WINDOW], first: &[u64], rounds: usize) -> Two
    requires { RoundTable 0 first.now × (length first.now ≡ part_entries) × (rounds ≤ table_entries) }
    ensures { (result.first ≡ compressed rounds one.now) × (result.second ≡ compressed rounds other.now) }
{
    let mut buffer = Buffer::<2, TWO_LANES> {
        words: [0; TWO_LANES],
        at: WINDOW,
        aligned: [],
    };
    buffer.put_window(0, one);
    buffer.put_window(1, other);
    buffer.all_rounds(first, rounds);
    Two {
        first: buffer.output(0),
        second: buffer.output(1),
    }
}
