// Whether an area is sound: first the words before the levels, then the levels (levels.rt). Bits that must be zero are tested by
// joining their words by `|` (empty.rt), so that the loop is quick.
#![tactic(auto)]

ghost use Rattle.std.specs.Prelude.{◌≡◌, ◌&&◌, ◌+◌, ◌*◌, ◌≤◌, ltb, length, get_or};
ghost use Rattle.tree.specs.Tree.{most_key_bytes, most_limit, most_levels};
ghost use Rattle.refusals.specs.Refusals.{first_refusal, told_number};
ghost use Rattle.calls.specs.Area.{area_levels, area_words, own_levels, own_words, level_start};
ghost use Rattle.calls.specs.Area.{count_for, sound_key, sound_count, sound_last, sound, Long};
ghost use Rattle.calls.specs.Calls.{area_tests};
ghost use Rattle.area.specs.SoundLaws.{LevelPart};
ghost use Rattle.area.specs.Phase.{phase_word, ReadsPhase};

use levels::Whole;
use node::Block;
use refusals::{Params, Refusal};

pub mod count; // count.rt: how many blocks are compressed, and how many nodes were made
mod empty; // empty.rt: whether no bit of words is set
mod levels; // levels.rt: whether the levels are sound

// The phase of a stream. Word 0 of its area has it, by these numbers.
#[derive(Clone, Copy, PartialEq, Eq)]
pub enum Phase {
    Open = 1,
    Ended = 2,
}

// A word that is no phase.
#[derive(Clone, Copy, PartialEq, Eq)]
pub struct NoPhase(pub u64);

impl TryFrom<u64> for Phase {
    type Error = NoPhase;

    ghost try_from_gives = { ReadsPhase };

    fn try_from(word: u64) -> Result<Self, NoPhase> {
        match word {
            1 => Ok(Phase::Open),
            2 => Ok(Phase::Ended),
            _ => Err(NoPhase(word)),
        }
    }
}

impl From<Phase> for u64 {
    ghost from_gives = { λ phase word. word ≡ phase_word phase };

    fn from(phase: Phase) -> u64 {
        phase as u64
    }
}

// The area of a stream: words that the caller lends. The field is how many the longest has.
#[derive(Clone, Copy)]
pub struct Area {
    pub words: usize,
}

impl Area {
    // The words before the levels, by their places: the phase, the total bits, the key's bytes, d, L, r, K, the compressions done, and 0.
    // C lends an area as words, so these are places in it, and no fields.
    pub const PHASE: usize = 0;

    pub const TOTAL: usize = 1;

    pub const KEY_BYTES: usize = 2;

    pub const D: usize = 3;

    pub const LIMIT: usize = 4;

    pub const ROUNDS: usize = 5;

    pub const KEY: usize = 6;

    pub const KEY_END: usize = 14;

    pub const DONE: usize = 14;

    pub const LAST: usize = 15;

    // The words before the levels.
    pub const HEAD: usize = 16;

    // The words of a level.
    pub const LEVEL: usize = 64;

    // The words of an output.
    pub const OUTPUT: usize = Block::OUTPUT_WORDS as usize;

    // The first word past level 1.
    pub const FIRST_END: usize = Area::HEAD + Area::LEVEL;

    // The levels of the longest area, and its words.
    pub const LEVELS: usize = Params::LEVELS as usize;

    pub const WORDS: usize = Area::HEAD + Area::LEVEL * Area::LEVELS;

    // The longest area.
    pub fn new() -> Self
        ensures { result.words ≡ area_words most_limit }
    {
        Self { words: Area::WORDS }
    }

    // The levels of an area, by the height limit: L + 1, and at most those of the longest. The lesser comes first, as L + 1 may pass 2^64.
    pub fn levels(limit: u64) -> usize
        ensures { result ≡ area_levels limit }
    {
        limit.min(Params::LEVELS - 1) as usize + 1
    }

    // The words of an area, by the height limit.
    pub fn words(limit: u64) -> usize
        ensures { result ≡ area_words limit }
    {
        Area::HEAD + Area::LEVEL * Area::levels(limit)
    }

    // The parameters that an area has. It is lent as words, with a clause that all are there: those above write to the same words.
    pub fn params(area: &[u64]) -> Params
        requires { Long area.now }
        ensures { result
            ≡ record {
              keylen = get_or area.now 2 0;
              d = get_or area.now 3 0;
              limit = get_or area.now 4 0;
              rounds = get_or area.now 5 0;
            } }
    {
        Params::new(
            area[Area::KEY_BYTES],
            area[Area::D],
            area[Area::LIMIT],
            area[Area::ROUNDS],
        )
    }

    // The first word of a level's own part of an area.
    pub fn level_start(level: usize) -> usize
        requires { (1 ≤ level) × (level ≤ most_levels) }
        ensures { result ≡ level_start level }
    {
        Area::HEAD + Area::LEVEL * (level - 1)
    }

    // A level's own part of an area.
    pub fn level(area: &[u64], level: usize) -> &[u64]
        requires { Long area.now × (1 ≤ level) × (level ≤ own_levels area.now) }
        ensures level_part { LevelPart area.now level result.now }
        ensures place { (result.ref_ptr.0 ≡ area.entry.ref_ptr.0) × (result.ref_ptr.1 ≡ level_start level * 8 + area.entry.ref_ptr.1) }
    {
        let a = Area::level_start(level);
        let e = a + Area::LEVEL;
        &area[a..e]
    }
}

// Whether an area is short: it has no word 4, or fewer words than the height limit there asks.
fn is_short(area: &[u64]) -> bool
    ensures { result ≡ ltb (length area.now) (own_words area.now) }
{
    area.len() <= Area::LIMIT || area.len() < Area::words(area[Area::LIMIT])
}

// The compressions that a phase, a height limit and a total give.
fn count_for(phase: Phase, limit: u64, total: u64) -> u64
    requires { limit ≤ most_limit }
    ensures { result ≡ count_for (phase_word phase) limit total }
{
    match phase {
        Phase::Open => count::open_count(limit, total),
        Phase::Ended => shape::tree_nodes(limit, total),
    }
}

// Whether unused key bytes are zero, word 14 is right and word 15 is 0.
fn rest_sound(whole: &Whole) -> bool
    requires { (get_or whole.now.words.now 2 0 ≤ most_key_bytes) × (get_or whole.now.words.now 4 0 ≤ most_limit) }
    ensures { result
        ≡ (sound_key whole.now.words.now && (sound_count whole.now.words.now && sound_last whole.now.words.now)) }
{
    let area = whole.words;
    let unused = 8 * area[Area::KEY_BYTES] as usize;
    if !empty::empty_from(&area[Area::KEY..Area::KEY_END], unused) {
        return false;
    }
    let count = count_for(whole.phase, area[Area::LIMIT], area[Area::TOTAL]);
    area[Area::DONE] == count && area[Area::LAST] == 0
}

// Whether an area that is long enough is sound.
pub fn is_sound(area: &[u64]) -> bool
    requires { Long area.now }
    ensures { result ≡ sound area.now }
{
    let Ok(phase) = Phase::try_from(area[Area::PHASE]) else {
        return false;
    };
    if refusals::check_params(Area::params(area)).is_err() {
        return false;
    }
    let whole = Whole { words: area, phase };
    rest_sound(&whole) && whole.levels_sound()
}

// Refuses an area that is short or unsound.
pub fn check_sound(area: &[u64]) -> Result<(), Refusal>
    ensures { told_number result ≡ first_refusal (area_tests area.now) }
{
    if is_short(area) {
        return Err(Refusal::Area); // short
    }
    if !is_sound(area) {
        return Err(Refusal::Area); // unsound
    }
    Ok(())
}
