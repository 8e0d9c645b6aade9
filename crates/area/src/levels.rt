// Whether the levels of an area are sound: every bit that is neither held nor of a sequential output is zero.
ghost use Rattle.std.specs.Prelude.{◌≡◌, ◌-◌, ◌≤◌, length, get_or};
ghost use Rattle.tree.specs.Tree.{sequential_bits, output_words};
ghost use Rattle.calls.specs.Area.{Long, phase_of, params_of, levels_up, levels_of, sound_levels};
ghost use Rattle.calls.proofs.SoundParts.{all_empty};
ghost use Rattle.area.specs.Phase.{phase_word};
ghost use Rattle.area.specs.LevelTests.{sound_sequential, sound_above, sound_open};

use super::empty::empty_from;
use super::{Area, Phase, count};
use node::Block;

// The bits of an output.
const OUTPUT: usize = Block::OUTPUT_BITS as usize;

// Whether a sequential level is sound, with so many compressions done and so many bits held.
fn sequential_sound(part: &[u64], done: u64, held: usize) -> bool
    requires { (output_words ≤ length part.now) × (held ≤ sequential_bits) }
    ensures { result ≡ sound_sequential done held part.now }
{
    if done == 0 && !empty_from(&part[..Area::OUTPUT], 0) {
        return false;
    }
    empty_from(part, OUTPUT + held)
}

// An area that has all its words, and the phase that its word 0 says.
#[derive(Clone, Copy)]
pub struct Whole<'a> {
    pub words: &'a [u64],
    pub phase: Phase,
    pub ghost long: { Long words.now },
    pub ghost phased: { phase_word phase ≡ phase_of words.now },
}

impl<'a> Whole<'a> {
    // Whether the levels hold nothing.
    fn levels_empty(&self) -> bool
        ensures { result ≡ all_empty (levels_of self.now.words.now) }
    {
        let area = self.words;
        let e = Area::words(area[Area::LIMIT]);
        empty_from(&area[Area::HEAD..e], 0)
    }

    // Whether the levels above level 1 are sound, when so many outputs came to level 2, of an area in which level 1 is parallel. The
    // sequential level, if the area has it, is its last.
    fn above_sound(&self, outputs: u64) -> bool
        requires { 1 ≤ (params_of self.now.words.now).limit }
        ensures { result ≡ sound_above ((params_of self.now.words.now).limit - 1) outputs (levels_up self.now.words.now 2) }
    {
        let area = self.words;
        let limit = area[Area::LIMIT];
        let mut i = outputs;
        for k in 2..Area::LEVELS + 1 {
            let part = Area::level(area, k);
            if limit < k as u64 {
                return sequential_sound(part, i / 3, OUTPUT * ((i % 3) as usize));
            }
            if !empty_from(part, OUTPUT * ((i % 4) as usize)) {
                return false;
            }
            i /= 4;
        }
        true
    }

    // Whether the levels of an open area are sound.
    fn open_sound(&self) -> bool
        ensures { result ≡ sound_open (get_or self.now.words.now 4 0) (get_or self.now.words.now 1 0) (levels_of self.now.words.now) }
    {
        let area = self.words;
        let total = area[Area::TOTAL];
        let first = &area[Area::HEAD..Area::FIRST_END];
        if area[Area::LIMIT] < 1 {
            let done = count::done_blocks(Block::SEQUENTIAL_BITS, total);
            let held = count::held_bits(Block::SEQUENTIAL_BITS, total);
            return sequential_sound(first, done, held as usize);
        }
        let held = count::held_bits(Block::BITS, total);
        empty_from(first, held as usize) && self.above_sound(count::done_blocks(Block::BITS, total))
    }

    // Whether the levels are sound.
    pub fn levels_sound(&self) -> bool
        ensures { result ≡ sound_levels self.now.words.now }
    {
        match self.phase {
            Phase::Open => self.open_sound(),
            Phase::Ended => self.levels_empty(),
        }
    }
}
