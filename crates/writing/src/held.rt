// Which levels of an area have a line, and the bytes that a text then has.
ghost use Rattle.std.specs.Prelude.{◌≡◌, ◌≤◌, length};
ghost use Rattle.calls.specs.Area.{head_words, own_levels, Long};
ghost use Rattle.texts.specs.Text.{text_with};
ghost use Rattle.writing.specs.Lines.{has_line_at};

use super::form::Form;
use super::lines;
use area::{Area, Phase, count};
use node::Block;

// The levels of an area.
pub fn levels(area: &[u64]) -> u64
    requires { head_words ≤ length area.now }
    ensures { result ≡ own_levels area.now }
{
    Area::levels(area[Area::LIMIT]) as u64
}

// Whether a level of an area holds bits or has a sequential output. The sequential level, if the area has it, is its last.
pub fn has_line(area: &[u64], level: u64) -> bool
    requires { (head_words ≤ length area.now) × (1 ≤ level) × (level ≤ own_levels area.now) }
    ensures { result ≡ has_line_at area.now level }
{
    if area[Area::PHASE] == u64::from(Phase::Ended) {
        return false;
    }
    let limit = area[Area::LIMIT];
    let total = area[Area::TOTAL];
    if level == 1 {
        return total != 0;
    }
    let outputs = count::done_blocks(Block::BITS, total) >> (2 * (level - 2));
    if limit < level {
        return outputs != 0;
    }
    outputs % 4 != 0
}

// The bytes of an area's text, in a form.
pub fn text_bytes(area: &[u64], form: Form) -> usize
    requires { Long area.now }
    ensures { result ≡ length (text_with form.width area.now) }
{
    let mut n = lines::head_bytes(form);
    for level in 1..=levels(area) {
        if has_line(area, level) {
            n += lines::LEVEL;
        }
    }
    n
}
