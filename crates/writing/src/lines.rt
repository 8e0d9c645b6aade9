// The lines of a text, each into a part of its length.
ghost use Rattle.std.specs.Prelude.{◌≡◌, ◌++◌, ◌≤◌, length};
ghost use Rattle.calls.specs.Area.{head_words, own_levels, level_words, Long};
ghost use Rattle.texts.specs.Text.{line1_fields, line1, line2, level_line, line1_bytes, level_bytes, head_bytes};

use super::form::Form;
use area::Area;
use refusals::Params;

// The byte that ends a line.
pub const END: u8 = 10;

// The digits of each line: of line 1, those of its fields but r; of line 2, 128; of a level's number; and of that and the level's
// words, 1,026.
const OTHER_DIGITS: usize = 42;

const WORD_DIGITS: usize = 16;

pub const LINE2_DIGITS: usize = WORD_DIGITS * (Area::KEY_END - Area::KEY);

pub const NUMBER_DIGITS: usize = 2;

pub const LEVEL_DIGITS: usize = NUMBER_DIGITS + WORD_DIGITS * Area::LEVEL;

// The bytes of line 2 and of a level's line, with their ends; of the longest text; and, before its end, of an old line 1.
const LINE2: usize = LINE2_DIGITS + 1;

pub const LEVEL: usize = LEVEL_DIGITS + 1;

pub const MOST: usize = OTHER_DIGITS
    + 2 * Form::NEW_WIDTH
    + 1
    + LINE2
    + Params::LEVELS as usize * LEVEL;

pub const OLD_LINE1: usize = OTHER_DIGITS + 2 * Form::OLD_WIDTH;

// The bytes of line 1 with its end.
pub fn line1_bytes(form: Form) -> usize
    ensures { result ≡ line1_bytes (line1_fields form.width) }
{
    OTHER_DIGITS + 2 * form.width + 1
}

// The bytes of the first two lines with their ends.
pub fn head_bytes(form: Form) -> usize
    ensures { result ≡ head_bytes form.width }
{
    line1_bytes(form) + LINE2
}

// Phase, r, L, key bytes, d, total and compressions. The place is moved on by hand: what `split_at_mut` leaves would have to be taken out of
// its variable at each turn.
fn put_line1(part: &mut [u8], area: &[u64], form: Form)
    requires { (length part.old ≡ line1_bytes (line1_fields form.width)) × (head_words ≤ length area.now) }
    ensures { part.new ≡ line1 (line1_fields form.width) area.now }
{
    let mut at = 0;
    for field in form.fields() {
        let end = at + field.digits();
        digits::put_digits(&mut part[at..end], area[field.word]);
        at = end;
    }
    part[at] = END;
}

// The first two lines: the fields, and the key.
pub fn put_head(part: &mut [u8], area: &[u64], form: Form)
    requires { (length part.old ≡ head_bytes form.width) × (head_words ≤ length area.now) }
    ensures { part.new ≡ line1 (line1_fields form.width) area.now ++ line2 area.now }
{
    let a = line1_bytes(form);
    let e = a + LINE2_DIGITS;
    put_line1(&mut part[0..a], area, form);
    digits::put_words(&mut part[a..e], &area[Area::KEY..Area::KEY_END]);
    part[e] = END;
}

// A level's number and its words.
pub fn put_level(part: &mut [u8], area: &[u64], level: u64)
    requires { (length part.old ≡ level_bytes) × Long area.now × (1 ≤ level) × (level ≤ own_levels area.now) }
    ensures { part.new ≡ level_line level (level_words area.now level) }
{
    let words = Area::level(area, level as usize);
    digits::put_digits(&mut part[0..NUMBER_DIGITS], level);
    digits::put_words(&mut part[NUMBER_DIGITS..LEVEL_DIGITS], words);
    part[LEVEL_DIGITS] = END;
}
