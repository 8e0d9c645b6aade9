// A suspended stream as text. Document 01, "Suspended text"; M-108: line 1 holds r in two bytes, and old lines, which have one, are
// still read; M-109: how many words an area has goes by its L, which a text tells too.
#![tactic(auto)]

ghost use Rattle.std.specs.Prelude.{◌≡◌};
ghost use Rattle.refusals.specs.Refusals.{told_number, told_count};
ghost use Rattle.texts.specs.Text.{write_of, read_of};

use area::Area;
use refusals::Refusal;
use writing::form::Form;
use writing::{held, put};

mod spell; // spell.rt: the area that a text spells

// Writes the text of an area, in the new form.
pub fn write(area: &[u64], text: &mut [u8]) -> Result<u64, Refusal>
    ensures { record { number = told_number result; count = told_count result; text = text.new }
        ≡ write_of area.now text.old }
{
    area::check_sound(area)?;
    let bytes = held::text_bytes(area, Form::NEW);
    if text.len() < bytes {
        return Err(Refusal::Output);
    }
    put::put_text(&mut text[..bytes], area, Form::NEW);
    Ok(bytes as u64)
}

// Reads a text into an area, whatever it held. Nothing is stored before the text is known to be one that a sound area writes, or wrote
// before M-108, and the area to be long enough for it, which goes by the text's L. What a text that is not read spells is left open, and so
// is whether the area is short for it: 11 comes first. Words past those that L gives stay.
pub fn read(area: &mut [u64], text: &[u8]) -> Result<u64, Refusal>
    ensures { record { number = told_number result; count = told_count result; area = area.new }
        ≡ read_of area.old text.now }
{
    let mut spelt = [0u64; Area::WORDS];
    spell::spell_text(&mut spelt, text).ok_or(Refusal::Text)?;
    let n = Area::words(spelt[Area::LIMIT]);
    if area.len() < n {
        return Err(Refusal::Area);
    }
    area[..n].copy_from_slice(&spelt[..n]);
    Ok(0)
}
