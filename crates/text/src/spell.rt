// The area that a text spells, if no digit is refused, and whether it is the text of that area.
ghost use Rattle.std.specs.Prelude.{◌≡◌, true, false, Some, MatchOption, option_map, ◌++◌, map, ◌≤◌, length, take, drop, replicate};
ghost use Rattle.lists.specs.Part.{put};
ghost use Rattle.lists.specs.Same.{same};
ghost use Rattle.tree.specs.Tree.{most_limit};
ghost use Rattle.calls.specs.Area.{head_words, block_words, area_words, own_levels, own_words, level_start, Long};
ghost use Rattle.digits.specs.Digits.{all_spelt};
ghost use Rattle.texts.specs.Text.{line1_fields, held_of, text_with, level_bytes, head_bytes};
ghost use Rattle.texts.specs.Text.{spelt_head, spelt_levels, spelt_area, readable_with, readable, read_area};
ghost use Rattle.texts.proofs.ReadForms.{form_of};
ghost use Rattle.writing.specs.Lines.{lines_from};
ghost use Rattle.text.specs.Spelling.{zero_levels, level_spelt};

use area::Area;
use writing::form::Form;
use writing::{held, lines, put};

// The form of a text, if it is one that is read: the old one if line 1 ends where it did before M-108, otherwise the new one.
#[tactic(auto, unfolding(texts::proofs::ReadForms::form_of))]
fn form_by_end(text: &[u8]) -> Form
    ensures { result.width ≡ form_of text.now }
{
    match text.get(lines::OLD_LINE1) {
        Some(&lines::END) => Form::OLD,
        _ => Form::NEW,
    }
}

// Words 0 to 15 from the first two lines, into words that are zero; none at the first byte that is no digit.
fn spell_head(head: &mut [u64], text: &[u8], form: Form) -> Option<()>
    requires { (head.old ≡ replicate head_words 0) × (head_bytes form.width ≤ length text.now) }
    ensures { option_map (λ _. head.new) result ≡ spelt_head (line1_fields form.width) text.now }
{
    let mut rest = text;
    for field in form.fields() {
        let (own, after) = rest.split_at(field.digits());
        head[field.word] = digits::number(own)?;
        rest = after;
    }
    let from = lines::line1_bytes(form);
    let to = from + lines::LINE2_DIGITS;
    digits::spell_words(&mut head[Area::KEY..Area::KEY_END], &text[from..to])
}

// A level from its line; none at the first byte of its words that is no digit.
fn spell_level(area: &mut [u64], line: &[u8], level: u64) -> Option<()>
    requires { Long area.old × (length line.now ≡ level_bytes) × (1 ≤ level) × (level ≤ own_levels area.old) }
    ensures { option_map (λ _. area.new) result ≡ option_map (put (level_start level) block_words area.old) (all_spelt (level_spelt line.now)) }
{
    let a = Area::level_start(level as usize);
    let e = a + Area::LEVEL;
    digits::spell_words(
        &mut area[a..e],
        &line[lines::NUMBER_DIGITS..lines::LEVEL_DIGITS],
    )
}

// The levels from their lines, into an area whose levels are empty; none at the first byte of their words that is no digit.
fn spell_levels(area: &mut [u64], text: &[u8]) -> Option<()>
    requires { (length area.old ≡ own_words area.old)
        × (drop head_words area.old ≡ zero_levels (own_levels area.old))
        × (length text.now ≡ length (lines_from area.old 1)) }
    ensures { option_map (λ _. area.new) result
        ≡ all_spelt (map Some (take head_words area.old) ++ spelt_levels (held_of area.old) text.now) }
{
    let mut rest = text;
    for level in 1..=held::levels(area) {
        if held::has_line(area, level) {
            let (line, after) = rest.split_at(lines::LEVEL);
            spell_level(area, line, level)?;
            rest = after;
        }
    }
    Some(())
}

// The area that a text of this form spells, into the first of words that are zero and enough for every L; none if a digit is refused or
// the text is not as long as that area's.
fn spell_area(area: &mut [u64], text: &[u8], form: Form) -> Option<()>
    requires { area.old ≡ replicate (area_words most_limit) 0 }
    ensures { MatchOption result (readable_with form.width text.now ≡ false)
        (λ _. (spelt_area form.width text.now ≡ Some (take (own_words area.new) area.new)) × (length text.now ≡ length (text_with form.width area.new))) }
{
    let level_lines = text.get(lines::head_bytes(form)..)?;
    spell_head(&mut area[..Area::HEAD], text, form)?;
    if text.len() != held::text_bytes(area, form) {
        return None;
    }
    let n = Area::words(area[Area::LIMIT]);
    spell_levels(&mut area[..n], level_lines)
}

// Whether an area's text is the given one, which is as long: it is written again and compared.
fn writes(area: &[u64], text: &[u8], form: Form) -> bool
    requires { Long area.now × (length text.now ≡ length (text_with form.width area.now)) }
    ensures { result ≡ same (text_with form.width area.now) text.now }
{
    let mut again = [0u8; lines::MOST];
    let n = text.len();
    put::put_text(&mut again[..n], area, form);
    words::same_bytes(&again[..n], text)
}

// What a text spells, if it is what writing some sound area gives, or gave before M-108, and otherwise none. The words that are lent are
// zero before, and enough for every L; they begin with that area afterwards; if there is none, what they hold is left open.
pub fn spell_text(area: &mut [u64], text: &[u8]) -> Option<()>
    requires { area.old ≡ replicate (area_words most_limit) 0 }
    ensures { MatchOption result (readable text.now ≡ false)
        (λ _. (readable text.now ≡ true) × (read_area text.now ≡ Some (take (own_words area.new) area.new))) }
{
    let form = form_by_end(text);
    spell_area(area, text, form)?;
    let fits = area::is_sound(area);
    if !writes(area, text, form) {
        return None;
    }
    fits.then_some(())
}
