// An area's text into a part of its length.
ghost use Rattle.std.specs.Prelude.{◌≡◌, length};
ghost use Rattle.calls.specs.Area.{Long};
ghost use Rattle.texts.specs.Text.{text_with};
ghost use Rattle.writing.specs.Lines.{lines_from};

use super::form::Form;
use super::{held, lines};

// The lines of the levels that have one, rising. The place is moved on by hand, as in lines.rt.
fn put_levels(part: &mut [u8], area: &[u64])
    requires { Long area.now × (length part.old ≡ length (lines_from area.now 1)) }
    ensures { part.new ≡ lines_from area.now 1 }
{
    let mut at = 0;
    for level in 1..=held::levels(area) {
        if held::has_line(area, level) {
            let end = at + lines::LEVEL;
            lines::put_level(&mut part[at..end], area, level);
            at = end;
        }
    }
}

// The whole text, in a form.
pub fn put_text(part: &mut [u8], area: &[u64], form: Form)
    requires { Long area.now × (length part.old ≡ length (text_with form.width area.now)) }
    ensures { part.new ≡ text_with form.width area.now }
{
    let head = lines::head_bytes(form);
    lines::put_head(&mut part[0..head], area, form);
    put_levels(&mut part[head..], area);
}
