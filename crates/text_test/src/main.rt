// Reads texts into areas and writes the areas as text, from Rattle: a line is what read answered, whether the area is as before, and
// whether the words past those of its height limit are; then what write answered, and its output, which held a5 in every byte
// before. All other rows are run from C, by tests/text/rows.c. tests/text/expected.py --rattle makes the expected lines.
#![tactic(auto)]

ghost use Rattle.std.specs.Prelude.{◌≤◌};

use std::io;

// What an area holds before a call that does not need it.
const JUNK: u64 = 0xa5a5a5a5a5a5a5a5;

// Reads a text into an area of junk, and writes from there. With L = 0 an area has 80 words.
fn pass(rt: &impl Print, text: &[u8], area: &mut [u64], out: &mut [u8]) -> io::Result<()> {
    let before = [JUNK; 82];
    test_print::answer(rt, text::read(&mut *area, text))?;
    test_print::same(rt, &*area, &before, 0)?;
    test_print::same(rt, &*area, &before, 80)?;
    print!(rt; " ")?;
    test_print::answer(rt, text::write(&*area, &mut *out))?;
    print!(rt; " ")?;
    test_print::bytes(rt, &*out)?;
    println!(rt; "")
}

// The same with so many words and so many bytes of output.
fn pass_in(rt: &impl Print, text: &[u8], words: usize, room: usize) -> io::Result<()>
    requires { (words ≤ 82) × (room ≤ 178) }
{
    let mut area = [JUNK; 82];
    let mut out = [0xa5u8; 178];
    pass(rt, text, &mut area[..words], &mut out[..room])
}

// The text of a stream of no bits with L = 0, under the key "key" and d = 8, as it is written now and as it was before M-108: into
// more words and bytes than are needed, into just enough, and into one fewer. Then a text of no stream.
fn main(rt: HostRuntime) -> io::Result<()> {
    let text =
        b"0100000003000800000000000000000000000000000000\n6b657900000000000000000000000000000000000000000000000000000000000000000000000000000000000000000000000000000000000000000000000000\n";
    let old =
        b"01000003000800000000000000000000000000000000\n6b657900000000000000000000000000000000000000000000000000000000000000000000000000000000000000000000000000000000000000000000000000\n";
    pass_in(&rt, text, 82, 178)?;
    pass_in(&rt, old, 82, 178)?;
    pass_in(&rt, text, 80, 176)?;
    pass_in(&rt, text, 80, 175)?;
    pass_in(&rt, text, 79, 178)?;
    pass_in(&rt, old, 79, 178)?;
    pass_in(&rt, b"0", 82, 178)
}
