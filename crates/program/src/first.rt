// The first line, and the stream that it opens.
ghost use Rattle.std.specs.Prelude.{◌≡◌, ◌==◌, ◌≤◌, length};
ghost use Rattle.std.specs.List.{position};
ghost use Rattle.line.specs.Fold.{reading_of};
ghost use Rattle.program.specs.Printed.{first_line};
ghost use Rattle.program.specs.Steps.{buffer_bytes, line_step, scanned};
ghost use Rattle.program.specs.Taken.{text_bytes, took_of};

use super::{Program, Taken, message, put};
use line::State;

// The byte that ends the line.
const LINE_END: u8 = 10;

// Where the line ends, if it does.
fn line_end(bytes: &[u8]) -> Option<usize>
    ensures { result ≡ position (λ b. b == 10) bytes.now }
{
    bytes.iter().position(|b| *b == LINE_END)
}

// A line that has ended, and what was read behind it. A d or a key length out of range is left to open, which refuses it.
fn open_line(line: State, rest: &[u8], area: &mut [u64], out: &mut [u8]) -> Taken
    requires { (length rest.now ≤ buffer_bytes) × (text_bytes ≤ length out.old) }
    ensures { record { program = result.program; count = result.count; area = area.new; out = out.new }
        ≡ took_of (line_step (reading_of line) line area.old rest.now) out.old }
{
    let Some(said) = line.reading() else {
        return Taken {
            program: Program::Refused,
            count: put::refused_line(out),
        };
    };
    let key = &line.key.bytes[..said.key_bytes];
    let rounds = said
        .rounds
        .unwrap_or(hash::rounds_by_default(said.d, said.key_bytes as u64));
    match stream::open(area, key, said.d, said.limit, rounds) {
        Ok(_) => message::feed(rest, area, out),
        Err(refusal) => message::refuse(refusal, out),
    }
}

// Bytes of the first line, and what was read behind it.
pub fn take_line(line: State, bytes: &[u8], area: &mut [u64], out: &mut [u8]) -> Taken
    requires { (length bytes.now ≤ buffer_bytes) × (text_bytes ≤ length out.old) }
    ensures { record { program = result.program; count = result.count; area = area.new; out = out.new }
        ≡ took_of (scanned (first_line bytes.now) line area.old bytes.now) out.old }
{
    let Some(end) = line_end(bytes) else {
        return Taken {
            program: Program::Line(line.steps(bytes)),
            count: 0,
        };
    };
    open_line(line.steps(&bytes[..end]), &bytes[end + 1..], area, out)
}
