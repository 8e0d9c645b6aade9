// The program of document 01 but for reading and writing: a state, a call that takes the bytes of a read and gives the bytes
// to write, and one for the end of the input. However the input is cut into reads, the bytes to write, joined, are `printed`
// of the input (specs/Printed; the theorem is in specs/Whole). Memory does not grow with the input.
#![tactic(auto)]

ghost use Rattle.std.specs.Prelude.{◌≡◌, ◌≤◌, length, take};
ghost use Rattle.program.specs.Steps.{buffer_bytes, start_of, take_of, last_of};
ghost use Rattle.program.specs.Taken.{text_bytes, took_of, took_last_of};

use area::Area;
use line::State;
use node::Block;
use refusals::Params;

mod put; // put.rt: what is printed, put into a text
mod message; // message.rt: the bytes of the message, and its end
mod first; // first.rt: the first line, and the stream that it opens

// The bytes that one read gives at most.
pub const BUFFER: usize = 65536;

// The words of the log, 566: enough for a feed of a full buffer, whatever the stream's area holds. An end needs no more than 54.
const LOG: usize = 4 * (8 * BUFFER / Block::BITS as usize) + 2 * Params::LEVELS as usize;

// The bytes of the longest digest, of 512 bits.
const DIGEST: usize = 64;

// The bytes of the longest text, 9,751: a line for two words of a full log, and the line of a digest, two digits a byte.
pub const OUT: usize = print::NODE_LINE * (LOG / 2) + 2 * DIGEST + 1;

// What is kept between two reads beside the stream's area, by where the program has come to: it reads the first line, of which
// this has come so far; the rest is the message; or it has refused the input and prints nothing more.
#[derive(Clone, Copy)]
pub enum Program {
    Line(State),
    Message,
    Refused,
}

// What a read gives: the state for the next one, and how many bytes are to be written.
#[derive(Clone, Copy)]
pub struct Taken {
    pub program: Program,
    pub count: usize,
}

impl Program {
    // Where the program begins.
    pub fn new() -> Program
        ensures { result ≡ start_of }
    {
        Program::Line(State::new())
    }
}

// Takes the bytes that were read, whatever the program has come to.
#[tactic(auto, unfolding(crate::specs::Steps::take_of, crate::specs::Taken::took_of, crate::specs::Taken::put_of))]
fn take_bytes(program: Program, bytes: &[u8], area: &mut [u64], out: &mut [u8]) -> Taken
    requires { (length bytes.now ≤ buffer_bytes) × (text_bytes ≤ length out.old) }
    ensures { record { program = result.program; count = result.count; area = area.new; out = out.new }
        ≡ took_of (take_of program area.old bytes.now) out.old }
{
    match program {
        Program::Line(line) => first::take_line(line, bytes, area, out),
        Program::Message => message::feed(bytes, area, out),
        Program::Refused => Taken { program, count: 0 },
    }
}

// Takes the first n bytes of a buffer, those of a read, and puts the bytes to write at the front of out. The buffer's type bounds
// them: of a slice a clause would have to ask that eight times its length fits 64 bits.
pub fn take(
    program: Program,
    buf: &[u8; BUFFER],
    n: usize,
    area: &mut [u64; Area::WORDS],
    out: &mut [u8; OUT],
) -> Taken
    ensures { record { program = result.program; count = result.count; area = area.new; out = out.new }
        ≡ took_of (take_of program area.old (take n buf.now)) out.old }
{
    take_bytes(program, &buf[..n.min(BUFFER)], area, out)
}

// Ends the input, puts the last bytes to write at the front of out, and answers how many they are.
#[tactic(auto, unfolding(crate::specs::Steps::last_of, crate::specs::Taken::took_last_of, crate::specs::Taken::put_of))]
pub fn finish(program: Program, area: &mut [u64; Area::WORDS], out: &mut [u8; OUT]) -> usize
    ensures { record { count = result; area = area.new; out = out.new }
        ≡ took_last_of (last_of program area.old) out.old }
{
    match program {
        Program::Line(_) => put::refused_line(out),
        Program::Message => message::end(area, out),
        Program::Refused => 0,
    }
}
