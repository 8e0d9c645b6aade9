// The bytes of the message, fed to the stream a read at a time, and the end of the stream.
ghost use Rattle.std.specs.Prelude.{◌≡◌, ◌≤◌, ◌<◌, length};
ghost use Rattle.refusals.specs.Refusals.{refusal_number};
ghost use Rattle.program.specs.Printed.{refused_number};
ghost use Rattle.program.specs.Steps.{buffer_bytes, fed_step, ended_step};
ghost use Rattle.program.specs.Taken.{text_bytes, put_of, took_of, took_last_of};
ghost use Rattle.program.specs.declared.Program.TheVariants.{Refused as IsRefused};

use super::{DIGEST, LOG, Program, Taken, put};
use area::Area;
use refusals::Refusal;

// Puts a refusal by its number, after which nothing more comes.
pub fn refuse(refusal: Refusal, out: &mut [u8]) -> Taken
    requires { text_bytes ≤ length out.old }
    ensures { (result.program ≡ IsRefused)
        × (record { count = result.count; out = out.new } ≡ put_of (refused_number (refusal_number refusal)) out.old) }
{
    Taken {
        program: Program::Refused,
        count: put::refused_number(out, refusal.number()),
    }
}

// Feeds bytes of the message, and puts the lines of the nodes that are made.
pub fn feed(bytes: &[u8], area: &mut [u64], out: &mut [u8]) -> Taken
    requires { (length bytes.now ≤ buffer_bytes) × (text_bytes ≤ length out.old) }
    ensures { record { program = result.program; count = result.count; area = area.new; out = out.new }
        ≡ took_of (fed_step area.old bytes.now) out.old }
{
    let mut log = [0u64; LOG];
    match stream::feed(area, bytes, 0, 8 * bytes.len() as u64, &mut log) {
        Ok(nodes) => Taken {
            program: Program::Message,
            count: put::nodes(out, &log[..2 * nodes as usize]),
        },
        Err(refusal) => refuse(refusal, out),
    }
}

// Ends the stream, and puts the lines of the last nodes and of the digest.
pub fn end(area: &mut [u64; Area::WORDS], out: &mut [u8]) -> usize
    requires { text_bytes ≤ length out.old }
    ensures { record { count = result; area = area.new; out = out.new }
        ≡ took_last_of (ended_step area.old) out.old }
{
    let mut log = [0u64; LOG];
    let mut digest = [0u8; DIGEST];
    let d = area[Area::D];
    match stream::end(area, &mut digest, &mut log) {
        Ok(nodes) => {
            let n = node::digest::digest_bytes(d) as usize;
            put::last(out, &log[..2 * nodes as usize], &digest[..n])
        }
        Err(refusal) => put::refused_number(out, refusal.number()),
    }
}
