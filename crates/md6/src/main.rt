// The program of document 01: the first line of standard input says d, L, r and the key, and the rest is the message. What is
// written is what the crate `program` gives for each read and for the end of the input; here is only the reading and writing.
#![tactic(auto)]

use area::Area;
use program::{BUFFER, OUT, Program};
use std::io::Read;

// Reads until the input ends, a read or a write fails, or the input is refused. The turns are counted because a loop has
// to end; no input of fewer than 2^64 - 1 bytes uses them up.
fn main(rt: HostRuntime) {
    let mut input = rt.stdin();
    let mut buf = [0u8; BUFFER];
    let mut area = [0u64; Area::WORDS];
    let mut out = [0u8; OUT];
    let mut program = Program::new();
    for _ in 0..u64::MAX {
        let Ok(n) = input.read(&mut buf) else {
            return;
        };
        if n == 0 {
            let last = program::finish(program, &mut area, &mut out);
            let _ = rt.write_all(&out[..last]);
            return;
        }
        let taken = program::take(program, &buf, n, &mut area, &mut out);
        program = taken.program;
        if rt.write_all(&out[..taken.count]).is_err() {
            return;
        }
        if matches!(program, Program::Refused) {
            return;
        }
    }
}
