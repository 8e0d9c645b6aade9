// How an output goes up: it is given to a level, and a level whose block is full then is compressed.
ghost use Rattle.std.specs.Prelude.{◌<◌};
ghost use Rattle.climb.specs.ReceiveLaws.{received, Coming, Climbed};

use super::level;
use area::Area;
use node::Compressor;

// An output comes to the sequential level: it is given to the level, which is compressed if its block is full then. Answers how many
// words of the log were written. It is no turn of `receive` with other numbers: its output stays in front, and none goes up.
fn receive_last(
    area: &mut [u64],
    with: &Compressor,
    level: usize,
    i: u64,
    out: &[u64],
    log: &mut [u64],
) -> usize
    requires coming { Coming with.now.keyed level i out.now area.old log.old 0 }
    requires sequential { with.now.keyed.params.limit < level }
    ensures { Climbed level (received with.now.keyed level i out.now area.old)
        area.old log.old 0 area.new log.new result }
{
    level::join(&mut *area, level, super::output_place(true, i), out);
    if i % 3 != 2 {
        return 0;
    }
    let made = level::make_level(area, with, level, i / 3, log);
    level::chain_level(&mut *area, level, &made);
    2
}

// An output comes to level 2, when so many came before. It is given to the level; a parallel level whose block is full then is
// compressed, and its output goes to the level above. Answers how many words of the log were written.
pub fn receive(
    area: &mut [u64],
    with: &Compressor,
    outputs: u64,
    first: [u64; 16],
    log: &mut [u64],
) -> usize
    requires { Coming with.now.keyed 2 outputs first area.old log.old 0 }
    ensures { Climbed 2 (received with.now.keyed 2 outputs first area.old)
        area.old log.old 0 area.new log.new result }
{
    let mut i = outputs;
    let mut out = first;
    let mut at: usize = 0;
    for k in 2..Area::LEVELS + 1 {
        if with.keyed.params.limit < k as u64 {
            return at + receive_last(area, with, k, i, &out, &mut log[at..]);
        }
        level::join(&mut *area, k, super::output_place(false, i), &out);
        if i % 4 != 3 {
            return at;
        }
        out = level::make_level(area, with, k, i / 4, &mut log[at..]);
        level::clear_level(&mut *area, k);
        at += 2;
        i /= 4;
    }
    at
}
