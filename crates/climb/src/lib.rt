// How a node is made in an area, and how its output goes up through the levels. Area and log are lent side by side: of a struct with
// both, each contract would have to say that it still holds the same two.
#![tactic(auto)]

ghost use Rattle.std.specs.Prelude.{◌≡◌, ◌∷◌, [], ◌+◌, ◌≤◌, length};
ghost use Rattle.calls.specs.Area.{Long, levels_of};
ghost use Rattle.node.specs.Words.{FieldsFit, placed, tree_params};
ghost use Rattle.climb.specs.Levels.{output_place};
ghost use Rattle.climb.specs.OpenArea.{keyed_of};
ghost use Rattle.climb.specs.MakeLaws.{Logged};
ghost use Rattle.climb.specs.PassLaws.{passed_words, Passing};
ghost use Rattle.climb.specs.Left.{Left};
ghost use Rattle.climb.specs.FlushLaws.{flushed, Flushing, flushed_two, FlushingTwo};

use area::{Area, count};
use node::{Block, Compressor, Keyed, Place};

mod level; // level.rt: a level's own part of an area
mod rise; // rise.rt: how an output goes up

// K, copied, and the parameters of an area.
pub fn keyed_of(area: &[u64]) -> Keyed
    requires { Long area.now }
    ensures { result ≡ keyed_of area.now }
{
    let mut k = [0u64; 8];
    k.copy_from_slice(&area[Area::KEY..Area::KEY_END]);
    let params = Area::params(area);
    Keyed { k, params }
}

// Where an output goes in the block of a level, when so many came to the level before it. A sequential one has the chained output
// in front.
pub fn output_place(sequential: bool, i: u64) -> usize
    ensures { result ≡ output_place sequential i }
{
    if sequential {
        Area::OUTPUT + Area::OUTPUT * ((i % 3) as usize)
    } else {
        Area::OUTPUT * ((i % 4) as usize)
    }
}

// Makes a node: U and V go to the log from its first word on, and its 16 words are given back.
pub fn make_node(with: &Compressor, place: Place, block: &[u64], log: &mut [u64]) -> [u64; 16]
    requires { FieldsFit place block.now × (2 ≤ length log.old) }
    ensures { Logged (tree_params with.now.keyed) (placed (tree_params with.now.keyed) place block.now ∷ [])
        log.old 0 result log.new }
{
    node::log_node(with.keyed.params, place, log, 0);
    with.compress_node(place, block)
}

// The place of a node whose block is full, when a later bit has come: it has no padding bits, and it is not the root.
fn full_place(level: u64, index: u64) -> Place
    ensures { result ≡ record { level = level; index = index; z = 0; p = 0 } }
{
    Place {
        level,
        index,
        z: 0,
        p: 0,
    }
}

// Passes on the output of a node of level 1, and answers how many words of the log were written: U and V go to the log, level 1 is
// cleared, and the output goes to the level above.
fn pass_on(
    area: &mut [u64],
    with: &Compressor,
    index: u64,
    out: [u64; 16],
    log: &mut [u64],
) -> usize
    requires { Passing with.now.keyed index out area.old log.old 0 }
    ensures passed { Left (passed_words with.now.keyed index out area.old)
        area.old log.old 0 area.new log.new result }
    ensures fits { result ≤ length log.old }
{
    node::log_node(with.keyed.params, full_place(1, index), log, 0);
    level::clear_level(&mut *area, 1);
    2 + rise::receive(area, with, index, out, &mut log[2..])
}

// Makes the node of level 1, which is full, and answers how many words of the log were written. The node's output goes to the level above; a
// sequential level 1 keeps it.
pub fn flush(area: &mut [u64], with: &Compressor, total: u64, log: &mut [u64]) -> usize
    requires { Flushing with.now.keyed total area.old log.old 0 }
    ensures { Left (flushed (tree_params with.now.keyed) with.now.keyed.params.limit total (levels_of area.old))
        area.old log.old 0 area.new log.new result }
{
    if with.keyed.params.limit < 1 {
        let done = count::done_blocks(Block::SEQUENTIAL_BITS, total);
        let last = level::make_level(area, with, 1, done, log);
        level::chain_level(&mut *area, 1, &last);
        return 2;
    }
    let done = count::done_blocks(Block::BITS, total);
    let made = with.compress_node(full_place(1, done), Area::level(area, 1));
    pass_on(area, with, done, made, log)
}

// Makes two nodes of a parallel level 1, leaves, at once: of a full block that it held before, and of the next, which it holds and which
// is full, too. Answers how many words of the log were written. What the first makes above it goes to the log before the second.
// It is no case of `flush`, whose node may be sequential: both go through the compression together.
pub fn flush_two(
    area: &mut [u64],
    with: &Compressor,
    total: u64,
    held: &[u64],
    log: &mut [u64],
) -> usize
    requires { FlushingTwo with.now.keyed total held.now area.old log.old 0 }
    ensures { Left (flushed_two (tree_params with.now.keyed) with.now.keyed.params.limit total held.now (levels_of area.old))
        area.old log.old 0 area.new log.new result }
{
    let done = count::done_blocks(Block::BITS, total);
    let two = with.compress_two(
        full_place(1, done),
        held,
        full_place(1, done + 1),
        Area::level(area, 1),
    );
    let first = two.first;
    let second = two.second;
    let after = pass_on(area, with, done, first, log);
    after + pass_on(area, with, done + 1, second, &mut log[after..])
}
