// The first half of an end, a preview and a close: the last nodes of an open area, which is only read.
#![tactic(auto)]

ghost use Rattle.std.specs.Prelude.{◌≡◌, ◌∷◌, [], ◌+◌, ◌*◌, ◌≤◌, ◌<◌, ◌^◌, length, replicate};
ghost use Rattle.lists.specs.Part.{put};
ghost use Rattle.tree.specs.Tree.{block_bits, last_or, no_node, output_words, out_words, logged};
ghost use Rattle.calls.specs.Area.{Long, params_of, level_words, levels_of, done_blocks, held_bits};
ghost use Rattle.calls.specs.Calls.{last_nodes, last_nodes_of};
ghost use Rattle.node.specs.Words.{tree_params};
ghost use Rattle.climb.specs.Levels.{Joins};
ghost use Rattle.climb.specs.MakeLaws.{Logged};
ghost use Rattle.climb.specs.OpenArea.{OpenArea};
ghost use Rattle.last_nodes.specs.LastLaws.{last_up, first_node, root_flag, last_place, Rising, Ending};

use area::{Area, count};
use node::{Block, Compressor, Place};

// A copy of a level's block with an output given to it, in words that the caller lends: the area itself is not changed. A block that is
// given back by a function of its own would stand on the caller's stack twice.
#[inline(never)]
fn joined_block(
    block: &mut [u64; Area::LEVEL],
    area: &[u64],
    level: usize,
    place: usize,
    out: &[u64],
)
    requires { Joins area.now level place out.now }
    ensures { block.new ≡ put place output_words (level_words area.now level) out.now }
{
    // word by word: a copy of the whole slice is compiled to a call of memmove, which the archive for C does not need elsewhere
    let held = Area::level(area, level);
    for (i, word) in block.iter_mut().enumerate() {
        *word = held[i];
    }
    block[place..place + Area::OUTPUT].copy_from_slice(out);
}

// z of a parallel level's last node, by its index: 1 if it is the level's only node, and so the root. (`shape::last_flag` compares an
// index with how many nodes there are, which is not known here.)
fn root_flag(index: u64) -> u64
    ensures value { result ≡ root_flag index }
    ensures most { result ≤ 1 }
{
    u64::from(index < 1)
}

// The place of a level's last node, when so many outputs came to the level before the last. The sequential level's is the root.
fn last_place(sequential: bool, level: u64, i: u64) -> Place
    ensures { result ≡ last_place sequential level i }
{
    if sequential {
        let index = i / 3;
        let z = 1;
        let p = Block::OUTPUT_BITS * (2 - i % 3);
        Place { level, index, z, p }
    } else {
        let index = i / 4;
        let z = root_flag(index);
        let p = Block::OUTPUT_BITS * (3 - i % 4);
        Place { level, index, z, p }
    }
}

// Makes the nodes above level 1, when so many outputs came to level 2 before this last one. Each is the last of its level, whose block
// need not be full, and takes the output of the one below it, up to the root, whose words are given back. Level 1's node is in the log.
fn above(area: &[u64], with: &Compressor, outputs: u64, out: &mut [u64; 16], log: &mut [u64])
    requires { Rising with.now.keyed outputs out.old area.now log.old }
    ensures { Logged (tree_params with.now.keyed) (last_up with.now.keyed 2 outputs out.old area.now)
        log.old 2 out.new log.new }
{
    let mut i = outputs;
    let mut at: usize = 2;
    for k in 2..Area::LEVELS + 1 {
        let sequential = with.keyed.params.limit < k as u64;
        let mut block = [0u64; Area::LEVEL];
        joined_block(
            &mut block,
            area,
            k,
            climb::output_place(sequential, i),
            &*out,
        );
        let last = last_place(sequential, k as u64, i);
        *out = climb::make_node(with, last, &block, &mut log[at..]);
        if last.z == 1 {
            return;
        }
        at += 2;
        i = last.index;
    }
}

// Makes the last node of level 1, which takes blocks of a size.
fn first_node(
    area: &[u64],
    with: &Compressor,
    size: u64,
    z: u64,
    total: u64,
    log: &mut [u64],
) -> [u64; 16]
    requires { Long area.now × (0 < size) × (size ≤ block_bits) × (held_bits size total ≤ size) × (done_blocks size total < 2 ^ 56)
        × (z ≤ 1) × (2 ≤ length log.old) }
    ensures { Logged (tree_params with.now.keyed) (first_node (tree_params with.now.keyed) size total z area.now ∷ [])
        log.old 0 result log.new }
{
    let level = 1;
    let index = count::done_blocks(size, total);
    let p = size - count::held_bits(size, total);
    let block = &area[Area::HEAD..Area::FIRST_END];
    let last = Place { level, index, z, p };
    climb::make_node(with, last, block, log)
}

// Makes the nodes of all levels, when so many bits came. U and V of each go to the log from its first word, and the root's
// words are given back.
fn levels(area: &[u64], with: &Compressor, total: u64, log: &mut [u64]) -> [u64; 16]
    requires { Ending with.now.keyed total area.now log.old }
    ensures { Logged (tree_params with.now.keyed) (last_nodes (tree_params with.now.keyed) with.now.keyed.params.limit total (levels_of area.now))
        log.old 0 result log.new }
{
    if with.keyed.params.limit < 1 {
        return first_node(area, with, Block::SEQUENTIAL_BITS, 1, total, log);
    }
    let done = count::done_blocks(Block::BITS, total);
    let z = root_flag(done);
    let mut out = first_node(area, with, Block::BITS, z, total, log);
    if done < 1 {
        return out;
    }
    above(area, with, done, &mut out, log);
    out
}

// Makes the last nodes of an open area, which it only reads. U and V of each go to the log from
// its first word, and the root's words are given back.
pub fn make(area: &[u64], log: &mut [u64]) -> [u64; 16]
    requires { OpenArea area.now × (2 * length (last_nodes_of area.now) ≤ length log.old) }
    ensures value { result ≡ out_words (params_of area.now) (last_or no_node (last_nodes_of area.now)) }
    ensures log_after { log.new ≡ logged (last_nodes_of area.now) log.old }
{
    let first = constants::first_part();
    let with = Compressor::new(climb::keyed_of(area), &first);
    levels(area, &with, area[Area::TOTAL], log)
}
