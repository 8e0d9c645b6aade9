// A level's own part of an area: its block made into a node, an output given to it, and the part cleared.
ghost use Rattle.std.specs.Prelude.{◌≡◌, ◌∷◌, [], ◌++◌, ◌-◌, ◌≤◌, ◌<◌, ◌^◌, length, replicate};
ghost use Rattle.lists.specs.Part.{put};
ghost use Rattle.tree.specs.Tree.{node, output_words};
ghost use Rattle.calls.specs.Area.{block_words, level_words, empty_level};
ghost use Rattle.node.specs.Words.{tree_params};
ghost use Rattle.climb.specs.Levels.{with_level, HasLevel, Joins};
ghost use Rattle.climb.specs.MakeLaws.{Logged};

use super::make_node;
use area::Area;
use node::Compressor;

// Makes the node of a level's block, which is full.
pub fn make_level(
    area: &[u64],
    with: &Compressor,
    level: usize,
    index: u64,
    log: &mut [u64],
) -> [u64; 16]
    requires { HasLevel area.now level × (index < 2 ^ 56) × (2 ≤ length log.old) }
    ensures { Logged (tree_params with.now.keyed) (node (tree_params with.now.keyed) level index 0 0 (level_words area.now level) ∷ [])
        log.old 0 result log.new }
{
    let part = Area::level(area, level);
    let place = super::full_place(level as u64, index);
    make_node(with, place, part, log)
}

// Gives an output to a level, at a place of the level's own part of the area.
pub fn join(area: &mut [u64], level: usize, place: usize, out: &[u64])
    requires { Joins area.old level place out.now }
    ensures { area.new
        ≡ with_level area.old level (put place output_words (level_words area.old level) out.now) }
{
    let a = Area::level_start(level);
    let part = &mut area[a..a + Area::LEVEL];
    part[place..place + Area::OUTPUT].copy_from_slice(out);
}

// Clears a level.
pub fn clear_level(area: &mut [u64], level: usize)
    requires { HasLevel area.old level }
    ensures { area.new ≡ with_level area.old level empty_level }
{
    let a = Area::level_start(level);
    area[a..a + Area::LEVEL].fill(0);
}

// Clears a sequential level and keeps its last output in front.
pub fn chain_level(area: &mut [u64], level: usize, out: &[u64])
    requires { HasLevel area.old level × (length out.now ≡ output_words) }
    ensures { area.new
        ≡ with_level area.old level (out.now ++ replicate (block_words - output_words) 0) }
{
    clear_level(&mut *area, level);
    join(&mut *area, level, 0, out);
}
