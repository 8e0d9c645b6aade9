// The shape of a tree, which goes by the height limit and the number of bits alone: how many levels and nodes it has, and what a node
// has by its place: how much it takes, its padding bits, and z.
#![tactic(auto)]

ghost use Rattle.std.specs.Prelude.{◌≡◌, suc, ◌+◌, ◌-◌, ◌*◌, ◌≤◌, ◌<◌, eqb};
ghost use Rattle.bits.specs.Bits.{digit};
ghost use Rattle.tree.specs.Tree.{blocks, most_limit};
ghost use Rattle.tree.specs.Sizes.{tree_nodes};
ghost use Rattle.tree.proofs.Count.{level_nodes};
ghost use Rattle.shape.specs.Shape.{taken, block_padding, sequential_nodes, sequential_padding, top_level};

use node::Block;
use refusals::Params;

// How many blocks of a size m things fill: at least one.
pub fn blocks_of(size: u64, m: u64) -> u64
    requires { 0 < size }
    ensures { result ≡ blocks size m }
{
    m.saturating_sub(1) / size + 1 // one division: with `div_ceil` the nodes of the longest message took a third longer to count
}

// How many of m things the node at an index takes, of so many that it has room for.
pub fn taken(size: u64, m: u64, index: u64) -> u64
    requires { size * index ≤ m }
    ensures { result ≡ taken size m index }
{
    size.min(m - size * index)
}

// The nodes of a tree, level by level.
pub fn tree_nodes(limit: u64, bits: u64) -> u64
    requires { limit ≤ most_limit }
    ensures { result ≡ tree_nodes limit bits }
{
    if limit == 0 {
        return blocks_of(Block::SEQUENTIAL_BITS, bits);
    }
    let mut sum: u64 = 0;
    let mut nodes = blocks_of(Block::BITS, bits);
    for level in 1..limit {
        if nodes == 1 {
            return sum + 1;
        }
        sum += nodes;
        nodes = blocks_of(4, nodes);
    }
    if nodes == 1 {
        return sum + 1;
    }
    sum + nodes + blocks_of(3, nodes)
}

// The nodes of a parallel level, for a message of so many bits.
pub fn nodes_at(bits: u64, level: u64) -> u64
    requires { 0 < level }
    ensures { result ≡ level_nodes bits level }
{
    let mut nodes = blocks_of(Block::BITS, bits);
    for at in 1..level {
        nodes = blocks_of(4, nodes);
    }
    nodes
}

// The nodes of the sequential level above so many parallel ones.
pub fn sequential_nodes(limit: u64, bits: u64) -> u64
    ensures { result ≡ sequential_nodes limit bits }
{
    if limit == 0 {
        return blocks_of(Block::SEQUENTIAL_BITS, bits);
    }
    blocks_of(3, nodes_at(bits, limit))
}

// The root's level: the first of one node, or the sequential one above the limit. No tree has more levels than 27.
pub fn top_level(limit: u64, bits: u64) -> u64
    requires { limit ≤ most_limit }
    ensures { (result ≡ top_level limit bits) × (result ≤ Params.LEVELS) }
{
    let mut nodes = blocks_of(Block::BITS, bits);
    for level in 1..=limit {
        if nodes == 1 {
            return level;
        }
        nodes = blocks_of(4, nodes);
    }
    limit + 1
}

// The padding bits in the block of the node at a parallel level and an index.
pub fn padding(bits: u64, level: u64, index: u64) -> u64
    requires { (0 < level) × (index < level_nodes bits level) }
    ensures { (result ≡ block_padding bits level index) × (result < 65536) }
{
    if level == 1 {
        return Block::BITS - taken(Block::BITS, bits, index);
    }
    Block::OUTPUT_BITS * (4 - taken(4, nodes_at(bits, level - 1), index))
}

// The padding bits of the sequential node at an index: the chained words count for nothing.
pub fn sequential_padding(limit: u64, bits: u64, index: u64) -> u64
    requires { index < sequential_nodes limit bits }
    ensures { (result ≡ sequential_padding limit bits index) × (result < 65536) }
{
    if limit == 0 {
        return Block::SEQUENTIAL_BITS - taken(Block::SEQUENTIAL_BITS, bits, index);
    }
    Block::OUTPUT_BITS * (3 - taken(3, nodes_at(bits, limit), index))
}

// 1 at the last index of so many nodes, and 0 at any other: z at the sequential level.
pub fn last_flag(index: u64, nodes: u64) -> u64
    requires { index < nodes }
    ensures { (result ≡ digit (eqb (suc index) nodes)) × (result ≤ 1) }
{
    u64::from(index + 1 == nodes)
}
