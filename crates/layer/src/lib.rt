// A layer: a level of the tree in work. How many nodes it has, where each stands, and what each takes.
#![tactic(auto)]

ghost use Rattle.std.specs.Prelude.{◌≡◌, suc, ◌+◌, ◌-◌, ◌*◌, ◌≤◌, ◌<◌, eqb, length, replicate};
ghost use Rattle.bits.specs.Bits.{numbers};
ghost use Rattle.tree.specs.Tree.{most_levels, block_bits};
ghost use Rattle.layer.specs.OneLayer.{size_of, nodes_in, flag_of, place_of, taken_at, Counted, Source};

use bits::Span;
use node::{Block, Place};

pub mod outputs; // outputs.rt: the outputs of its nodes, in lent words
pub mod log; // log.rt: U and V of each of them

// A layer: the number of its level, which bits it works on, and how many of them each of its nodes takes: the bits of a block, or of
// one at the sequential level. At level 1 they are bits of the message; above it they stand in words, from the first on, and only their
// number counts. The size is a number and no kind of level, since `nodes` and `fill` take layers of other sizes, too.
#[derive(Clone, Copy)]
pub struct Layer {
    pub level: u64,
    pub span: Span,
    pub size: u64,
}

impl Layer {
    // The layer above so many levels, which works on these bits.
    pub fn above(limit: u64, levels: u64, span: Span) -> Self
        requires { levels < most_levels }
        ensures { result ≡ record { level = suc levels; span = span; size = size_of limit (suc levels) } }
    {
        let level = levels + 1;
        let size = size_of(limit, level);
        Self { level, span, size }
    }

    // Whether its level is parallel: its nodes take whole blocks.
    fn is_parallel(self) -> bool
        ensures { result ≡ eqb self.size block_bits }
    {
        self.size == Block::BITS
    }
}

// The bits that each node of a level takes. A feed knows level 1 alone, and `piece` has this for it in the terms of its own definitions: one
// function for both would be as long as either.
fn size_of(limit: u64, level: u64) -> u64
    ensures { result ≡ size_of limit level }
{
    if limit < level {
        return Block::SEQUENTIAL_BITS;
    }
    Block::BITS
}

// z of the node at an index: 1 at the root. At a parallel level that is a node without others, so that z goes by their number alone; at
// the sequential level it is the last node.
fn flag(layer: Layer, nodes: u64, index: u64) -> u64
    requires { index < nodes }
    ensures { result ≡ flag_of layer.size nodes index }
{
    if layer.is_parallel() {
        return shape::last_flag(0, nodes);
    }
    shape::last_flag(index, nodes)
}

// How many nodes a layer has.
pub fn nodes(layer: Layer) -> u64
    requires { 0 < layer.size }
    ensures { result ≡ nodes_in layer }
{
    shape::blocks_of(layer.size, layer.span.bits)
}

// Where the node at an index stands.
pub fn place(layer: Layer, index: u64) -> Place
    requires { Counted layer × (index < nodes_in layer) }
    ensures { result ≡ place_of layer index }
{
    let z = flag(layer, nodes(layer), index);
    let p = layer.size - shape::taken(layer.size, layer.span.bits, index);
    Place {
        level: layer.level,
        index,
        z,
        p,
    }
}

// Fills a part of a block, of zero words, with what the node at an index takes: message bits at level 1, and above it the
// outputs of its children, which stand in the words.
pub fn fill(part: &mut [u64], message: &[u8], words: &[u64], layer: Layer, index: u64)
    requires source { Source message.now words.now layer × (layer.size * index ≤ layer.span.bits) }
    requires part { (part.old ≡ replicate (length part.old) 0) × (64 * length part.old ≡ layer.size) }
    ensures { part.new
        ≡ numbers 64 (length part.old) (taken_at message.now words.now layer index) }
{
    let from = layer.size * index;
    let n = shape::taken(layer.size, layer.span.bits, index);
    if layer.level == 1 {
        let byte = (from / 8) as usize;
        let start = layer.span.start as usize;
        bits::fill(part, 0, message, byte, start, n as usize);
        return;
    }
    let first = (from / 64) as usize;
    let count = (n / 64) as usize;
    part[..count].copy_from_slice(&words[first..first + count]);
}
