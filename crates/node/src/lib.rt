// One node, and what the whole-message call, the stream and the call by layers share: blocks, K and the digest.
#![tactic(auto)]

ghost use Rattle.std.specs.Prelude.{◌≡◌, ◌∷◌, [], ◌++◌, ◌+◌, ◌≤◌, ◌<◌, ◌^◌, length, replicate};
ghost use Rattle.std.proofs.lemmas.List.Edits.{sets};
ghost use Rattle.compress.specs.Compress.{window_of};
ghost use Rattle.refusals.specs.RefusalLaws.{InRange};
ghost use Rattle.tree.specs.Tree.{node_u, node_v, out_words};
ghost use Rattle.node.specs.Words.{sized, placed, FieldsFit, tree_params, Ready};

use compress::{Two, WINDOW};
use refusals::Params;

pub mod digest; // digest.rt: K from the key, and the digest from the root

// Where a node stands in its tree, z, which is 1 at the root and 0 elsewhere, and the padding bits in its block. z is a number and no bool:
// `compress_node` promises its words for each z that V has room for (`FieldsFit`).
#[derive(Clone, Copy)]
pub struct Place {
    pub level: u64,
    pub index: u64,
    pub z: u64,
    pub p: u64,
}

// The parameters of a tree with its key: K, the words of the key, beside the parameters, which say how many bytes it has.
#[derive(Clone, Copy)]
pub struct Keyed {
    pub k: [u64; 8],
    pub params: Params,
}

// A block: 64 words.
#[derive(Clone, Copy)]
pub struct Block {
    pub words: [u64; 64],
}

impl Block {
    // The bits of a block.
    pub const BITS: u64 = 4096;

    // The bits of a block at the sequential level that are not chained.
    pub const SEQUENTIAL_BITS: u64 = 3072;

    // The bytes of a block, and those that are not chained.
    pub const BYTES: u64 = Block::BITS / 8;

    pub const SEQUENTIAL_BYTES: u64 = Block::SEQUENTIAL_BITS / 8;

    // The bits of the output that a block is compressed to, and its words.
    pub const OUTPUT_BITS: u64 = 1024;

    pub const OUTPUT_WORDS: u64 = Block::OUTPUT_BITS / 64;

    // A block that holds nothing.
    pub fn new() -> Self
        ensures { result.words ≡ replicate 64 0 }
    {
        Self { words: [0u64; 64] }
    }
}

// U: the level above the index.
pub fn node_u(level: u64, index: u64) -> u64
    requires { (level < 256) × (index < 2 ^ 56) }
    ensures { result ≡ node_u level index }
{
    level * 0x100000000000000 + index
}

// V: from high to low r, L, z, p, the key's bytes and d.
pub fn node_v(params: Params, z: u64, p: u64) -> u64
    requires { (params.keylen < 256) × (params.d < 4096) × (params.limit < 256) × (params.rounds < 4096) × (z < 16) × (p < 65536) }
    ensures { result ≡ node_v (sized params) z p }
{
    let high = (params.rounds * 256 + params.limit) * 16 + z;
    ((high * 65536 + p) * 256 + params.keylen) * 4096 + params.d
}

// Writes U and V of a node to the log, from a place on. Word by word: an array of the two, copied to a part of the log, is no plainer.
pub fn log_node(params: Params, place: Place, log: &mut [u64], at: usize)
    requires in_range { InRange params.keylen params.d params.limit params.rounds }
    requires level_bound { (place.level < 256) × (place.index < 2 ^ 56) × (place.z < 16) × (place.p < 65536) × (at + 2 ≤ length log.old) }
    ensures { log.new
        ≡ sets log.old at (node_u place.level place.index ∷ node_v (sized params) place.z place.p ∷ []) }
{
    log[at] = node_u(place.level, place.index);
    log[at + 1] = node_v(params, place.z, place.p);
}

// The block of a node at the sequential level: the output of the node before it, and then its own words.
pub fn chained_block(chain: &[u64], rest: &[u64]) -> [u64; 64]
    requires { (length chain.now ≡ 16) × (length rest.now ≡ 48) }
    ensures { result ≡ chain.now ++ rest.now }
{
    let mut block = [0u64; 64];
    let chained = Block::OUTPUT_WORDS as usize;
    block[..chained].copy_from_slice(chain);
    block[chained..].copy_from_slice(rest);
    block
}

// What the nodes of a tree are compressed with: K and the parameters, and the round constants of the first rounds, which stand in the
// caller. It is lent to each function that makes nodes, since by value it would be copied at each call.
#[derive(Clone, Copy)]
pub struct Compressor<'a> {
    pub keyed: Keyed,
    constants: &'a [u64],
    pub ghost ready: { Ready keyed constants.now },
}

impl<'a> Compressor<'a> {
    pub fn new(keyed: Keyed, constants: &'a [u64]) -> Self
        requires { Ready keyed constants.now }
        ensures { result.keyed ≡ keyed }
    {
        Self { keyed, constants }
    }

    // Fills the window of the node with this place and block, which holds nothing: Q, K, U, V and the block. The caller lends it, as a
    // window that is given back would be copied. Inlined, so that the window goes straight to the compression's buffer: where it was a
    // call, the whole-message call took half as much stack again for each level.
    #[inline(always)]
    fn fill_window(&self, w: &mut [u64], place: Place, block: &[u64])
        requires { FieldsFit place block.now × (w.old ≡ replicate 89 0) }
        ensures { w.new ≡ window_of self.now.keyed.k (node_u place.level place.index) (node_v (sized self.now.keyed.params) place.z place.p) block.now }
    {
        w[..15].copy_from_slice(&compress::q_words());
        w[15..23].copy_from_slice(&self.keyed.k);
        w[23] = node_u(place.level, place.index);
        w[24] = node_v(self.keyed.params, place.z, place.p);
        w[25..].copy_from_slice(block);
    }

    // The 16 words of the node with this place and block.
    pub fn compress_node(&self, place: Place, block: &[u64]) -> [u64; 16]
        requires { FieldsFit place block.now }
        ensures { result ≡ out_words (tree_params self.now.keyed) (placed (tree_params self.now.keyed) place block.now) }
    {
        let mut w = [0u64; WINDOW];
        self.fill_window(&mut w, place, block);
        compress::compress(&w, self.constants, self.keyed.params.rounds as usize)
    }

    // The words of two nodes of one tree, made together.
    pub fn compress_two(
        &self,
        one: Place,
        one_block: &[u64],
        other: Place,
        other_block: &[u64],
    ) -> Two
        requires { FieldsFit one one_block.now × FieldsFit other other_block.now }
        ensures first { result.first ≡ out_words (tree_params self.now.keyed) (placed (tree_params self.now.keyed) one one_block.now) }
        ensures second { result.second ≡ out_words (tree_params self.now.keyed) (placed (tree_params self.now.keyed) other other_block.now) }
    {
        let mut w = [0u64; WINDOW];
        self.fill_window(&mut w, one, one_block);
        let mut v = [0u64; WINDOW];
        self.fill_window(&mut v, other, other_block);
        compress::compress_two(&w, &v, self.constants, self.keyed.params.rounds as usize)
    }
}
