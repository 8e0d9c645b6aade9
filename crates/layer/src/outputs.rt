// The nodes of a layer, whose outputs are written over those of the level below.
ghost use Rattle.std.specs.Prelude.{◌≡◌, ◌++◌, ◌+◌, ◌*◌, ◌≤◌, ◌<◌, length};
ghost use Rattle.bits.specs.Bits.{numbers};
ghost use Rattle.tree.specs.Tree.{block_bits, sequential_bits};
ghost use Rattle.node.specs.Words.{tree_params};
ghost use Rattle.layer.specs.OneLayer.{nodes_in, taken_at, output_at, put_output, Source, Fitting};
ghost use Rattle.layer.specs.OverLaws.{layer_over};

use super::Layer;
use node::{Block, Compressor};

// Writes the output of the node at an index to its place.
fn put_output(words: &mut [u64], index: u64, output: &[u64; 16])
    requires { 16 * index + 16 ≤ length words.old }
    ensures { words.new ≡ put_output words.old index output.now }
{
    let at = (Block::OUTPUT_WORDS * index) as usize;
    words[at..at + output.len()].copy_from_slice(output);
}

// What makes the nodes of a layer: the message, what they are compressed with, and the layer. The words are lent to each method, which
// asks of them what it needs, since they change from node to node.
#[derive(Clone, Copy)]
struct Maker<'a> {
    message: &'a [u8],
    with: &'a Compressor<'a>,
    layer: Layer,
}

impl<'a> Maker<'a> {
    // Makes the node at an index from its block, writes its output to its place in the words, and gives it back.
    fn one_node(&self, words: &mut [u64], index: u64, block: &[u64; 64]) -> [u64; 16]
        requires { Fitting words.old self.now.layer × (index < nodes_in self.now.layer) }
        ensures output { result ≡ output_at (tree_params self.now.with.now.keyed) self.now.layer index block.now }
        ensures words { words.new ≡ put_output words.old index result }
    {
        let place = super::place(self.layer, index);
        let output = self.with.compress_node(place, block);
        put_output(words, index, &output);
        output
    }

    // Makes the nodes at an index and at the next from their blocks, together, as neither takes what the other gives, and writes
    // their outputs to their places.
    fn two_nodes(&self, words: &mut [u64], index: u64, one: &[u64; 64], other: &[u64; 64])
        requires { Fitting words.old self.now.layer × (index + 1 < nodes_in self.now.layer) }
        ensures { words.new
            ≡ put_output
            (put_output words.old index (output_at (tree_params self.now.with.now.keyed) self.now.layer index one.now))
            (index + 1) (output_at (tree_params self.now.with.now.keyed) self.now.layer (index + 1) other.now) }
    {
        let next = index + 1;
        let here = super::place(self.layer, index);
        let there = super::place(self.layer, next);
        let two = self.with.compress_two(here, one, there, other);
        put_output(words, index, &two.first);
        put_output(words, next, &two.second);
    }

    // The block of a node at the sequential level: the output of the node before it, and what it takes.
    fn chained_block(&self, words: &[u64], index: u64, chain: &[u64; 16]) -> [u64; 64]
        requires source { Source self.now.message.now words.now self.now.layer }
        requires index_bound { (self.now.layer.size * index ≤ self.now.layer.span.bits) × (self.now.layer.size ≡ sequential_bits) }
        ensures { result
            ≡ chain.now
            ++ numbers 64 48 (taken_at self.now.message.now words.now self.now.layer index) }
    {
        let mut rest = [0u64; 48];
        super::fill(&mut rest, self.message, words, self.layer, index);
        node::chained_block(chain, &rest)
    }

    // The nodes of the sequential level, one after the other.
    fn sequential(&self, words: &mut [u64])
        requires size { self.now.layer.size ≡ sequential_bits }
        requires source { Source self.now.message.now words.old self.now.layer × Fitting words.old self.now.layer }
        ensures { words.new ≡ layer_over (tree_params self.now.with.now.keyed) self.now.message.now self.now.layer words.old }
    {
        let mut chain = [0u64; 16];
        for i in 0..super::nodes(self.layer) {
            let block = self.chained_block(words, i, &chain);
            chain = self.one_node(words, i, &block);
        }
    }

    // The nodes of a parallel level, two at a time; the last alone if their number is odd. Their blocks are filled where they stand, as
    // blocks that are given back would be copied; the last has that of the first of two, so that the stack holds no third.
    fn parallel(&self, words: &mut [u64])
        requires size { self.now.layer.size ≡ block_bits }
        requires source { Source self.now.message.now words.old self.now.layer × Fitting words.old self.now.layer }
        ensures { words.new ≡ layer_over (tree_params self.now.with.now.keyed) self.now.message.now self.now.layer words.old }
    {
        let nodes = super::nodes(self.layer);
        let mut one = [0u64; 64];
        for pair in 0..nodes / 2 {
            let i = 2 * pair;
            one = [0u64; 64];
            super::fill(&mut one, self.message, words, self.layer, i);
            let mut other = [0u64; 64];
            super::fill(&mut other, self.message, words, self.layer, i + 1);
            self.two_nodes(words, i, &one, &other);
        }
        if nodes % 2 == 1 {
            let last = nodes - 1;
            one = [0u64; 64];
            super::fill(&mut one, self.message, words, self.layer, last);
            self.one_node(words, last, &one);
        }
    }
}

// The nodes of a layer.
pub fn make(message: &[u8], with: &Compressor, words: &mut [u64], layer: Layer)
    requires { Source message.now words.old layer × Fitting words.old layer }
    ensures { words.new ≡ layer_over (tree_params with.now.keyed) message.now layer words.old }
{
    let maker = Maker {
        message,
        with,
        layer,
    };
    if layer.is_parallel() {
        maker.parallel(words);
    } else {
        maker.sequential(words);
    }
}
