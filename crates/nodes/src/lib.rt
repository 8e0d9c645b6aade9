// The nodes of a message: the value of each, its 16 words, worked out from the nodes one level below.
#![tactic(auto)]

ghost use Rattle.std.specs.Prelude.{◌≡◌, ◌+◌, ◌-◌, ◌*◌, ◌^◌, ◌≤◌, ◌<◌, ◌++◌, length, replicate};
ghost use Rattle.tree.specs.Tree.{words};
ghost use Rattle.bits.specs.PieceLaws.{spanned, span_bits, Fits};
ghost use Rattle.tree.proofs.Count.{level_nodes};
ghost use Rattle.node.specs.Words.{node_words, tree_params};
ghost use Rattle.shape.specs.Shape.{block_padding, sequential_nodes};
ghost use Rattle.nodes.specs.Value.{message_part, child_words, value, level_values};
ghost use Rattle.nodes.specs.Value.{sequential_words, chained, last_chained, root_value};

use bits::Span;
use compress::Two;
use node::{Block, Compressor, Place};

// What makes the values of a message's nodes: the message, which of its bits, and what its nodes are compressed with.
#[derive(Clone, Copy)]
struct Maker<'a> {
    message: &'a [u8],
    span: Span,
    with: &'a Compressor<'a>,
    ghost fits: { Fits (spanned message.now span) },
    ghost counted: { span.bits < 2 ^ 64 },
}

impl<'a> Maker<'a> {
    ghost use Rattle.nodes.specs.Making.{maker_params, maker_limit, maker_bits};

    // The message bits of the node at an index that has room for N words of them, and zero bits after them: with N = 64 the block of a
    // leaf, and with N = 48 and L = 0 what a sequential node takes behind the output of the node before it.
    fn message_words<const N: usize>(&self, index: u64) -> [u64; N]
        requires { (N ≤ 64) × (64 * N * index ≤ self.now.span.bits) }
        ensures { result ≡ words N (message_part (64 * N) (maker_bits self.now) index) }
    {
        let room = 64 * N as u64;
        let n = shape::taken(room, self.span.bits, index);
        let mut words = [0u64; N];
        let byte = (room / 8 * index) as usize;
        let start = self.span.start as usize;
        bits::fill(&mut words, 0, self.message, byte, start, n as usize);
        words
    }

    // Where the node at a parallel level and an index stands, and its padding bits; z is 1 at the root.
    fn place(&self, level: u64, index: u64, z: u64) -> Place
        requires { (0 < level) × (index < level_nodes self.now.span.bits level) }
        ensures place { result ≡ record { level = level; index = index; z = z; p = block_padding self.now.span.bits level index } }
        ensures fits { (index < 2 ^ 56) × (result.p < 65536) }
    {
        let p = shape::padding(self.span.bits, level, index);
        Place { level, index, z, p }
    }

    // The value of the node at a parallel level and an index, from its block; z is 1 at the root.
    fn one_value(&self, level: u64, index: u64, z: u64, block: &[u64; 64]) -> [u64; 16]
        requires { (0 < level) × (level < 256) × (index < level_nodes self.now.span.bits level) × (z < 16) }
        ensures { result ≡ node_words (maker_params self.now) level index z (block_padding self.now.span.bits level index) block.now }
    {
        let place = self.place(level, index, z);
        self.with.compress_node(place, block)
    }

    // The values of the leaves at an index and at the next, made together; neither is the root.
    fn two_leaves(&self, index: u64) -> Two
        requires { index + 1 < level_nodes self.now.span.bits 1 }
        ensures first { result.first ≡ value (maker_params self.now) (maker_bits self.now) 1 index 0 }
        ensures second { result.second ≡ value (maker_params self.now) (maker_bits self.now) 1 (index + 1) 0 }
    {
        let here = self.place(1, index, 0);
        let next = index + 1;
        let there = self.place(1, next, 0);
        let one = self.message_words::<64>(index);
        let other = self.message_words::<64>(next);
        self.with.compress_two(here, &one, there, &other)
    }

    // The value of one leaf, which is not the root. A function of its own, so that its compression's buffers do not stand on the stack under
    // those of two leaves.
    #[inline(never)]
    fn one_leaf(&self, index: u64) -> [u64; 16]
        requires { index < level_nodes self.now.span.bits 1 }
        ensures { result ≡ value (maker_params self.now) (maker_bits self.now) 1 index 0 }
    {
        let block = self.message_words::<64>(index);
        self.one_value(1, index, 0, &block)
    }

    // The values of up to four leaves, from an index on, two at a time, the last alone if their number is odd; zero words after them.
    // They are the children of one node, so that none is the root. The caller lends the words, which hold nothing: given back, they would
    // stand on its stack once more, and so once a level.
    fn leaves(&self, index: u64, n: u64, out: &mut [u64])
        requires n_bound { (n ≤ 4) × (index + n ≤ level_nodes self.now.span.bits 1) }
        requires empty { out.old ≡ replicate 64 0 }
        ensures { out.new ≡ child_words (level_values (maker_params self.now) (maker_bits self.now) 1) 4 index n }
    {
        for pair in 0..n / 2 {
            let j = 2 * pair;
            let two = self.two_leaves(index + j);
            let at = (Block::OUTPUT_WORDS * j) as usize;
            words::copy(&mut *out, at, &two.first);
            words::copy(&mut *out, at + Block::OUTPUT_WORDS as usize, &two.second);
        }
        if n % 2 == 1 {
            let j = n - 1;
            let last = self.one_leaf(index + j);
            let at = (Block::OUTPUT_WORDS * j) as usize;
            words::copy(&mut *out, at, &last);
        }
    }

    // The values of up to four nodes of a parallel level, from an index on, and zero words after them. They are the children of one node,
    // so that none is the root. Each is worked out from the values of its own children, one level below: the level falls at each call.
    // That the call is of this very function keeps the compiler from putting a compression's buffers on the stack once a level.
    fn values(&self, level: u64, index: u64, n: u64) -> [u64; 64]
        requires { (0 < level) × (level < 256) × (n ≤ 4) × (index + n ≤ level_nodes self.now.span.bits level) }
        ensures { result ≡ child_words (level_values (maker_params self.now) (maker_bits self.now) level) 4 index n }
    {
        let mut words = [0u64; 64];
        if level == 1 {
            self.leaves(index, n, &mut words);
            return words;
        }
        let below = shape::nodes_at(self.span.bits, level - 1);
        for j in 0..n {
            let i = index + j;
            let children = shape::taken(4, below, i);
            let block = self.values(level - 1, 4 * i, children);
            let one = self.one_value(level, i, 0, &block);
            let at = (Block::OUTPUT_WORDS * j) as usize;
            words::copy(&mut words, at, &one);
        }
        words
    }

    // The value of the root where it stands at a parallel level, the one node there: at level 1 from the message, above it from the values
    // of its children, one level below.
    #[inline(never)]
    fn top_value(&self, level: u64) -> [u64; 16]
        requires { (0 < level) × (level < 256) }
        ensures { result ≡ value (maker_params self.now) (maker_bits self.now) level 0 1 }
    {
        if level == 1 {
            let block = self.message_words::<64>(0);
            return self.one_value(1, 0, 1, &block);
        }
        let n = shape::taken(4, shape::nodes_at(self.span.bits, level - 1), 0);
        let block = self.values(level - 1, 0, n);
        self.one_value(level, 0, 1, &block)
    }

    // The 48 words that the sequential node at an index takes beside the chain: with L = 0 of the message, and otherwise the values of its
    // children, one level below, which are three at most, while `values` has room for four.
    fn sequential_words(&self, index: u64) -> [u64; 48]
        requires { index < sequential_nodes (maker_limit self.now) self.now.span.bits }
        ensures { result ≡ sequential_words (maker_params self.now) (maker_limit self.now) (maker_bits self.now) index }
    {
        let limit = self.with.keyed.params.limit;
        if limit == 0 {
            return self.message_words::<48>(index);
        }
        let n = shape::taken(3, shape::nodes_at(self.span.bits, limit), index);
        let children = self.values(limit, 3 * index, n);
        let mut rest = [0u64; 48];
        rest.copy_from_slice(&children[..48]);
        rest
    }

    // The block of the sequential node at an index: the chain, and then its own words. A function of its own, so that these do not stand on
    // the stack under a compression's buffers.
    #[inline(never)]
    fn sequential_block(&self, index: u64, before: &[u64]) -> [u64; 64]
        requires { (index < sequential_nodes (maker_limit self.now) self.now.span.bits) × (length before.now ≡ 16) }
        ensures { result ≡ before.now ++ sequential_words (maker_params self.now) (maker_limit self.now) (maker_bits self.now) index }
    {
        let rest = self.sequential_words(index);
        node::chained_block(before, &rest)
    }

    // The value of the sequential node at an index: the chain, and then its own words.
    fn sequential_value(&self, index: u64, z: u64, before: &[u64]) -> [u64; 16]
        requires { (index < sequential_nodes (maker_limit self.now) self.now.span.bits) × (z < 16) × (length before.now ≡ 16) }
        ensures { result ≡ chained (maker_params self.now) (maker_limit self.now) (maker_bits self.now) index z before.now }
    {
        let limit = self.with.keyed.params.limit;
        let p = shape::sequential_padding(limit, self.span.bits, index);
        let block = self.sequential_block(index, before);
        let level = limit + 1;
        self.with
            .compress_node(Place { level, index, z, p }, &block)
    }

    // The value of the sequential level's last node, along the chain.
    #[inline(never)]
    fn sequential(&self) -> [u64; 16]
        ensures { result ≡ last_chained (maker_params self.now) (maker_limit self.now) (maker_bits self.now) }
    {
        let nodes = shape::sequential_nodes(self.with.keyed.params.limit, self.span.bits);
        let mut last = [0u64; 16];
        for i in 0..nodes {
            let z = shape::last_flag(i, nodes);
            last = self.sequential_value(i, z, &last);
        }
        last
    }
}

// The root's value.
pub fn root(message: &[u8], span: Span, with: &Compressor) -> [u64; 16]
    requires { Fits (spanned message.now span) }
    ensures { result ≡ root_value (tree_params with.now.keyed) with.now.keyed.params.limit (span_bits message.now span) }
{
    let maker = Maker {
        message,
        span,
        with,
    };
    let limit = with.keyed.params.limit;
    let top = shape::top_level(limit, span.bits);
    if limit < top {
        return maker.sequential();
    }
    maker.top_value(top)
}
