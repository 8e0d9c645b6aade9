// The digest of a whole message, layer by layer: every node of a level before any of the next.
#![tactic(auto)]

ghost use Rattle.std.specs.Prelude.{◌≡◌, ◌∷◌, [], ◌*◌, ◌≤◌, length};
ghost use Rattle.bits.specs.PieceLaws.{spanned, span_bits, Fits};
ghost use Rattle.tree.specs.Sizes.{tree_nodes};
ghost use Rattle.node.specs.Words.{tree_params};
ghost use Rattle.refusals.specs.Refusals.{first_refusal, limit_test, told_number, told_count};
ghost use Rattle.hash.specs.Accepted.{with_key};
ghost use Rattle.layers.specs.Layers.{first_nodes, layers_of, layer_words_of, layer_log_words_of};
ghost use Rattle.layers.specs.Accepted.{Room, AllMade};
ghost use Rattle.layers.specs.Accepted.{Accepted, AllPut, number_for};

use bits::Span;
use layer::{Layer, log, outputs};
use node::{Block, Compressor, Keyed, digest};
use refusals::{Params, Refusal};

// The words that a message of so many bits needs: an output for each level-1 node.
fn words_used(limit: u64, bits: u64) -> u64
    ensures { result ≡ 16 * first_nodes limit bits }
{
    Block::OUTPUT_WORDS * layer::nodes(Layer::above(limit, 0, Span { start: 0, bits }))
}

// The words of log that it needs: two for each node of its tree.
fn log_words_used(limit: u64, bits: u64) -> u64
    requires { limit ≤ 64 }
    ensures { result ≡ 2 * tree_nodes limit bits }
{
    2 * shape::tree_nodes(limit, bits)
}

// Tests a height limit alone.
fn check_limit(limit: u64) -> Result<(), Refusal>
    ensures { told_number result ≡ first_refusal (limit_test limit ∷ []) }
{
    if Params::MOST_LIMIT < limit {
        return Err(Refusal::Limit);
    }
    Ok(())
}

// Tells the words for a message of so many bits and a height limit.
pub fn layer_words(bits: u64, limit: u64) -> Result<u64, Refusal>
    ensures { record { number = told_number result; count = told_count result } ≡ layer_words_of bits limit }
{
    check_limit(limit)?;
    Ok(words_used(limit, bits))
}

// Tells the words of log for them.
pub fn layer_log_words(bits: u64, limit: u64) -> Result<u64, Refusal>
    ensures { record { number = told_number result; count = told_count result } ≡ layer_log_words_of bits limit }
{
    check_limit(limit)?;
    Ok(log_words_used(limit, bits))
}

// Tests what the call is given: as the whole-message call, and then for fewer words lent than used, and fewer log words.
fn check(
    message: &[u8],
    span: Span,
    params: Params,
    words: &[u64],
    log: &[u64],
    digest: &[u8],
) -> Result<(), Refusal>
    ensures { told_number result
        ≡ number_for (spanned message.now span) params words.now log.now digest.now }
{
    hash::check(message, span, params, digest)?;
    let used = words_used(params.limit, span.bits);
    let log_used = log_words_used(params.limit, span.bits);
    let few = (words.len() as u64) < used;
    let short = (log.len() as u64) < log_used;
    refusals::first_of_two(few, Refusal::Area, short, Refusal::Log)
}

// Makes the nodes, level by level: their outputs in the words, U and V in the log. Answers how many nodes the last level has.
fn put_levels(
    message: &[u8],
    span: Span,
    with: &Compressor,
    words: &mut [u64],
    log: &mut [u64],
) -> u64
    requires fits { Fits (spanned message.now span) }
    requires room { Room (tree_params with.now.keyed) (span_bits message.now span) words.old log.old }
    ensures { AllMade (tree_params with.now.keyed) (span_bits message.now span)
        words.old log.old words.new log.new result }
{
    let params = with.keyed.params;
    let limit = params.limit;
    let top = shape::top_level(limit, span.bits);
    let mut bits = span.bits;
    let mut nodes: u64 = 0;
    let mut at: usize = 0;
    for levels in 0..top {
        let layer = Layer::above(
            limit,
            levels,
            Span {
                start: span.start,
                bits,
            },
        );
        outputs::make(message, with, words, layer);
        at = log::put_layer(log, at, params, layer);
        nodes = layer::nodes(layer);
        bits = Block::OUTPUT_BITS * nodes;
    }
    nodes
}

// Writes words, log and digest of a message. The root's output stands at its index, the last of its level. The three are lent one by
// one, as to `layers` itself: a struct of them would be made there, and taken apart here and in `check`.
fn put_layers(
    message: &[u8],
    span: Span,
    key: &[u8],
    params: Params,
    words: &mut [u64],
    log: &mut [u64],
    out: &mut [u8],
)
    requires { Accepted (spanned message.now span) (with_key key.now params) words.old log.old out.old
        × (params.keylen ≡ length key.now) }
    ensures { AllPut (with_key key.now params) (span_bits message.now span)
        words.old log.old out.old words.new log.new out.new }
{
    let k = digest::key_words(key);
    let first = constants::first_part();
    let with = Compressor::new(Keyed { k, params }, &first);
    let nodes = put_levels(message, span, &with, words, log);
    let root = (Block::OUTPUT_WORDS * (nodes - 1)) as usize;
    let end = root + Block::OUTPUT_WORDS as usize;
    digest::write_digest(&words[root..end], params.d, out);
}

// The digest of a whole message, layer by layer, in lent words: 16 for each level-1 node. They end with, for each index, the output of
// the highest node there; U and V of each node go to the log, level by level and index by index.
pub fn layers(
    message: &[u8],
    start: u64,
    bits: u64,
    key: &[u8],
    d: u64,
    limit: u64,
    rounds: u64,
    words: &mut [u64],
    log: &mut [u64],
    digest: &mut [u8],
) -> Result<u64, Refusal>
    ensures { record { number = told_number result; count = told_count result; words = words.new; log = log.new; digest = digest.new }
        ≡ layers_of (record { bytes = message.now; start = start; count = bits })
        (record { key = key.entry.now; d = d; limit = limit; rounds = rounds })
        words.old log.old digest.old }
{
    let span = Span { start, bits };
    let params = Params::new(key.len() as u64, d, limit, rounds);
    check(message, span, params, words, log, digest)?;
    put_layers(message, span, key, params, words, log, digest);
    Ok(shape::tree_nodes(limit, bits))
}
