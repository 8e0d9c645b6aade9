// The face for a host program in C (include/md6.h).
#![tactic(auto)]

ghost use Rattle.std.specs.Prelude.{◌≡◌};
ghost use Rattle.hash.specs.Hash.{Hashed, hash_of, default_rounds_of};
ghost use Rattle.layers.specs.Layers.{layers_of, layer_words_of, layer_log_words_of};
ghost use Rattle.calls.specs.Calls.{area_words_of, open_of, feed_of, end_of, preview_of, close_of, log_words_of};
ghost use Rattle.texts.specs.Text.{write_of, read_of};

use refusals::Answer;

// The digest of a whole message, from its start bit on. Answers the number alone.
#[unsafe(no_mangle)]
pub extern "C" fn md6_hash(
    message: &[u8],
    start: u64,
    bits: u64,
    key: &[u8],
    d: u64,
    limit: u64,
    rounds: u64,
    digest: &mut [u8],
) -> u64
    ensures { (let h : Hashed = hash_of (record { bytes = message.now; start = start; count = bits })
        (record { key = key.entry.now; d = d; limit = limit; rounds = rounds })
        digest.old in
        (result ≡ h.number) × (digest.new ≡ h.digest)) }
{
    Answer::from(hash::hash(message, start, bits, key, d, limit, rounds, digest)).number
}

// The digest of a whole message, from its start bit on, layer by layer in lent words, with a log of its nodes.
#[unsafe(no_mangle)]
pub extern "C" fn md6_layers(
    message: &[u8],
    start: u64,
    bits: u64,
    key: &[u8],
    d: u64,
    limit: u64,
    rounds: u64,
    words: &mut [u64],
    log: &mut [u64],
    digest: &mut [u8],
) -> refusals::Answer
    ensures { record {
      number = result.number;
      count = result.count;
      words = words.new;
      log = log.new;
      digest = digest.new;
    }
        ≡ layers_of (record { bytes = message.now; start = start; count = bits })
        (record { key = key.entry.now; d = d; limit = limit; rounds = rounds })
        words.old log.old digest.old }
{
    Answer::from(layers::layers(
        message, start, bits, key, d, limit, rounds, words, log, digest,
    ))
}

// Tells how many words md6_layers needs for so many bits and a height limit.
#[unsafe(no_mangle)]
pub extern "C" fn md6_layer_words(bits: u64, limit: u64) -> refusals::Answer
    ensures { record { number = result.number; count = result.count } ≡ layer_words_of bits limit }
{
    Answer::from(layers::layer_words(bits, limit))
}

// Tells how many words of log it needs for them.
#[unsafe(no_mangle)]
pub extern "C" fn md6_layer_log_words(bits: u64, limit: u64) -> refusals::Answer
    ensures { record { number = result.number; count = result.count } ≡ layer_log_words_of bits limit }
{
    Answer::from(layers::layer_log_words(bits, limit))
}

// Tells the default rounds for a digest size and a key length.
#[unsafe(no_mangle)]
pub extern "C" fn md6_default_rounds(d: u64, key_bytes: u64) -> refusals::Answer
    ensures { record { number = result.number; count = result.count } ≡ default_rounds_of d key_bytes }
{
    Answer::from(hash::default_rounds(d, key_bytes))
}

// Tells how many words an area has for a height limit.
#[unsafe(no_mangle)]
pub extern "C" fn md6_area_words(limit: u64) -> refusals::Answer
    ensures { record { number = result.number; count = result.count } ≡ area_words_of limit }
{
    Answer::from(stream::area_words(limit))
}

// Opens a stream in an area.
#[unsafe(no_mangle)]
pub extern "C" fn md6_open(
    area: &mut [u64],
    key: &[u8],
    d: u64,
    limit: u64,
    rounds: u64,
) -> refusals::Answer
    ensures { record { number = result.number; count = result.count; area = area.new }
        ≡ open_of area.old (record { key = key.entry.now; d = d; limit = limit; rounds = rounds }) }
{
    Answer::from(stream::open(area, key, d, limit, rounds))
}

// Feeds the bits of a piece, from its start bit on.
#[unsafe(no_mangle)]
pub extern "C" fn md6_feed(
    area: &mut [u64],
    piece: &[u8],
    start: u64,
    bits: u64,
    log: &mut [u64],
) -> refusals::Answer
    ensures { record { number = result.number; count = result.count; area = area.new; log = log.new }
        ≡ feed_of area.old (record { bytes = piece.now; start = start; count = bits }) log.old }
{
    Answer::from(stream::feed(area, piece, start, bits, log))
}

// Ends a stream.
#[unsafe(no_mangle)]
pub extern "C" fn md6_end(area: &mut [u64], digest: &mut [u8], log: &mut [u64]) -> refusals::Answer
    ensures { record {
      number = result.number;
      count = result.count;
      area = area.new;
      digest = digest.new;
      log = log.new;
    }
        ≡ end_of area.old digest.old log.old }
{
    Answer::from(stream::end(area, digest, log))
}

// Writes the digest that an end would, and leaves the stream open as it is.
#[unsafe(no_mangle)]
pub extern "C" fn md6_preview(area: &[u64], digest: &mut [u8]) -> refusals::Answer
    ensures { record { number = result.number; count = result.count; digest = digest.new }
        ≡ preview_of area.now digest.old }
{
    Answer::from(stream::preview(area, digest))
}

// Ends a stream if the given digest is the one that a preview would write.
#[unsafe(no_mangle)]
pub extern "C" fn md6_close(area: &mut [u64], digest: &[u8], log: &mut [u64]) -> refusals::Answer
    ensures { record { number = result.number; count = result.count; area = area.new; log = log.new }
        ≡ close_of area.old digest.now log.old }
{
    Answer::from(stream::close(area, digest, log))
}

// Tells how many words of log a feed of so many bits needs.
#[unsafe(no_mangle)]
pub extern "C" fn md6_log_words(area: &[u64], bits: u64) -> refusals::Answer
    ensures { record { number = result.number; count = result.count } ≡ log_words_of area.now bits }
{
    Answer::from(stream::log_words(area, bits))
}

// Writes a stream as text.
#[unsafe(no_mangle)]
pub extern "C" fn md6_write(area: &[u64], text: &mut [u8]) -> refusals::Answer
    ensures { record { number = result.number; count = result.count; text = text.new }
        ≡ write_of area.now text.old }
{
    Answer::from(text::write(area, text))
}

// Reads a text into an area.
#[unsafe(no_mangle)]
pub extern "C" fn md6_read(area: &mut [u64], text: &[u8]) -> refusals::Answer
    ensures { record { number = result.number; count = result.count; area = area.new }
        ≡ read_of area.old text.now }
{
    Answer::from(text::read(area, text))
}
