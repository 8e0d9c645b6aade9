// The digest of a whole message, and the default rounds.
#![tactic(auto)]

ghost use Rattle.std.specs.Prelude.{◌≡◌, ◌++◌, length, drop};
ghost use Rattle.bits.specs.PieceLaws.{spanned, span_bits};
ghost use Rattle.tree.specs.Tree.{digest, digest_bytes};
ghost use Rattle.refusals.specs.Refusals.{told_number, told_count};
ghost use Rattle.hash.specs.Hash.{hash_of, rounds_by_default, default_rounds_of};
ghost use Rattle.hash.specs.Accepted.{with_key, number_for, Accepted};

use bits::Span;
use node::{Compressor, Keyed, digest};
use refusals::{Params, Refusal};

// The least default rounds of a keyed digest.
const LEAST_KEYED_ROUNDS: u64 = 80;

// The rounds that a digest size and a key length have by default. It answers for sizes out of range too, for a caller that has
// them refused elsewhere.
pub fn rounds_by_default(d: u64, keylen: u64) -> u64
    ensures { result ≡ rounds_by_default d keylen }
{
    let rounds = 40 + d / 4;
    if 0 < keylen {
        return rounds.max(LEAST_KEYED_ROUNDS);
    }
    rounds
}

// Tells the default rounds for a digest size and a key length.
pub fn default_rounds(d: u64, keylen: u64) -> Result<u64, Refusal>
    ensures { record { number = told_number result; count = told_count result } ≡ default_rounds_of d keylen }
{
    refusals::check_sizes(d, keylen)?;
    Ok(rounds_by_default(d, keylen))
}

// Tests what the whole-message call is given.
pub fn check(message: &[u8], span: Span, params: Params, digest: &[u8]) -> Result<(), Refusal>
    ensures { told_number result ≡ number_for (spanned message.now span) params digest.now }
{
    if refusals::refused_bits(message, span) {
        return Err(Refusal::Bits);
    }
    refusals::check_params(params)?;
    if (digest.len() as u64) < node::digest::digest_bytes(params.d) {
        return Err(Refusal::Output);
    }
    Ok(())
}

// Writes the digest of a message. The round constants are copied once, and lent to every node. They stand here, and in `layers` in the
// function like this one, since a function that made the Compressor for both could not give back what it borrows.
fn put_digest(message: &[u8], span: Span, key: &[u8], params: Params, out: &mut [u8])
    requires { Accepted (spanned message.now span) (with_key key.now params) out.old × (params.keylen ≡ length key.now) }
    ensures { out.new
        ≡ digest (with_key key.now params) (span_bits message.now span)
        ++ drop (digest_bytes params.d) out.old }
{
    let k = digest::key_words(key);
    let first = constants::first_part();
    let with = Compressor::new(Keyed { k, params }, &first);
    let root = nodes::root(message, span, &with);
    digest::write_digest(&root, params.d, out);
}

// The digest of a whole message: `bits` bits, from bit `start` of the first byte on.
pub fn hash(
    message: &[u8],
    start: u64,
    bits: u64,
    key: &[u8],
    d: u64,
    limit: u64,
    rounds: u64,
    digest: &mut [u8],
) -> Result<u64, Refusal>
    ensures { record { number = told_number result; count = told_count result; digest = digest.new }
        ≡ hash_of (record { bytes = message.now; start = start; count = bits })
        (record { key = key.now; d = d; limit = limit; rounds = rounds }) digest.old }
{
    let span = Span { start, bits };
    let params = Params::new(key.len() as u64, d, limit, rounds);
    check(message, span, params, digest)?;
    put_digest(message, span, key, params, digest);
    Ok(shape::tree_nodes(limit, bits))
}
