// The parameters of a tree with their ranges, why calls are refused, what C is answered, and the tests of parameters and bits.
#![tactic(auto)]

ghost use Rattle.std.specs.Prelude.{◌≡◌, cond, Ok, Err};
ghost use Rattle.bits.specs.Piece.{refused_bits};
ghost use Rattle.bits.specs.PieceLaws.{spanned};
ghost use Rattle.refusals.specs.Refusals.{first_refusal, size_tests, range_tests, refusal_number, told_number, told_count};

use bits::Span;

// The parameters of a tree: how many bytes the key has (the report's keylen), the digest size in bits, the height limit and the rounds.
#[derive(Clone, Copy)]
pub struct Params {
    pub keylen: u64,
    pub d: u64,
    pub limit: u64,
    pub rounds: u64,
}

impl Params {
    // The most bytes of a key, bits of a digest, height limit and rounds.
    pub const MOST_KEY_BYTES: u64 = 64;

    pub const MOST_DIGEST_BITS: u64 = 512;

    pub const MOST_LIMIT: u64 = 64;

    pub const MOST_ROUNDS: u64 = 4095;

    // The most levels of a tree.
    pub const LEVELS: u64 = 27;

    pub fn new(keylen: u64, d: u64, limit: u64, rounds: u64) -> Self
        ensures { result ≡ record { keylen = keylen; d = d; limit = limit; rounds = rounds } }
    {
        Self {
            keylen,
            d,
            limit,
            rounds,
        }
    }
}

// Why a call is refused, in the order of the numbers that C is told.
#[derive(Clone, Copy, PartialEq, Eq)]
pub enum Refusal {
    DigestSize, // not 1 to 512 bits
    KeyLength, // a key of over 64 bytes
    Limit, // a height limit over 64
    Rounds, // over 4,095 rounds
    Bits, // a start bit above 7, or bits past the bytes that are lent
    Total, // a total that would pass 2^64 - 1
    Area, // an area, or the words lent for one or for layers, too short; or an unsound area
    Log, // a log too short
    Output, // an output too short
    Ended, // a stream that has ended
    Text, // a text that no area writes
    Figure, // a digest that is not the one asked for
}

impl Refusal {
    // The number that C is told; 12 and 13 are no number of these calls.
    pub fn number(self) -> u64
        ensures { result ≡ refusal_number self }
    {
        match self {
            Refusal::DigestSize => 1,
            Refusal::KeyLength => 2,
            Refusal::Limit => 3,
            Refusal::Rounds => 4,
            Refusal::Bits => 5,
            Refusal::Total => 6,
            Refusal::Area => 7,
            Refusal::Log => 8,
            Refusal::Output => 9,
            Refusal::Ended => 10,
            Refusal::Text => 11,
            Refusal::Figure => 14,
        }
    }
}

// What a call answers in C: 0 and a count, or the number that refuses it and 0.
#[repr(C)]
#[derive(Clone, Copy)]
pub struct Answer {
    pub number: u64,
    pub count: u64,
}

impl Answer {
    pub fn refused(number: u64) -> Self
        ensures { (result.number ≡ number) × (result.count ≡ 0) }
    {
        Self { number, count: 0 }
    }

    pub fn accepted(count: u64) -> Self
        ensures { (result.number ≡ 0) × (result.count ≡ count) }
    {
        Self { number: 0, count }
    }
}

impl From<Result<u64, Refusal>> for Answer {
    ghost from_gives = { λ told answer. (answer.number ≡ told_number told) × (answer.count ≡ told_count told) };

    fn from(told: Result<u64, Refusal>) -> Answer {
        match told {
            Ok(count) => Answer::accepted(count),
            Err(refusal) => Answer::refused(refusal.number()),
        }
    }
}

// The first of two tests that holds, in their order, refuses.
pub fn first_of_two<E: Copy>(first: bool, one: E, second: bool, other: E) -> Result<(), E>
    ensures { result ≡ cond first (Err one) (cond second (Err other) (Ok tt)) }
{
    if first {
        return Err(one);
    }
    if second {
        return Err(other);
    }
    Ok(())
}

// Whether number 5 refuses a piece: its start bit is above 7, or start and count together pass the bytes' bits. By division: their
// sum, and 8 times the bytes, may pass 2^64.
pub fn refused_bits(bytes: &[u8], span: Span) -> bool
    ensures { result ≡ refused_bits (spanned bytes.now span) }
{
    if Span::MOST_START < span.start {
        return true;
    }
    (bytes.len() as u64) < span.bits / 8 + (span.start + span.bits % 8 + 7) / 8
}

// Tests the sizes of digest and key: first a digest size that is not 1 to 512, then a key of over 64 bytes.
pub fn check_sizes(d: u64, keylen: u64) -> Result<(), Refusal>
    ensures { told_number result ≡ first_refusal (size_tests d keylen) }
{
    if d < 1 {
        return Err(Refusal::DigestSize); // no digest
    }
    if Params::MOST_DIGEST_BITS < d {
        return Err(Refusal::DigestSize); // too long a digest
    }
    if Params::MOST_KEY_BYTES < keylen {
        return Err(Refusal::KeyLength); // too long a key
    }
    Ok(())
}

// Tests parameters: the digest size, the key's bytes, the height limit, the rounds.
pub fn check_params(params: Params) -> Result<(), Refusal>
    ensures { told_number result ≡ first_refusal (range_tests params.keylen params.d params.limit params.rounds) }
{
    check_sizes(params.d, params.keylen)?;
    if Params::MOST_LIMIT < params.limit {
        return Err(Refusal::Limit);
    }
    if Params::MOST_ROUNDS < params.rounds {
        return Err(Refusal::Rounds);
    }
    Ok(())
}
