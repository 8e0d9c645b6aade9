// Bits, bytes and words: which bits of lent bytes a piece has, and the copier that fills a block of words with message bits.
// Bytes go into words high byte first and bits into bytes high bit first.
#![tactic(auto)]

ghost use Rattle.std.specs.Prelude.{◌≡◌, ◌+◌, ◌-◌, ◌*◌, ◌/◌, ◌%◌, ◌^◌, ◌≤◌, ◌<◌, length, get_or};
ghost use Rattle.bits.specs.Bits.{filled};
ghost use Rattle.bits.specs.Read.{eight_from, word_from};

// Which bits of lent bytes a piece has: from a bit of the first byte on, so many.
#[derive(Clone, Copy)]
pub struct Span {
    pub start: u64,
    pub bits: u64,
}

impl Span {
    // The highest start bit: the last of a byte.
    pub const MOST_START: u64 = 7;
}

// Where the bits to copy stand in their bytes: from a bit of a byte on.
#[derive(Clone, Copy)]
struct Source {
    byte: usize,
    bit: usize,
    ghost in_byte: { bit < 8 },
}

impl Source {
    // The place so many words further on.
    fn after(self, words: usize) -> Self
        requires { self.byte + 8 * words < 2 ^ 64 }
        ensures { (result.byte ≡ self.byte + 8 * words) × (result.bit ≡ self.bit) }
    {
        Self {
            byte: self.byte + 8 * words,
            bit: self.bit,
        }
    }
}

// The eight bytes from `byte` on. They are written out since with `array::from_fn` the proof did not close.
fn load(bytes: &[u8], byte: usize) -> u64
    requires { byte + 8 ≤ length bytes.now }
    ensures { result ≡ eight_from bytes.now byte }
{
    u64::from_be_bytes([
        bytes[byte],
        bytes[byte + 1],
        bytes[byte + 2],
        bytes[byte + 3],
        bytes[byte + 4],
        bytes[byte + 5],
        bytes[byte + 6],
        bytes[byte + 7],
    ])
}

// The byte at a place, and 0 past the end.
fn byte_at(bytes: &[u8], place: usize) -> u8
    ensures { result ≡ get_or bytes.now place 0 }
{
    bytes.get(place).copied().unwrap_or(0)
}

// The same as `load` near the end of the bytes, those past the end as 0. In place of `load` it makes whole words 5 to 18 times as slow.
fn load_end(bytes: &[u8], byte: usize) -> u64
    requires { byte ≤ length bytes.now }
    ensures { result ≡ eight_from bytes.now byte }
{
    u64::from_be_bytes([
        byte_at(bytes, byte),
        byte_at(bytes, byte + 1),
        byte_at(bytes, byte + 2),
        byte_at(bytes, byte + 3),
        byte_at(bytes, byte + 4),
        byte_at(bytes, byte + 5),
        byte_at(bytes, byte + 6),
        byte_at(bytes, byte + 7),
    ])
}

// The 64 bits from bit `bit` on of a word and the byte after it.
fn shifted(word: u64, next: u8, bit: usize) -> u64
    requires { bit < 8 }
    ensures { result ≡ (word * 2 ^ 8 + next) / 2 ^ (8 - bit) % 2 ^ 64 }
{
    word << bit | u64::from(next) >> (8 - bit)
}

// The next 64 bits, all of them there: quick, for whole words.
fn whole_at(bytes: &[u8], from: Source) -> u64
    requires { 8 * from.byte + from.bit + 64 ≤ 8 * length bytes.now }
    ensures { result ≡ word_from bytes.now (8 * from.byte + from.bit) }
{
    let word = load(bytes, from.byte);
    if from.bit == 0 {
        return word;
    }
    shifted(word, bytes[from.byte + 8], from.bit)
}

// The next 64 bits, those past the end as 0.
fn word_at(bytes: &[u8], from: Source) -> u64
    requires { from.byte ≤ length bytes.now }
    ensures { result ≡ word_from bytes.now (8 * from.byte + from.bit) }
{
    if 9 <= bytes.len() - from.byte {
        return whole_at(bytes, from);
    }
    let word = load_end(bytes, from.byte);
    shifted(word, byte_at(bytes, from.byte + 8), from.bit)
}

// The word with the number v in the place of the n bits above its low t ones.
fn put_bits(word: u64, n: usize, t: usize, v: u64) -> u64
    requires { (n < 64) × (t < 64) × (n + t ≤ 64) × (v < 2 ^ n) }
    ensures { result ≡ (word / 2 ^ (n + t) * 2 ^ n + v) * 2 ^ t + word % 2 ^ t }
{
    let mask = (1 << n) - 1;
    let old = (word >> t) & mask;
    word - (old << t) + (v << t)
}

// Fills a part of one word.
fn fill_part(
    block: &mut [u64],
    word: usize,
    offset: usize,
    bytes: &[u8],
    from: Source,
    count: usize,
)
    requires { (count < 64) × (offset + count ≤ 64) × (64 * word + offset + count ≤ 64 * length block.old)
        × (8 * from.byte + from.bit + count ≤ 8 * length bytes.now) }
    ensures { block.new ≡ filled block.old (64 * word + offset) bytes.now (8 * from.byte + from.bit) count }
{
    if count == 0 {
        return;
    }
    let v = word_at(bytes, from) >> (64 - count);
    block[word] = put_bits(block[word], count, 64 - offset - count, v);
}

// Fills whole words.
fn fill_words(block: &mut [u64], word: usize, bytes: &[u8], from: Source, words: usize)
    requires { (word + words ≤ length block.old) × (8 * from.byte + from.bit + 64 * words ≤ 8 * length bytes.now) }
    ensures { block.new ≡ filled block.old (64 * word) bytes.now (8 * from.byte + from.bit) (64 * words) }
{
    for i in 0..words {
        block[word + i] = whole_at(bytes, from.after(i));
    }
}

// Fills from the start of a word on: the whole words, and then a part of the next.
fn fill_from(block: &mut [u64], word: usize, bytes: &[u8], from: Source, count: usize)
    requires { (64 * word + count ≤ 64 * length block.old) × (8 * from.byte + from.bit + count ≤ 8 * length bytes.now) }
    ensures { block.new ≡ filled block.old (64 * word) bytes.now (8 * from.byte + from.bit) count }
{
    let words = count / 64;
    let rest = from.after(words);
    fill_words(&mut *block, word, bytes, from, words);
    fill_part(&mut *block, word + words, 0, bytes, rest, count % 64);
}

// Copies `count` bits, from bit `bit` of byte `byte` on, into the block's bits from `at` on. The bits around them stay.
pub fn fill(block: &mut [u64], at: usize, bytes: &[u8], byte: usize, bit: usize, count: usize)
    requires { (bit < 8) × (at + count ≤ 64 * length block.old) × (8 * byte + bit + count ≤ 8 * length bytes.now) }
    ensures { block.new ≡ filled block.old at bytes.now (8 * byte + bit) count }
{
    let from = Source { byte, bit };
    let word = at / 64;
    let offset = at % 64;
    if offset == 0 {
        fill_from(block, word, bytes, from, count);
        return;
    }
    if count <= 64 - offset {
        fill_part(block, word, offset, bytes, from, count);
        return;
    }
    let head = 64 - offset;
    let next = bit + head;
    let rest = Source {
        byte: byte + next / 8,
        bit: next % 8,
    };
    fill_part(&mut *block, word, offset, bytes, from, head);
    fill_from(&mut *block, word + 1, bytes, rest, count - head);
}
