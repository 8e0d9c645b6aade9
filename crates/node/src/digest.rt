// The bytes that a tree begins and ends with: K from the key, and the digest from the root's words.
ghost use Rattle.std.specs.Prelude.{◌≡◌, false, ◌++◌, ◌+◌, ◌-◌, ◌*◌, ◌/◌, ◌≤◌, ◌<◌, length, drop, replicate};
ghost use Rattle.bits.specs.Bits.{bits_of, numbers};
ghost use Rattle.tree.specs.Tree.{most_digest_bits, key_words, digest_bytes, most_key_bytes};
ghost use Rattle.node.specs.DigestLaws.{byte_at};

use super::Block;

// K: the key followed by zero bytes.
pub fn key_words(key: &[u8]) -> [u64; 8]
    requires { length key.now ≤ most_key_bytes }
    ensures { result ≡ key_words key.now }
{
    let mut k = [0u64; 8];
    bits::fill(&mut k, 0, key, 0, 0, 8 * key.len());
    k
}

// Byte j of words, high byte first.
fn byte_of(words: &[u64], j: usize) -> u8
    requires { j < 8 * length words.now }
    ensures { result ≡ byte_at words.now j }
{
    words[j / 8].to_be_bytes()[j % 8]
}

// Writes the first n bytes of words to the front of out.
fn put_bytes(out: &mut [u8], words: &[u64], n: usize)
    requires { (n ≤ 8 * length words.now) × (n ≤ length out.old) }
    ensures { out.new ≡ numbers 8 n (bits_of 64 words.now) ++ drop n out.old }
{
    for i in 0..n {
        out[i] = byte_of(words, i);
    }
}

// The bytes of a digest of d bits.
pub fn digest_bytes(d: u64) -> u64
    requires { d ≤ most_digest_bits }
    ensures { result ≡ digest_bytes d }
{
    (d + 7) / 8
}

// Writes the last d bits of the root's words, the first of them to the high bit of the first byte, with zero bits after
// them in the last byte. Bytes past these stay.
#[inline(never)]
pub fn write_digest(root: &[u64], d: u64, out: &mut [u8])
    requires { (length root.now ≡ 16) × (1 ≤ d) × (d ≤ most_digest_bits) × (digest_bytes d ≤ length out.old) }
    ensures { out.new
        ≡ numbers 8 (digest_bytes d) (drop (1024 - d) (bits_of 64 root.now) ++ replicate 7 false)
        ++ drop (digest_bytes d) out.old }
{
    let mut bytes = [0u8; 128];
    put_bytes(&mut bytes, root, 128);
    let mut last = [0u64; 8];
    let start = (Block::OUTPUT_BITS - d) as usize;
    bits::fill(&mut last, 0, &bytes, start / 8, start % 8, d as usize);
    let n = digest_bytes(d) as usize;
    put_bytes(out, &last, n);
}
