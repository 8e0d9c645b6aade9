// Words copied and cleared, and bytes compared: what the crates above share.
#![tactic(auto)]

ghost use Rattle.std.specs.Prelude.{◌≡◌, ◌+◌, ◌≤◌, length, replicate};
ghost use Rattle.std.proofs.Math.Seq.{paste};
ghost use Rattle.lists.specs.Same.{same};

// Copies all words of src into dst from a place on.
pub fn copy(dst: &mut [u64], at: usize, src: &[u64])
    requires { at + length src.now ≤ length dst.old }
    ensures { dst.new ≡ paste dst.old at src.now (length src.now) }
{
    dst[at..at + src.len()].copy_from_slice(src);
}

// Fills a part with zero words.
pub fn clear(part: &mut [u64])
    ensures { part.new ≡ replicate (length part.old) 0 }
{
    part.fill(0);
}

// Whether two slices hold the same bytes, and as many. All bytes are looked at, whatever differs: the loop does not stop at the first.
#[tactic(auto, using(crate::proofs::Compare::other_length, crate::proofs::Compare::one_more))]
pub fn same_bytes(x: &[u8], y: &[u8]) -> bool
    ensures { result ≡ same x.now y.now }
{
    if x.len() != y.len() {
        return false;
    }
    let mut seen: u8 = 0;
    for (a, b) in x.iter().zip(y) {
        seen |= *a ^ *b;
    }
    seen == 0
}
