// Whether no bit of words is set, from a bit on.
ghost use Rattle.std.specs.Prelude.{◌≡◌, eqb};
ghost use Rattle.calls.proofs.SoundParts.{empty_from};

// The bits of a word.
const WORD: usize = 64;

// The words, joined by `|`: a loop with no test, which is quick.
fn or_all(words: &[u64]) -> u64
    ensures { eqb result 0 ≡ empty_from 0 words.now }
{
    let mut all: u64 = 0;
    for word in words {
        all |= *word;
    }
    all
}

// Whether no bit of a part is set from a bit on.
pub fn empty_from(part: &[u64], from: usize) -> bool
    ensures { result ≡ empty_from from part.now }
{
    let i = from / WORD;
    if part.len() <= i {
        return true;
    }
    let low = part[i] << (from % WORD);
    low == 0 && or_all(&part[i + 1..]) == 0
}
