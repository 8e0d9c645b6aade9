// Numbers and words as hexadecimal digits, and back; a digit is 0 to 9 or a to f, and a capital is refused.
#![tactic(auto)]

ghost use Rattle.std.specs.Prelude.{◌≡◌, ◌*◌, ◌≤◌, ◌<◌, length, option_map};
ghost use Rattle.digits.specs.Hex.{digit_of, hex_digit};
ghost use Rattle.digits.specs.Digits.{hex_digits, word_digits, spelt, spelt_words, all_spelt};

// The digits of a word.
const WORD_DIGITS: usize = 16;

// The value of a byte as a hexadecimal digit, if it is one.
pub fn digit_value(b: u8) -> Option<u64>
    ensures { result ≡ digit_of b }
{
    match b {
        b'0'..=b'9' => Some(u64::from(b - b'0')),
        b'a'..=b'f' => Some(u64::from(b - b'a' + 10)),
        _ => None,
    }
}

// The digit of a number.
pub fn value_digit(n: u64) -> u8
    requires { n < 16 }
    ensures { result ≡ hex_digit n }
{
    match n {
        0..=9 => b'0' + n as u8,
        _ => b'a' + (n - 10) as u8,
    }
}

// The digits of a number, as many as the part has bytes.
pub fn put_digits(part: &mut [u8], x: u64)
    requires { length part.old ≤ 16 }
    ensures { part.new ≡ hex_digits (length part.old) x }
{
    let n = part.len();
    for (i, digit) in part.iter_mut().enumerate() {
        let s = 4 * (n - 1 - i);
        *digit = value_digit((x >> s) % 16);
    }
}

// The digits of words, 16 each.
pub fn put_words(part: &mut [u8], words: &[u64])
    requires { length part.old ≡ 16 * length words.now }
    ensures { part.new ≡ word_digits words.now }
{
    // no `chunks_exact_mut`: of what is written through it a proof knows the length alone
    for (i, word) in words.iter().enumerate() {
        let a = WORD_DIGITS * i;
        put_digits(&mut part[a..a + WORD_DIGITS], *word);
    }
}

// The number that digits spell; none if a byte is no digit.
#[tactic(auto, using(crate::proofs::Loops::number_steps))]
pub fn number(part: &[u8]) -> Option<u64>
    requires { length part.now ≤ 16 }
    ensures { result ≡ spelt 0 part.now }
{
    let mut x = 0;
    for b in part {
        x = x * 16 + digit_value(*b)?;
    }
    Some(x)
}

// The words that digits spell, 16 each; none at the first byte that is no digit.
pub fn spell_words(words: &mut [u64], part: &[u8]) -> Option<()>
    requires { length part.now ≡ 16 * length words.old }
    ensures { option_map (λ _. words.new) result ≡ all_spelt (spelt_words (length words.old) part.now) }
{
    for (i, word) in words.iter_mut().enumerate() {
        let a = WORD_DIGITS * i;
        *word = number(&part[a..a + WORD_DIGITS])?;
    }
    Some(())
}
