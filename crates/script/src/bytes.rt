// Byte strings: pairs of hex digits, and `-` for the empty one.
ghost use Rattle.std.specs.Prelude.{◌≡◌};
ghost use Rattle.script.specs.Numbers.{all_digits};
ghost use Rattle.script.specs.Bytes.{is_bytes, pair_of, bytes_of};
ghost use Rattle.text.specs.Text.{Puts};
ghost use Rattle.io.specs.Counts.{IsPrefixLen};

use crate::numbers::digit;

fn all_digits(word: &[u8]) -> bool
    ensures { result ≡ all_digits 16 word.now }
{
    word.iter()
        .all(|byte| digit(*byte).is_some_and(|value| value < 16))
}

#[tactic(auto, unfolding(crate::specs::Bytes::is_bytes, crate::specs::Bytes::is_pairs))]
pub(crate) fn is_bytes(word: &[u8]) -> bool
    ensures { result ≡ is_bytes word.now }
{
    word == b"-".as_slice() || (!word.is_empty() && word.len() % 2 == 0 && all_digits(word))
}

#[tactic(auto, using(crate::proofs::Reading::digit_below), unfolding(crate::specs::Bytes::pair_of))]
fn pair(high: u8, low: u8) -> u8
    ensures { result ≡ pair_of high low }
{
    (digit(high).unwrap_or(0) * 16 + digit(low).unwrap_or(0)) as u8
}

// The bytes of a byte string, at the front of a buffer. It answers how many.
pub fn decode(word: &[u8], buffer: &mut [u8]) -> usize
    ensures puts { Puts buffer.old 0 (bytes_of word.now) buffer.new result }
    ensures prefix_len { IsPrefixLen result buffer.new }
{
    let mut at = 0;
    let mut rest = word;
    while let [high, low, behind @ ..] = rest {
        at = text::put(buffer, at, pair(*high, *low));
        rest = behind;
    }
    at
}
