// Numbers in decimal (base 10) and in hex (base 16, either case). Leading zeros are allowed; an empty word, a wrong digit, more digits
// than are asked for and a number above the most that is asked for are none.
ghost use Rattle.std.specs.Prelude.{◌≡◌};
ghost use Rattle.script.specs.Numbers.{digit_of, numeral_of};

// The value of a digit.
#[tactic(auto, unfolding(crate::specs::Numbers::digit_of))]
pub(crate) fn digit(byte: u8) -> Option<usize>
    ensures { result ≡ digit_of byte }
{
    match byte {
        b'0'..=b'9' => Some((byte - b'0') as usize),
        b'A'..=b'F' => Some((byte - b'A') as usize + 10),
        b'a'..=b'f' => Some((byte - b'a') as usize + 10),
        _ => None,
    }
}

// What stands for a code that is no digit: above every digit.
const NO_DIGIT: usize = 16;

pub(crate) fn read(word: &[u8], base: usize, digits: usize, most: usize) -> Option<usize>
    ensures { result ≡ numeral_of base digits most word.now }
{
    if word.is_empty() || digits < word.len() {
        return None;
    }
    let mut value: usize = 0;
    for byte in word {
        let next = digit(*byte).unwrap_or(NO_DIGIT);
        if base <= next {
            return None;
        }
        value = value.checked_mul(base)?.checked_add(next)?;
        if most < value {
            return None;
        }
    }
    Some(value)
}
