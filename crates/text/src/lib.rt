// Numbers and bytes as ASCII text.
//
// Each function puts a text at a place of a buffer and answers the place behind it. What has no room is dropped: behind the buffer's
// end nothing is put, and the place stays.
#![tactic(auto)]

ghost use Rattle.std.specs.Prelude.{◌≡◌, ℕ, List, [], ◌∷◌};
ghost use Rattle.text.specs.Text.{Puts, PutsOne, digit, byte_text, address_text, spaced_text, spaced_bytes_text, bytes_text, decimal_text, each_text};

// One byte.
#[tactic(auto, unfolding(crate::specs::Text::placed, crate::specs::Text::place_after, crate::specs::Text::next_place))]
pub fn put(text: &mut [u8], at: usize, byte: u8) -> usize
    ensures { Puts text.old at (byte ∷ []) text.new result }
{
    if text.len() <= at {
        return at;
    }
    text[at] = byte;
    at + 1
}

// The last hexadecimal digit of a number, with capitals.
#[tactic(auto, unfolding(crate::specs::Text::digit))]
fn digit_of(value: usize) -> u8
    ensures { result ≡ digit value }
{
    let d = (value % 16) as u8;
    if d < 10 { b'0' + d } else { b'A' + (d - 10) }
}

// A byte as two hexadecimal digits.
pub fn put_byte(text: &mut [u8], at: usize, value: u8) -> usize
    ensures { Puts text.old at (byte_text value) text.new result }
{
    let next = put(text, at, digit_of(value as usize / 16));
    put(text, next, digit_of(value as usize))
}

// An address as three hexadecimal digits, the last ones.
pub fn put_address(text: &mut [u8], at: usize, address: usize) -> usize
    ensures { Puts text.old at (address_text address) text.new result }
{
    let next = put(text, at, digit_of(address / 256));
    put_byte(text, next, (address % 256) as u8)
}

// A number in decimal, with no zero in front.
pub fn put_decimal(text: &mut [u8], at: usize, value: usize) -> usize
    ensures { Puts text.old at (decimal_text value) text.new result }
{
    if value < 10 {
        return put(text, at, digit_of(value));
    }
    let next = put_decimal(text, at, value / 10);
    put(text, next, digit_of(value % 10))
}

// Each of some things as `put_one` puts it, one behind the other.
pub fn put_each<T: Copy, F: Fn(&mut [u8], usize, T) -> usize>(
    text: &mut [u8],
    at: usize,
    items: &[T],
    put_one: F,
) -> usize
    requires { F.IsAlwaysCallable put_one }
    ensures { (shape : T → List ℕ) → PutsOne (F.post put_one) (λ t. t.now) shape → Puts text.old at (each_text shape items.now) text.new result }
{
    let mut next = at;
    for item in items {
        next = put_one(text, next, *item);
    }
    next
}

// The bytes as they are.
pub fn put_text(text: &mut [u8], at: usize, bytes: &[u8]) -> usize
    ensures { Puts text.old at bytes.now text.new result }
{
    put_each(text, at, bytes, put)
}

// A byte string as pairs of hexadecimal digits with nothing between; `-` where it is empty.
pub fn put_bytes(text: &mut [u8], at: usize, bytes: &[u8]) -> usize
    ensures { Puts text.old at (bytes_text bytes.now) text.new result }
{
    if bytes.is_empty() {
        return put(text, at, b'-');
    }
    put_each(text, at, bytes, put_byte)
}

fn put_spaced(text: &mut [u8], at: usize, value: u8) -> usize
    ensures { Puts text.old at (spaced_text value) text.new result }
{
    let next = put(text, at, b' ');
    put_byte(text, next, value)
}

// Each byte after a space.
pub fn put_spaced_bytes(text: &mut [u8], at: usize, bytes: &[u8]) -> usize
    ensures { Puts text.old at (spaced_bytes_text bytes.now) text.new result }
{
    put_each(text, at, bytes, put_spaced)
}
