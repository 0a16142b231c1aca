// Every writable register in which the chip and the ledger differ: the address, the chip's byte (`held`) and the ledger's (`asked`), in
// hexadecimal. A byte behind the end of either counts as 0.
ghost use Rattle.std.specs.Prelude.{◌≡◌, true, ◌<◌, MatchOption};
ghost use Rattle.text.specs.Text.{Puts};
ghost use Rattle.pictures.specs.Pictures.{lines_text, differs, differing_from, register_text, differences_text};
ghost use Rattle.pictures.specs.PictureLaws.{First};

use crate::byte_or;

// Most bytes agree, so that few are looked up in the map.
#[tactic(auto, unfolding(crate::specs::Pictures::differs))]
fn differs_at(member: usize, held: &[u8], asked: &[u8], address: usize) -> bool
    ensures { result ≡ differs member held.now asked.now address }
{
    byte_or(held, address, 0) != byte_or(asked, address, 0) && map::writable(member, address)
}

fn first_difference(member: usize, held: &[u8], asked: &[u8]) -> Option<usize>
    ensures { MatchOption result (First member held.now asked.now 0 908) (λ first. (first < 908) × First member held.now asked.now 0 first) }
{
    (0..908).find(|address| differs_at(member, held, asked, *address))
}

fn put_register(text: &mut [u8], at: usize, held: &[u8], asked: &[u8], address: usize) -> usize
    ensures { Puts text.old at (register_text held.now asked.now address) text.new result }
{
    let bytes = [byte_or(held, address, 0), byte_or(asked, address, 0)];
    let next = text::put_address(text, at, address);
    text::put_spaced_bytes(text, next, &bytes)
}

// The first of them is at hand.
fn put_registers(
    text: &mut [u8],
    at: usize,
    member: usize,
    held: &[u8],
    asked: &[u8],
    first: usize,
) -> usize
    requires { (first < 908) × (differs member held.now asked.now first ≡ true) }
    ensures { Puts text.old at (lines_text (register_text held.now asked.now) (differing_from member held.now asked.now first))
        text.new result }
{
    let mut next = put_register(text, at, held, asked, first);
    for address in first + 1..908 {
        if differs_at(member, held, asked, address) {
            next = text::put(text, next, b'\n');
            next = put_register(text, next, held, asked, address);
        }
    }
    next
}

pub fn put_differences(
    text: &mut [u8],
    at: usize,
    member: usize,
    held: &[u8],
    asked: &[u8],
) -> usize
    ensures { Puts text.old at (differences_text member held.now asked.now) text.new result }
{
    match first_difference(member, held, asked) {
        Some(first) => put_registers(text, at, member, held, asked, first),
        None => text::put_text(text, at, b"same"),
    }
}
