// A burst list as text: n and t in decimal, then each transaction, reads and other chips' too, with the head's address in three digits
// and each data byte in two after a space, in hexadecimal with capitals. A list whose sizes do not add up is 11. `show` has each
// transaction on a line of its own and takes lists of up to 65,536 bytes; `put_list` has ` / ` before each, all on one line.
//
// Bus 0 is I2C, any other SPI. What has no room in the buffer is dropped; 196,608 bytes have room for what `show` has of any list.
#![tactic(auto)]

ghost use Rattle.std.specs.Prelude.{◌≡◌, ◌++◌, ◌+◌, ◌*◌, ◌<◌, ◌≤◌, length, take, drop};
ghost use Rattle.burst.specs.Burst.{lengths_from, cut_from, head_address};
ghost use Rattle.burst.specs.BurstLaws.{Rest};
ghost use Rattle.text.specs.Text.{Puts};
ghost use Rattle.listing.specs.Show.{transaction_text, transactions_text, sizes_text, refusal_text, separated_text, list_text, shown};

use burst::Sizes;
use map::Refusal;

// The address that a head names.
fn address_of(bus: usize, h0: u8, h1: u8) -> usize
    ensures { result ≡ head_address bus h0 h1 }
{
    burst::head_address(u8::from(bus != 0), h0, h1)
}

// The separator, and the transaction of so many bytes at a place of the list.
fn put_transaction(
    text: &mut [u8],
    at: usize,
    separator: &[u8],
    bus: usize,
    list: &[u8],
    from: usize,
    size: usize,
) -> usize
    requires { (3 ≤ size) × (from + size ≤ length list.now) }
    ensures { Puts text.old at (separator.now ++ transaction_text bus (take size (drop from list.now))) text.new result }
{
    let next = text::put_text(text, at, separator);
    let next = text::put_address(text, next, address_of(bus, list[from], list[from + 1]));
    text::put_spaced_bytes(text, next, &list[from + 2..from + size])
}

// Every transaction of a list with good sizes, whose n is at hand.
fn put_transactions(
    text: &mut [u8],
    at: usize,
    separator: &[u8],
    bus: usize,
    list: &[u8],
    n: usize,
) -> usize
    requires { (n < 65536) × Rest list.now (4 + 2 * n) (lengths_from list.now 4 n) }
    ensures { Puts text.old at (transactions_text separator.now bus (cut_from list.now (4 + 2 * n) (lengths_from list.now 4 n)))
        text.new result }
{
    let mut next = at;
    let mut from = 4 + 2 * n;
    for i in 0..n {
        let size = burst::size_at(list, 4 + 2 * i);
        next = put_transaction(text, next, separator, bus, list, from, size);
        from += size;
    }
    next
}

fn put_sizes(text: &mut [u8], at: usize, n: usize, t: usize) -> usize
    ensures { Puts text.old at (sizes_text n t) text.new result }
{
    let next = text::put_decimal(text, at, n);
    let next = text::put(text, next, b' ');
    text::put_decimal(text, next, t)
}

fn put_refusal(text: &mut [u8], at: usize) -> usize
    ensures { Puts text.old at refusal_text text.new result }
{
    text::put_decimal(text, at, map::refusal_number(Refusal::ListSizes) as usize)
}

// The text of a list, with a separator before each transaction.
fn put_separated(text: &mut [u8], at: usize, separator: &[u8], bus: usize, list: &[u8]) -> usize
    ensures { Puts text.old at (separated_text separator.now bus list.now) text.new result }
{
    let Some(Sizes { n, t }) = burst::read_sizes(list) else {
        return put_refusal(text, at);
    };
    let next = put_sizes(text, at, n, t);
    put_transactions(text, next, separator, bus, list, n)
}

// The text of a list on one line.
pub fn put_list(text: &mut [u8], at: usize, bus: usize, list: &[u8]) -> usize
    ensures { Puts text.old at (list_text bus list.now) text.new result }
{
    put_separated(text, at, b" / ", bus, list)
}

// The text of a list, each transaction on a line of its own, at the start of a buffer.
pub fn show(bus: usize, list: &[u8], text: &mut [u8]) -> usize
    ensures { Puts text.old 0 (shown bus list.now) text.new result × (result ≤ length text.new) }
{
    if 65536 < list.len() {
        let next = put_refusal(text, 0);
        return text::put(text, next, b'\n');
    }
    let next = put_separated(text, 0, b"\n", bus, list);
    text::put(text, next, b'\n')
}
