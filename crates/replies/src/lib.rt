// Replies to the lines of a script, and their text. docs/REPLAY.md has them in its table's last column: the numbers of an answer, then a
// buffer; bytes alone; or a word.
#![tactic(auto)]

ghost use Rattle.std.specs.Prelude.{◌++◌};
ghost use Rattle.map.specs.Refusals.{numbers_in};
ghost use Rattle.replies.specs.Replies.{value_text, numbers_text, lent_text, differs_word, reply_text, reply_line, echo_line};
ghost use Rattle.text.specs.Text.{Puts, address_text};

use map::Numbers;
use text::{put, put_address, put_bytes, put_decimal, put_each, put_text};

// What the line of output says. BUFFER is all bytes of the buffer that was lent.
#[derive(Clone, Copy)]
pub enum Reply {
    // `?`
    Bad,
    // the numbers of an answer: `0`, `14`, `0 V W`
    Numbers(Numbers),
    // they and the buffer: `0 n t stored BUFFER`, `10 NEEDED BUFFER`, `0 O S BUFFER`, `N BUFFER`
    Lent(Numbers),
    // the bytes alone
    Bytes,
    // `same`
    Same,
    // `differs A`
    Differs(usize),
    // `free`
    Free,
    // `locked`
    Locked,
}

// ` V`
fn put_value(text: &mut [u8], at: usize, value: usize) -> usize
    ensures { Puts text.old at (value_text value) text.new result }
{
    let next = put(text, at, b' ');
    put_decimal(text, next, value)
}

// `N`, `N V`, `N V W` ..
fn put_numbers(text: &mut [u8], at: usize, numbers: Numbers) -> usize
    ensures { Puts text.old at (numbers_text (numbers_in numbers)) text.new result }
{
    match &numbers.values[..numbers.count.min(numbers.values.len())] {
        [] => at,
        [number, values @ ..] => {
            let next = put_decimal(text, at, *number);
            put_each(text, next, values, put_value)
        }
    }
}

// ` BUFFER`
fn put_lent(text: &mut [u8], at: usize, bytes: &[u8]) -> usize
    ensures { Puts text.old at (lent_text bytes.now) text.new result }
{
    let next = put(text, at, b' ');
    put_bytes(text, next, bytes)
}

// `differs A`
fn put_differs(text: &mut [u8], at: usize, address: usize) -> usize
    ensures { Puts text.old at (differs_word ++ address_text address) text.new result }
{
    let next = put_text(text, at, b"differs ");
    put_address(text, next, address)
}

#[tactic(auto, unfolding(crate::specs::Replies::reply_text))]
fn put_reply(text: &mut [u8], at: usize, reply: Reply, bytes: &[u8]) -> usize
    ensures { Puts text.old at (reply_text reply bytes.now) text.new result }
{
    match reply {
        Reply::Bad => put(text, at, b'?'),
        Reply::Numbers(numbers) => put_numbers(text, at, numbers),
        Reply::Lent(numbers) => {
            let next = put_numbers(text, at, numbers);
            put_lent(text, next, bytes)
        }
        Reply::Bytes => put_bytes(text, at, bytes),
        Reply::Same => put_text(text, at, b"same"),
        Reply::Differs(address) => put_differs(text, at, address),
        Reply::Free => put_text(text, at, b"free"),
        Reply::Locked => put_text(text, at, b"locked"),
    }
}

// The line of a reply, with the bytes of the buffer that was lent.
pub fn put_line(text: &mut [u8], at: usize, reply: Reply, bytes: &[u8]) -> usize
    ensures { Puts text.old at (reply_line reply bytes.now) text.new result }
{
    let end = put_reply(text, at, reply, bytes);
    put(text, end, b'\n')
}

// A line before the reply: the number of the script's line, and the line itself.
pub fn put_echo(text: &mut [u8], at: usize, number: usize, line: &[u8]) -> usize
    ensures { Puts text.old at (echo_line number line.now) text.new result }
{
    let next = put_decimal(text, at, number);
    let next = put(text, next, b' ');
    let next = put_text(text, next, line);
    put(text, next, b'\n')
}
