// Reads a burst list from standard input and prints its text: one with I2C heads, or with the argument `spi` one with SPI heads. With
// other arguments it reads nothing and says on standard error how it is used.
#![tactic(auto)]

ghost use Rattle.std.specs.Prelude.{◌≡◌, ◌≤◌, length};
ghost use Rattle.showlist.specs.Arguments.{is_spi, bus_asked};

use std::env::Env;
use std::io::Read;

// Whether a word is `spi`.
#[tactic(auto, unfolding(crate::specs::Arguments::is_spi))]
fn is_spi(word: &[u8]) -> bool
    ensures { result ≡ is_spi word.now }
{
    word == b"spi".as_slice()
}

// The bus of the list, by how many words the program was started with, its own name among them, and the second of them.
#[tactic(auto, unfolding(crate::specs::Arguments::bus_asked))]
fn bus_asked(words: usize, word: &[u8]) -> Option<usize>
    ensures { result ≡ bus_asked words word.now }
{
    match words {
        0 | 1 => Some(0),
        2 if is_spi(word) => Some(1),
        _ => None,
    }
}

// Reads until the buffer is full, the input ends or a read fails. It answers how many bytes it has put at the buffer's start.
fn read_full(input: &mut impl Read, buffer: &mut [u8]) -> usize
    ensures { result ≤ length buffer.new }
{
    let mut done = 0;
    while done < buffer.len() {
        match input.read(&mut buffer[done..]) {
            Ok(0) | Err(_) => break,
            Ok(n) => done += n,
        }
    }
    done
}

fn print_list(rt: &impl Print, input: &mut impl Read, bus: usize) {
    // one byte more than a list may have
    let mut list = [0u8; 65537];
    let n = read_full(input, &mut list);
    // three bytes of text for each byte of the longest list
    let mut text = [0u8; 196608];
    let end = listing::show(bus, &list[..n], &mut text);
    console::say(rt, &text[..end]);
}

fn main(rt: HostRuntime) {
    // a longer word is none here
    let mut word = [0u8; 8];
    let length = rt.arg(1, &mut word).unwrap_or(0);
    match bus_asked(console::arg_count(&rt), &word[..length]) {
        Some(bus) => print_list(&rt, &mut rt.stdin(), bus),
        None => console::say(
            &rt.stderr(),
            b"showlist: takes no argument for a list with I2C heads, spi for one with SPI heads\n",
        ),
    }
}
