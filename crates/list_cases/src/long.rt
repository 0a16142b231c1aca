// Long lists: sizes of more than one byte, and lists of 65,536 bytes.
use crate::report::{summary, whole};
use crate::writes::{put_counts, put_single, put_three_sizes, put_write};

// 00h to FFh.
fn rising() -> [u8; 256] {
    let mut bytes = [0u8; 256];
    for (byte, value) in bytes.iter_mut().zip(0..=255) {
        *byte = value;
    }
    bytes
}

fn several(rt: &impl Print) {
    let mut list = [0u8; 274];
    put_three_sizes(&mut list, 258, 264);
    let next = put_write(&mut list, 10, 0, 0, 0x000, &[0x01]);
    let next = put_write(&mut list, next, 0, 0, 0x100, &rising());
    put_write(&mut list, next, 0, 0, 0x001, &[0x58]);
    whole(rt, b"256 data bytes between two writes of one", &list);
}

// 4 + 2 + 65,530 bytes; the data are 00h.
fn longest(rt: &impl Print) {
    let mut list = [0u8; 65536];
    put_single(&mut list, 65530, 0, 0x000, &[]);
    summary(rt, b"65,536 bytes in one transaction", &list);
}

// The most transactions that 65,536 bytes hold: a length and three bytes each, and two bytes more.
const MOST: usize = 13106;

// The first length is 5, each other one 3.
fn put_lengths(list: &mut [u8]) {
    burst::put_size(list, 4, 5);
    for i in 1..MOST {
        burst::put_size(list, 4 + 2 * i, 3);
    }
}

// 4 + 2 * 13,106 + 39,320 bytes; heads and data are 00h.
fn most(rt: &impl Print) {
    let mut list = [0u8; 65536];
    put_counts(&mut list, MOST, 39320);
    put_lengths(&mut list);
    summary(rt, b"65,536 bytes in 13,106 transactions", &list);
}

pub fn all(rt: &impl Print) {
    several(rt);
    longest(rt);
    most(rt);
}
