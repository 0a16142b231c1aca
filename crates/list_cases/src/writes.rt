// Lists that are built from writes, as document 01, "Burst lists", has them.
use crate::report::whole;

// A write at a place of a list. It answers the place behind.
pub fn put_write(
    list: &mut [u8],
    at: usize,
    bus: u8,
    pins: u8,
    address: usize,
    bytes: &[u8],
) -> usize {
    let next = text::put(list, at, burst::head_first(bus, pins, address));
    let next = text::put(list, next, burst::head_second(bus, address));
    text::put_text(list, next, bytes)
}

// n, and t.
pub fn put_counts(list: &mut [u8], n: usize, t: usize) {
    burst::put_size(list, 0, n);
    burst::put_size(list, 2, t);
}

// A list of one write on I2C, of so many bytes with its head.
pub fn put_single(list: &mut [u8], size: usize, pins: u8, address: usize, bytes: &[u8]) {
    put_counts(list, 1, size);
    burst::put_size(list, 4, size);
    put_write(list, 6, 0, pins, address, bytes);
}

pub fn single(
    rt: &impl Print,
    caption: &[u8],
    list: &mut [u8],
    size: usize,
    pins: u8,
    address: usize,
    bytes: &[u8],
) {
    put_single(list, size, pins, address, bytes);
    whole(rt, caption, list);
}

// The sizes of three transactions, of which the first and the last have one data byte.
pub fn put_three_sizes(list: &mut [u8], middle: usize, t: usize) {
    put_counts(list, 3, t);
    burst::put_size(list, 4, 3);
    burst::put_size(list, 6, middle);
    burst::put_size(list, 8, 3);
}

// The bench example: 000h = 01h, 001h = 58h, Lamp (0, 2, 40h).
fn put_bench(list: &mut [u8], bus: u8) {
    put_three_sizes(list, 3, 9);
    let next = put_write(list, 10, bus, 0, 0x000, &[0x01]);
    let next = put_write(list, next, bus, 0, 0x001, &[0x58]);
    put_write(list, next, bus, 0, 0x202, &[0x40]);
}

pub fn bench(rt: &impl Print, caption: &[u8], list: &mut [u8], bus: u8) {
    put_bench(list, bus);
    whole(rt, caption, list);
}
