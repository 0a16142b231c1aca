// Lists whose text shows the head's address: writes, a read, other chips' writes, SPI heads, and SPI heads read as I2C heads.
use crate::report::{one_line, whole, whole_on};
use crate::writes::{bench, single};

fn i2c(rt: &impl Print) {
    let mut list = [0u8; 19];
    bench(rt, b"the bench example", &mut list, 0);
    one_line(rt, b"on one line", 0, &list);
}

fn spi(rt: &impl Print) {
    let mut list = [0u8; 19];
    bench(rt, b"the bench example with SPI heads", &mut list, 1);
    whole_on(rt, b"read as SPI heads", 1, &list);
    one_line(rt, b"on one line", 1, &list);
}

fn other_pins(rt: &impl Print) {
    let mut list = [0u8; 9];
    single(
        rt,
        b"a write to the chip with pins 3",
        &mut list,
        3,
        3,
        0x205,
        &[0xA0],
    );
}

fn last_address(rt: &impl Print) {
    let mut list = [0u8; 10];
    single(
        rt,
        b"a write at 3FFh",
        &mut list,
        4,
        0,
        0x3FF,
        &[0x12, 0x34],
    );
}

pub fn all(rt: &impl Print) {
    i2c(rt);
    spi(rt);
    whole(rt, b"no transaction", &[0, 0, 0, 0]);
    other_pins(rt);
    // 10101, address bits 9-8 and 0; then address bits 7-0
    whole(
        rt,
        b"a write to every chip",
        &[1, 0, 3, 0, 3, 0, 0xA8, 0xA9, 0xFF],
    );
    // 100, pins 0, address bits 9-8 and 1
    whole(rt, b"a read", &[1, 0, 3, 0, 3, 0, 0x81, 0x64, 0x02]);
    last_address(rt);
}
