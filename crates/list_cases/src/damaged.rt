// Lists that are refused: by their sizes, or as they have more than 65,536 bytes.
use crate::report::{one_line, whole};
use crate::writes::{bench, single};

// "length under 4"
fn short(rt: &impl Print) {
    whole(rt, b"an empty list", b"");
    whole(rt, b"three bytes", &[0, 0, 0]);
    one_line(rt, b"on one line", 0, &[0, 0, 0]);
}

// "a length below 3, lengths not adding to t"
fn lengths(rt: &impl Print) {
    whole(rt, b"a length of 2", &[1, 0, 2, 0, 2, 0, 0x80, 0x00]);
    whole(
        rt,
        b"a length of 4 where t is 3",
        &[1, 0, 3, 0, 4, 0, 0x80, 0x00, 0x01],
    );
}

// "or a size other than 4 + 2n + t"
fn size(rt: &impl Print) {
    let mut list = [0u8; 18];
    bench(rt, b"the bench example without its last byte", &mut list, 0);
    let mut list = [0u8; 20];
    bench(rt, b"the bench example and one byte more", &mut list, 0);
    whole(
        rt,
        b"n of 65,535",
        &[0xFF, 0xFF, 3, 0, 3, 0, 0x80, 0x00, 0x01],
    );
}

// 4 + 2 + 65,531 bytes: the sizes add up.
fn long(rt: &impl Print) {
    let mut list = [0u8; 65537];
    single(rt, b"65,537 bytes", &mut list, 65531, 0, 0x000, &[]);
}

pub fn all(rt: &impl Print) {
    short(rt);
    lengths(rt);
    size(rt);
    long(rt);
}
