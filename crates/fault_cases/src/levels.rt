// Lamps of several levels: both widths of each member.
use crate::compare::Readings;
use crate::tally::Tally;
use crate::{compare, records, report};

#[derive(Clone, Copy)]
struct Example {
    name: &'static [u8],
    member: usize,
    mode: u8,
    // by dot; all others are 0
    levels: &'static [(u8, usize)],
    reads: Readings,
}

static EXAMPLES: [Example; 10] = [
    Example {
        name: b"LP5860, 8 bits: dots at 24, 25 and 255, a dim one open, a dim one short",
        member: 0,
        mode: 0,
        levels: &[(0, 24), (1, 25), (2, 255), (18, 24), (197, 25)],
        reads: Readings {
            bytes: &[(0x64, 0x03), (0x65, 0x01), (0x89, 0x01)],
            dots: &[(0, 1), (1, 0), (2, 0), (17, 5), (18, 2), (196, 5), (197, 0)],
            counts: [3, 1, 1, 0, 0, 193],
            opens: true,
            shorts: true,
        },
    },
    Example {
        name: b"LP5860, 16 bits: dots at 6399, 6400, 25 and 65535",
        member: 0,
        mode: 3,
        levels: &[(0, 6399), (1, 6400), (100, 25), (197, 65535)],
        reads: Readings {
            bytes: &[],
            dots: &[(0, 5), (1, 0), (2, 5), (100, 5), (197, 0)],
            counts: [2, 0, 0, 0, 0, 196],
            opens: true,
            shorts: true,
        },
    },
    Example {
        name: b"LP5861T, 8 bits: dots at 25 and 200, one at 24 open and short",
        member: 1,
        mode: 1,
        levels: &[(3, 25), (4, 24), (17, 200)],
        reads: Readings {
            bytes: &[(0x64, 0x03), (0x65, 0x10), (0x86, 0x10)],
            dots: &[(3, 0), (4, 3), (5, 5), (17, 0), (18, 4)],
            counts: [2, 0, 0, 1, 180, 15],
            opens: true,
            shorts: true,
        },
    },
    Example {
        name: b"LP5861T, 16 bits: dots at 6400 and 6399, 064h says open",
        member: 1,
        mode: 2,
        levels: &[(16, 6400), (17, 6399)],
        reads: Readings {
            bytes: &[(0x64, 0x02)],
            dots: &[(15, 5), (16, 0), (17, 5), (18, 4)],
            counts: [1, 0, 0, 0, 180, 17],
            opens: false,
            shorts: true,
        },
    },
    Example {
        name: b"LP5864, 8 bits: dots of one line at 25, its last at 24",
        member: 2,
        mode: 0,
        levels: &[(54, 25), (55, 25), (70, 25), (71, 24)],
        reads: Readings {
            bytes: &[],
            dots: &[(53, 5), (54, 0), (55, 0), (70, 0), (71, 5), (72, 4)],
            counts: [3, 0, 0, 0, 126, 69],
            opens: true,
            shorts: true,
        },
    },
    Example {
        name: b"LP5864, 16 bits: dots at 25600 and 6400, one at 6399 short",
        member: 2,
        mode: 2,
        levels: &[(0, 25600), (70, 6399), (71, 6400)],
        reads: Readings {
            bytes: &[(0x64, 0x01), (0x91, 0x01)],
            dots: &[(0, 0), (1, 5), (70, 2), (71, 0), (72, 4)],
            counts: [2, 0, 1, 0, 126, 69],
            opens: true,
            shorts: true,
        },
    },
    Example {
        name: b"LP5867, 8 bits: dots at 24, 25 and 26, a dark one open",
        member: 3,
        mode: 0,
        levels: &[(0, 25), (1, 24), (8, 25), (125, 26)],
        reads: Readings {
            bytes: &[(0x64, 0x02), (0x66, 0x02)],
            dots: &[
                (0, 0),
                (1, 5),
                (2, 4),
                (8, 0),
                (9, 1),
                (16, 5),
                (125, 0),
                (126, 4),
            ],
            counts: [3, 1, 0, 0, 156, 38],
            opens: true,
            shorts: true,
        },
    },
    Example {
        name: b"LP5867, 16 bits: dots at 6400 and 6399, absent columns between",
        member: 3,
        mode: 3,
        levels: &[(0, 6400), (1, 6399), (125, 6400)],
        reads: Readings {
            bytes: &[],
            dots: &[
                (0, 0),
                (1, 5),
                (2, 4),
                (7, 4),
                (8, 5),
                (124, 5),
                (125, 0),
                (126, 4),
            ],
            counts: [2, 0, 0, 0, 156, 40],
            opens: true,
            shorts: true,
        },
    },
    Example {
        name: b"LP5868T, 8 bits: eight dim shorts, a dot at 25",
        member: 4,
        mode: 1,
        levels: &[(0, 24), (143, 25)],
        reads: Readings {
            bytes: &[(0x64, 0x01), (0x86, 0xFF)],
            dots: &[(0, 2), (7, 2), (8, 5), (143, 0), (144, 4)],
            counts: [1, 0, 8, 0, 54, 135],
            opens: true,
            shorts: true,
        },
    },
    Example {
        name: b"LP5868T, 16 bits: dots at 6399 and 6400, 064h says both",
        member: 4,
        mode: 3,
        levels: &[(142, 6399), (143, 6400)],
        reads: Readings {
            bytes: &[(0x64, 0x03)],
            dots: &[(0, 5), (142, 5), (143, 0), (144, 4)],
            counts: [1, 0, 0, 0, 54, 143],
            opens: false,
            shorts: false,
        },
    },
];

pub fn all(rt: &impl Print, tally: &mut Tally) {
    for example in &EXAMPLES {
        report::begin(rt, example.name);
        let record = records::with_levels(example.member, example.mode, example.levels);
        compare::reads(rt, tally, record, &example.reads, 0);
    }
}
