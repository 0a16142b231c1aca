// The lights that each example is read in: every data mode, with all lamps one level below the figure and at it.
use crate::compare::Readings;
use crate::examples::EXAMPLES;
use crate::tally::Tally;
use crate::{compare, records, report};

// At the figure the chip looks for faults, below it it does not.
#[derive(Clone, Copy)]
struct Light {
    mode: u8,
    level: usize,
    dim: bool,
}

static LIGHTS: [Light; 8] = [
    Light {
        mode: 0,
        level: 24,
        dim: true,
    },
    Light {
        mode: 0,
        level: 25,
        dim: false,
    },
    Light {
        mode: 1,
        level: 24,
        dim: true,
    },
    Light {
        mode: 1,
        level: 25,
        dim: false,
    },
    Light {
        mode: 2,
        level: 6399,
        dim: true,
    },
    Light {
        mode: 2,
        level: 6400,
        dim: false,
    },
    Light {
        mode: 3,
        level: 6399,
        dim: true,
    },
    Light {
        mode: 3,
        level: 6400,
        dim: false,
    },
];

// Of dim lamps those with clear bits read 5.
fn untested(reads: Readings) -> Readings {
    let [sound, opens, shorts, both, absent, _] = reads.counts;
    Readings {
        counts: [0, opens, shorts, both, absent, sound],
        ..reads
    }
}

// Every example of the members in each light.
pub fn all(rt: &impl Print, tally: &mut Tally) {
    for example in &EXAMPLES {
        for light in &LIGHTS {
            report::begin(rt, example.name);
            report::light(rt, light.mode, light.level);
            let record = records::all_at(example.member, light.mode, light.level, light.dim);
            if light.dim {
                compare::reads(rt, tally, record, &untested(example.reads), 5);
            } else {
                compare::reads(rt, tally, record, &example.reads, 0);
            }
        }
    }
}
