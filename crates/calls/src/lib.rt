// The calls that a panel makes on its record, as values: the one table of them. The record, a scene's bytes and a list's buffer are
// lent beside a call.
#![tactic(auto)]

// A setting changes the settings of a record and nothing else, and answers a number alone.
#[derive(Clone, Copy)]
pub enum Setting {
    // one register, a whole byte
    Register {
        address: usize,
        value: usize,
    },
    // the level of one dot
    Lamp {
        line: usize,
        sink: usize,
        level: usize,
    },
    // the brightness group of one dot
    Group {
        line: usize,
        sink: usize,
        group: usize,
    },
    // one dot on (1) or off (0)
    Switch {
        line: usize,
        sink: usize,
        state: usize,
    },
    // many levels at once; the bytes are lent
    Scene,
}

// A call of the claim about whole lists. Reset and Update write a list into the buffer that is lent.
#[derive(Clone, Copy)]
pub enum Request {
    Set(Setting),
    Reset,
    PowerLost,
    Update,
    // of the factory-set registers
    Lock,
}
