// The records that the examples are read on. Lamps are lit by calls on the settings, as a program lights them, and the image is such settings:
// what an update makes of it. Since the image alone counts, the record's own settings have another width, and bright lamps beside dim ones.
use host::Record;

// A new record of the member, all its levels 0, in a data mode: bits 2 and 1 of 001h, which is 5Eh at reset.
fn in_mode(member: usize, mode: u8) -> Record {
    let opened = host::open(member, 0, 0).host;
    host::register(opened, 0x001, 0x58 + 2 * (mode % 4)).host
}

// All lamps at one level. The calls for absent dots are refused, and change nothing.
fn lit(member: usize, mode: u8, level: usize) -> Record {
    let mut panel = in_mode(member, mode);
    for dot in 0..198 {
        panel = host::lamp(panel, dot / 18, dot % 18, level).host;
    }
    panel
}

// The largest level in a data mode.
fn top(mode: u8) -> usize {
    if mode < 2 { 255 } else { 65535 }
}

// The settings of a panel as the image of a record, beside settings of the other width with every lamp at its largest level, or at 0.
fn beside(panel: Record, mode: u8, bright: bool) -> Record {
    let other = 3 - mode % 4;
    let member = panel.header.member as usize;
    let settings = lit(member, other, if bright { top(other) } else { 0 });
    Record {
        header: panel.header,
        settings: settings.settings,
        image: panel.settings,
    }
}

// A record whose lamps all have one level in the image; `dim` says of which kind that is.
pub fn all_at(member: usize, mode: u8, level: usize, dim: bool) -> Record {
    beside(lit(member, mode, level), mode, dim)
}

// A record whose lamps have these levels in the image, by dot. All others have 0.
pub fn with_levels(member: usize, mode: u8, levels: &[(u8, usize)]) -> Record {
    let mut panel = in_mode(member, mode);
    for (dot, level) in levels {
        let number = *dot as usize;
        panel = host::lamp(panel, number / 18, number % 18, *level).host;
    }
    beside(panel, mode, true)
}
