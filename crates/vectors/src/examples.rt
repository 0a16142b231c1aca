// The bench examples that concern the map.
use crate::compare::is_at;
use crate::report;
use crate::tally::Count;
use map::Field;

fn shown(rt: &impl Print, count: &mut Count, text: &[u8], agrees: bool) {
    report::example(rt, text, agrees);
    count.compared(agrees);
}

fn begins(field: Field, member: usize, line: usize, sink: usize, at: usize) -> bool {
    map::place_of(field, member, line, sink).is_some_and(|place| is_at(place, at, 0))
}

pub fn run(rt: &impl Print) -> Count {
    let writable = map::writable(3, 0x226) && begins(Field::Pwm16, 3, 1, 1, 0x226);
    let hole = !map::writable(3, 0x228);
    let eight = begins(Field::Pwm8, 0, 8, 2, 0x292);
    // the high byte is at the next address
    let sixteen = begins(Field::Pwm16, 0, 4, 1, 0x292) && map::writable(0, 0x293);
    let current = begins(Field::Current, 3, 2, 8, 0x12C);
    let absent = !map::is_dot(3, 2, 2);
    let mut count = Count::default();
    shown(
        rt,
        &mut count,
        b"LP5867 226 is writable, 16 bits of line 1, sink 1",
        writable,
    );
    shown(rt, &mut count, b"LP5867 228 is a hole, not writable", hole);
    shown(
        rt,
        &mut count,
        b"LP5860 line 8, sink 2: 8 bits at 292",
        eight,
    );
    shown(
        rt,
        &mut count,
        b"LP5860 line 4, sink 1: 16 bits at 292 and 293",
        sixteen,
    );
    shown(
        rt,
        &mut count,
        b"LP5867 line 2, sink 8: current at 12C",
        current,
    );
    shown(rt, &mut count, b"LP5867 line 2, sink 2 is no dot", absent);
    count
}
