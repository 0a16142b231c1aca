// Refusals 14, 13 and 10: each alone, and what comes first where several apply. 1 never occurs.
use crate::tally::Tally;
use crate::{compare, report};
use host::Record;

// Which record a case is about.
#[derive(Clone, Copy)]
enum Subject {
    // as opened, of a member
    Opened(usize),
    OfMember5,
    UnsoundSettings,
    UnsoundImage,
}

// So many fault bytes, so much room, and the number of the answer; 0 stands for no refusal.
#[derive(Clone, Copy)]
struct Case {
    name: &'static [u8],
    subject: Subject,
    given: usize,
    room: usize,
    number: u8,
}

static CASES: [Case; 14] = [
    Case {
        name: b"member 5",
        subject: Subject::OfMember5,
        given: 67,
        room: 200,
        number: 14,
    },
    Case {
        name: b"unsound settings",
        subject: Subject::UnsoundSettings,
        given: 67,
        room: 200,
        number: 14,
    },
    Case {
        name: b"an unsound image",
        subject: Subject::UnsoundImage,
        given: 67,
        room: 200,
        number: 14,
    },
    Case {
        name: b"member 5 before 66 bytes",
        subject: Subject::OfMember5,
        given: 66,
        room: 200,
        number: 14,
    },
    Case {
        name: b"an unsound image before a result of 197",
        subject: Subject::UnsoundImage,
        given: 67,
        room: 197,
        number: 14,
    },
    Case {
        name: b"unsound settings before both",
        subject: Subject::UnsoundSettings,
        given: 66,
        room: 197,
        number: 14,
    },
    Case {
        name: b"66 bytes",
        subject: Subject::Opened(0),
        given: 66,
        room: 200,
        number: 13,
    },
    Case {
        name: b"68 bytes",
        subject: Subject::Opened(4),
        given: 68,
        room: 200,
        number: 13,
    },
    Case {
        name: b"no bytes",
        subject: Subject::Opened(3),
        given: 0,
        room: 200,
        number: 13,
    },
    Case {
        name: b"66 bytes before a result of 197",
        subject: Subject::Opened(4),
        given: 66,
        room: 197,
        number: 13,
    },
    Case {
        name: b"a result of 197",
        subject: Subject::Opened(0),
        given: 67,
        room: 197,
        number: 10,
    },
    Case {
        name: b"a result of 0",
        subject: Subject::Opened(4),
        given: 67,
        room: 0,
        number: 10,
    },
    Case {
        name: b"member 4, 67 bytes and a result of 198",
        subject: Subject::Opened(4),
        given: 67,
        room: 198,
        number: 0,
    },
    Case {
        name: b"member 0, 67 bytes and a result of 200",
        subject: Subject::Opened(0),
        given: 67,
        room: 200,
        number: 0,
    },
];

fn opened(member: usize) -> Record {
    host::open(member, 0, 0).host
}

fn record_of(subject: Subject) -> Record {
    match subject {
        Subject::Opened(member) => opened(member),
        Subject::OfMember5 => {
            let mut record = opened(4);
            record.header.member = 5;
            record
        }
        // 001h has a reserved bit, bit 7
        Subject::UnsoundSettings => {
            let mut record = opened(0);
            record.settings[0x001] = 0xDE;
            record
        }
        Subject::UnsoundImage => {
            let mut record = opened(0);
            record.image[0x001] = 0xDE;
            record
        }
    }
}

pub fn all(rt: &impl Print, tally: &mut Tally) {
    for case in &CASES {
        report::begin(rt, case.name);
        let record = record_of(case.subject);
        compare::answers(rt, tally, record, case.given, case.room, case.number);
    }
}
