// The list of a round: n and t, then the parts of the four places in pin order.
ghost use Rattle.std.specs.Prelude.{◌≡◌, map, ◌+◌, ◌*◌, ◌≤◌, length};
ghost use Rattle.burst.specs.Burst.{transaction_of};
ghost use Rattle.plan.specs.Portion.{portion};
ghost use Rattle.plan.specs.Update.{store_all};
ghost use Rattle.host.specs.Record.{record_behind};
ghost use Rattle.rounds.specs.Round.{round_parts, present_at};
ghost use Rattle.rounds.specs.Dealing.{records_of, waiting_of, Waits, AllWait, AllPlaced, DealtAre, put_part, RoundPut};

use crate::dealing::Dealt;
use crate::parts::put_writes;
use host::RecordRef;

// The part of a place, of so many bus bytes; none where it is absent. It answers the index of the next transaction.
fn put_at(
    buffer: &mut [u8],
    index: usize,
    at: usize,
    present: bool,
    r: RecordRef<'_>,
    image: &mut [u8],
    bytes: usize,
) -> usize
    requires lent { Waits present (record_behind r) }
    requires narrow { bytes ≤ 8192 }
    requires near { at ≤ 65536 }
    requires free { 4 + 2 * (index + length (portion bytes (waiting_of present (record_behind r)))) ≤ at }
    ensures value { result ≡ index + length (portion bytes (waiting_of present (record_behind r.entry))) }
    ensures buffer_after { buffer.new ≡
        put_part buffer.old index at
        (map (transaction_of r.entry.header.bus r.entry.header.pins) (portion bytes (waiting_of present (record_behind r.entry)))) }
    ensures image_after { image.new ≡ store_all (portion bytes (waiting_of present (record_behind r.entry))) image.old }
{
    if present {
        put_writes(buffer, index, at, r, image, bytes)
    } else {
        index
    }
}

// The whole list, to the front of the buffer. The images are copies of the old ones, and take what is sent.
pub(crate) fn put_round(
    buffer: &mut [u8],
    records: &[RecordRef<'_>; 4],
    present: [bool; 4],
    dealt: Dealt,
    images: &mut [[u8; 908]; 4],
    limit: usize,
)
    requires sound { AllWait (present_at present) (records_of records.now) }
    requires placed { AllPlaced (present_at present) (records_of records.now) }
    requires dealt { DealtAre limit (present_at present) (records_of records.now) dealt }
    requires limited { limit ≤ 4096 }
    ensures { RoundPut (round_parts (present_at present) (records_of records.now) limit) buffer.old buffer.new images.old images.new }
{
    writes::put_header(buffer, dealt.writes, dealt.total());
    let mut at = 4 + 2 * dealt.writes;
    let mut next = 0;
    for place in 0..4 {
        let bytes = dealt.bytes[place];
        next = put_at(
            buffer,
            next,
            at,
            present[place],
            records[place],
            &mut images[place],
            bytes,
        );
        at += bytes;
    }
}
