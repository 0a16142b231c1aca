// A round over four records that stand back to back in the caller's bytes.
ghost use Rattle.std.specs.Prelude.{◌≡◌, cond, ◌+◌, ◌<◌, length, map, take, drop};
ghost use Rattle.host.specs.Record.{record_behind};
ghost use Rattle.update.specs.Update.{is_listed};
ghost use Rattle.rounds.specs.Round.{present_at, record_at, round_buffer, round_of};
ghost use Rattle.capi.specs.Capi.{image_at, place_at, record_from, records_in, records_bytes, kept_to, round_sized};

use crate::records;
use crate::records::{IMAGE, RECORD_SIZE};
use host::RecordRef;
use update::ListAnswer;

// Four records, and no mark beyond them.
#[tactic(auto, unfolding(crate::specs::Capi::round_sized))]
pub(crate) fn sized(bytes: &[u8], present: u32) -> bool
    ensures { result ≡ round_sized bytes.now present }
{
    bytes.len() == 4 * RECORD_SIZE && present <= 15
}

fn record_at(bytes: &[u8], place: usize) -> RecordRef<'_>
    requires { (length bytes.now ≡ place_at 4) × (place < 4) }
    ensures { record_behind result ≡ record_from bytes.now place }
{
    let at = RECORD_SIZE * place;
    records::record(&bytes[at..at + RECORD_SIZE])
}

fn records(bytes: &[u8]) -> [RecordRef<'_>; 4]
    requires { length bytes.now ≡ place_at 4 }
    ensures { map record_behind result ≡ records_in bytes.now }
{
    [
        record_at(bytes, 0),
        record_at(bytes, 1),
        record_at(bytes, 2),
        record_at(bytes, 3),
    ]
}

// A copy of the chip image at a place.
fn image(bytes: &[u8], place: usize) -> [u8; 908]
    requires { (length bytes.now ≡ place_at 4) × (place < 4) }
    ensures { result ≡ take 908 (drop (place_at place + image_at) bytes.now) }
{
    let at = RECORD_SIZE * place + IMAGE;
    let mut image = [0u8; 908];
    image.copy_from_slice(&bytes[at..at + 908]);
    image
}

// The images that a round leaves, each into its own record. An absent record is not written.
fn put_back(present: [bool; 4], bytes: &mut [u8], images: &[[u8; 908]; 4])
    requires { length bytes.old ≡ place_at 4 }
    ensures { bytes.new ≡ kept_to 4 present bytes.old images.now }
{
    for (place, image) in images.iter().enumerate() {
        if present[place] {
            let at = RECORD_SIZE * place + IMAGE;
            bytes[at..at + 908].copy_from_slice(image);
        }
    }
}

// A round on bytes of the right size.
pub(crate) fn round(
    bytes: &mut [u8],
    present: [bool; 4],
    limit: usize,
    buffer: &mut [u8],
) -> ListAnswer
    requires { length bytes.old ≡ place_at 4 }
    ensures value { result ≡ (round_of (records_in bytes.old) present limit (length buffer.old)).answer }
    ensures bytes_after { bytes.new ≡
        cond (is_listed result) (records_bytes (round_of (records_in bytes.old) present limit (length buffer.old)).records) bytes.old }
    ensures buffer_after { buffer.new ≡ round_buffer (present_at present) (record_at (records_in bytes.old)) limit buffer.old }
{
    let mut images = [
        image(bytes, 0),
        image(bytes, 1),
        image(bytes, 2),
        image(bytes, 3),
    ];
    let answer = rounds::round_images(&records(bytes), present, limit, &mut images, buffer);
    if answer.is_ok() {
        put_back(present, bytes, &images);
    }
    answer
}
