// Four panels on one bus: a round sends each present chip a part of what waits for it, at most so many bus bytes in all.
#![tactic(auto)]

mod dealing;
mod parts;
mod planning;
mod refusals;
mod writing;

ghost use Rattle.std.specs.Prelude.{◌≡◌, cond, [], ◌∷◌, eqb, length, map};
ghost use Rattle.host.specs.Record.{record_of, record_behind};
ghost use Rattle.rounds.specs.Round.{present_by, present_at, record_at, round_answer, round_buffer, round_of};
ghost use Rattle.rounds.specs.Dealing.{records_of, CopiesOf, with_images, ImagesAfter};

use host::{Record, RecordRef};
use std::array;
use update::{ListAnswer, Listed};

// The answer of a round, and the records that it gives back.
#[derive(Clone, Copy)]
pub struct Rounded {
    pub answer: ListAnswer,
    pub records: [Record; 4],
}

// Bit k of the marks says that place k is present.
pub fn present_by(marks: usize) -> [bool; 4]
    ensures { result ≡ present_by marks }
{
    [
        marks % 2 == 1,
        marks / 2 % 2 == 1,
        marks / 4 % 2 == 1,
        marks / 8 % 2 == 1,
    ]
}

// A round over copies of the four chip images, which take what is sent. Sizes come first, so that a short buffer is refused before a byte
// is written.
pub fn round_images(
    records: &[RecordRef<'_>; 4],
    present: [bool; 4],
    limit: usize,
    images: &mut [[u8; 908]; 4],
    buffer: &mut [u8],
) -> ListAnswer
    ensures value { result ≡ round_answer (present_at present) (records_of records.now) limit (length buffer.old) }
    ensures buffer_after { buffer.new ≡ round_buffer (present_at present) (records_of records.now) limit buffer.old }
    ensures images_after { ImagesAfter (present_at present) (records_of records.now) limit (length buffer.old) images.old images.new }
{
    let dealt = planning::plan(records, present, limit, buffer.len())?;
    writing::put_round(buffer, records, present, dealt, images, limit);
    Ok(Listed {
        n: dealt.writes,
        t: dealt.total(),
    })
}

// The bytes of a copy, where it is an image; else it is not written.
fn copied(bytes: &[u8]) -> [u8; 908]
    ensures { length bytes.now ≡ 908 → result ≡ bytes.now }
{
    let image: Result<&[u8; 908], _> = bytes.try_into();
    match image {
        Ok(image) => *image,
        Err(_) => [0; 908],
    }
}

fn put_back(bytes: &mut [u8], image: &[u8; 908])
    ensures { bytes.new ≡ cond (eqb (length bytes.old) 908) image.now bytes.old }
{
    if bytes.len() == 908 {
        bytes.copy_from_slice(image);
    }
}

// A round on lent images, over copies of any length: a record with an image of another length is unsound, and no place takes anything then.
pub fn round_parts(
    records: &[RecordRef<'_>; 4],
    present: [bool; 4],
    limit: usize,
    first: &mut [u8],
    second: &mut [u8],
    third: &mut [u8],
    fourth: &mut [u8],
    buffer: &mut [u8],
) -> ListAnswer
    ensures value { result ≡ round_answer (present_at present) (records_of records.now) limit (length buffer.old) }
    ensures buffer_after { buffer.new ≡ round_buffer (present_at present) (records_of records.now) limit buffer.old }
    ensures images_after { ImagesAfter (present_at present) (records_of records.now) limit (length buffer.old)
        (first.old ∷ second.old ∷ third.old ∷ fourth.old ∷ []) (first.new ∷ second.new ∷ third.new ∷ fourth.new ∷ []) }
{
    let mut images = [copied(first), copied(second), copied(third), copied(fourth)];
    let answer = round_images(records, present, limit, &mut images, buffer);
    put_back(first, &images[0]);
    put_back(second, &images[1]);
    put_back(third, &images[2]);
    put_back(fourth, &images[3]);
    answer
}

fn lent(records: &[Record; 4]) -> [RecordRef<'_>; 4]
    ensures { map record_behind result ≡ records.now }
{
    array::from_fn(|place| records[place].lent())
}

// A copy of each chip image.
fn images(records: [Record; 4]) -> [[u8; 908]; 4]
    ensures { CopiesOf records result }
{
    let mut images = [[0; 908]; 4];
    for place in 0..4 {
        images[place] = records[place].image;
    }
    images
}

fn with_image(mut r: Record, image: [u8; 908]) -> Record
    ensures { result ≡ record_of r.header r.settings image }
{
    r.image = image;
    r
}

fn with_images(records: [Record; 4], images: [[u8; 908]; 4]) -> [Record; 4]
    ensures { result ≡ with_images records images }
{
    array::from_fn(|place| with_image(records[place], images[place]))
}

// A round over four records, any of them marked absent: that is neither checked nor changed. At most `limit` bus bytes are sent, each
// present chip gets at least what fits a quarter of them, and its chip image takes what it is sent.
pub fn round(records: [Record; 4], present: [bool; 4], limit: usize, buffer: &mut [u8]) -> Rounded
    ensures value { result ≡ round_of records present limit (length buffer.old) }
    ensures buffer_after { buffer.new ≡ round_buffer (present_at present) (record_at records) limit buffer.old }
{
    let mut images = images(records);
    let answer = round_images(&lent(&records), present, limit, &mut images, buffer);
    Rounded {
        answer,
        records: with_images(records, images),
    }
}
