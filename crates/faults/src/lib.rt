// Lamp faults: what the fault bytes of a chip say of each lamp of its record.
//
// A chip has 67 fault bytes, 064h to 0A6h. 064h says whether some lamp is open (bit 1) and whether some lamp is short (bit 0).
// 065h to 085h have an open bit for each dot and 086h to 0A6h a short bit, three bytes a line, laid out as the switches. A dot
// reads 0 sound, 1 open, 2 short, 3 both, 4 where the member has no such dot. The bits of absent dots count for nothing. The chip
// looks for faults only at lamps that are bright enough: a lamp with clear bits that is dimmer in the chip image reads 5, untested.
//
// `faults` takes a record by value, and `faults_parts` one that its caller keeps elsewhere, with images of any length: another than 908
// is unsound.
#![tactic(auto)]

mod answers;
mod readings;
mod untested;

ghost use Rattle.std.specs.Prelude.{◌≡◌, get_or};
ghost use Rattle.map.specs.Refusals.{numbers_of};
ghost use Rattle.host.specs.Record.{record_behind};
ghost use Rattle.faults.specs.Faults.{answer_numbers, faults_answer, faults_result};

use host::{Record, RecordRef};
use map::Refusal;

// Whether 064h agrees with the open bits and with the short bits of the member's dots.
#[derive(Clone, Copy)]
pub struct Agreement {
    pub opens: bool,
    pub shorts: bool,
}

// 0 where Faults is accepted, else the refusal's number.
#[tactic(auto, unfolding(crate::specs::Faults::answer_numbers))]
pub fn answer_number(answer: Result<Agreement, Refusal>) -> u8
    ensures { result ≡ get_or (answer_numbers answer) 0 0 }
{
    match answer {
        Ok(_) => 0,
        Err(refusal) => map::refusal_number(refusal),
    }
}

// 0 and, for opens and for shorts, 1 where 064h agrees; or the refusal's number.
#[tactic(auto, unfolding(crate::specs::Faults::answer_numbers))]
pub fn answer_numbers(answer: Result<Agreement, Refusal>) -> map::Numbers
    ensures { result ≡ numbers_of (answer_numbers answer) }
{
    match answer {
        Ok(agrees) => map::with_values(0, agrees.opens as usize, agrees.shorts as usize),
        Err(refusal) => map::number_alone(map::refusal_number(refusal) as usize),
    }
}

// Faults on a record that is kept elsewhere.
pub fn faults_parts(r: RecordRef<'_>, bytes: &[u8], res: &mut [u8]) -> Result<Agreement, Refusal>
    ensures value { result ≡ faults_answer (record_behind r.entry) bytes.now res.old }
    ensures result_after { res.new ≡ faults_result (record_behind r.entry) bytes.now res.old }
{
    answers::checked(r, bytes.len(), res.len())?;
    let found = readings::read_all(r.header.member as usize, bytes, res);
    untested::mark(r.image, dots::wide(r.image), res);
    Ok(answers::read(bytes[0], found))
}

// The readings of 198 dots, by their numbers, go to the front of the result; a refusal leaves every byte of it as it is.
pub fn faults(r: Record, bytes: &[u8], res: &mut [u8]) -> Result<Agreement, Refusal>
    ensures value { result ≡ faults_answer r bytes.now res.old }
    ensures result_after { res.new ≡ faults_result r bytes.now res.old }
{
    faults_parts(r.lent(), bytes, res)
}
