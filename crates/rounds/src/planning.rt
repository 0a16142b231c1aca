// What a round refuses, and how it is dealt out: nothing is written yet.
ghost use Rattle.std.specs.Prelude.{MatchResult};
ghost use Rattle.rounds.specs.Round.{present_at};
ghost use Rattle.rounds.specs.Dealing.{records_of, Planned, Refusing};

use crate::dealing::Dealt;
use crate::{dealing, refusals};
use host::RecordRef;
use map::Refusal;

// "10 goes by this list."
pub(crate) fn plan(
    records: &[RecordRef<'_>; 4],
    present: [bool; 4],
    limit: usize,
    size: usize,
) -> Result<Dealt, Refusal>
    ensures { MatchResult result (Planned limit size (present_at present) (records_of records.now))
        (Refusing limit size (present_at present) (records_of records.now)) }
{
    refusals::refusal(records, present, limit)?;
    let dealt = dealing::deal_out(records, present, limit);
    if size < 4 + 2 * dealt.writes + dealt.total() {
        return Err(Refusal::BufferShort);
    }
    Ok(dealt)
}
