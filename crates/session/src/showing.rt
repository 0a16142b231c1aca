// `settings`, `image` and `chip`: the bytes are shown from the buffer.
ghost use Rattle.std.specs.Prelude.{◌≡◌, length};
ghost use Rattle.session.specs.Run.{Does, part_bytes, shown_bytes};

use crate::Session;
use crate::outcomes::Outcome;
use history::World;
use replies::Reply;
use script::Part;

#[tactic(auto, unfolding(crate::specs::Run::part_bytes))]
fn bytes_of(world: &World, part: Part) -> &[u8; 908]
    ensures { result.now ≡ part_bytes world.now part }
{
    match part {
        Part::Settings => &world.host.settings,
        Part::Image => &world.host.image,
        Part::Chip => &world.chip.registers,
    }
}

pub(crate) fn show(session: Session, part: Part, buffer: &mut [u8]) -> Outcome
    requires { length buffer.old ≡ 8192 }
    ensures { Does result buffer.new (shown_bytes session (part_bytes session.world part)) }
{
    Outcome {
        reply: Reply::Bytes,
        shown: text::put_text(buffer, 0, bytes_of(&session.world, part)),
        session,
    }
}
