// The calls that write a list: what is answered is fed to the chip at once, exactly its 4 + 2n + t bytes.
ghost use Rattle.std.specs.Prelude.{◌≡◌, length};
ghost use Rattle.history.specs.Step.{Within, fed_by, leaving, list_step, update_step};

use crate::{CallAnswer, Stepped, World};
use chip::Chip;
use update::{ListAnswer, Listed, Sent, Updated};

// The chip after the list that was answered.
fn fed(answer: ListAnswer, chip: Chip, buffer: &[u8]) -> Chip
    requires { Within answer (length buffer.now) }
    ensures { result ≡ fed_by answer buffer.now chip }
{
    match answer {
        Ok(Listed { n, t }) => chip::feed(chip, &buffer[..4 + 2 * n + t]).chip,
        Err(_) => chip,
    }
}

// What Reset or Clear gave back, and the buffer that it left.
pub(crate) fn listed(sent: Sent, chip: Chip, buffer: &[u8]) -> Stepped
    requires { Within sent.answer (length buffer.now) }
    ensures { leaving result buffer.now ≡ list_step sent buffer.now chip }
{
    Stepped {
        answer: CallAnswer::List(sent.answer),
        world: World {
            host: sent.host,
            chip: fed(sent.answer, chip, buffer),
        },
    }
}

// What Update gave back, and the buffer that it left. (It answers another case than `listed`; one function of five parameters is no plainer.)
pub(crate) fn updated(updated: Updated, chip: Chip, buffer: &[u8]) -> Stepped
    requires { Within updated.answer (length buffer.now) }
    ensures { leaving result buffer.now ≡ update_step updated buffer.now chip }
{
    Stepped {
        answer: CallAnswer::Update {
            list: updated.answer,
            stored: updated.stored,
        },
        world: World {
            host: updated.host,
            chip: fed(updated.answer, chip, buffer),
        },
    }
}
