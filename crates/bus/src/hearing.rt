// The list of a round is fed to every chip of the bus, present or not.
ghost use Rattle.std.specs.Prelude.{◌≡◌, length};
ghost use Rattle.history.specs.Step.{Within};
ghost use Rattle.bus.specs.Bus.{heard_by, all_hear, heard_list};

use history::World;
use host::Record;
use std::array;
use update::{ListAnswer, Listed};

// The panel of a place with this record, once its chip has heard a list. A chip on SPI or with other pins hangs on other wires.
fn hear(place: usize, world: World, host: Record, list: &[u8]) -> World
    ensures { result ≡ heard_by place world host list.now }
{
    let chip = world.chip;
    if chip.bus == 0 && chip.pins as usize == place {
        let fed = chip::feed(chip, list);
        World {
            host,
            chip: fed.chip,
        }
    } else {
        World { host, chip }
    }
}

fn all_hear(panels: [World; 4], records: [Record; 4], list: &[u8]) -> [World; 4]
    ensures { result ≡ all_hear panels records list.now }
{
    array::from_fn(|place| hear(place, panels[place], records[place], list))
}

// The panels with the records that a round gave back, once their chips have heard what it answered: the first 4 + 2n + t bytes.
pub(crate) fn heard(
    answer: ListAnswer,
    panels: [World; 4],
    records: [Record; 4],
    buffer: &[u8],
) -> [World; 4]
    requires { Within answer (length buffer.now) }
    ensures { result ≡ heard_list answer panels records buffer.now }
{
    match answer {
        Ok(Listed { n, t }) => {
            let size = 4 + 2 * n + t;
            all_hear(panels, records, &buffer[..size])
        }
        Err(_) => panels,
    }
}
