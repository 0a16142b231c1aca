// A C program on the panel: one call of include/lp586x.h after the other, on the bytes of a record and of its chip.
//
// A call is made on the record's bytes. Where it answers 0 and wrote a list, the first 4 + 2n + t bytes of the buffer are fed to the
// chip at once, and a loss of power is told to both. The crate panel_demand has the claim about whole lists of such calls.
#![tactic(auto)]

ghost use Rattle.std.specs.Prelude.{◌≡◌, ◌+◌, ◌*◌, ◌≤◌, length};
ghost use Rattle.panel.specs.PanelStep.{panel_of, stepped, panel_step, chip_fed};

use calls::Request;

// One call, as the program makes it, with the pointers of include/lp586x.h, each a parameter as it is there. A setting is one of the
// five functions, which hand it to `capi::set`. The chip loses its power whatever the record answers.
pub fn call(
    host: &mut [u8],
    chip: &mut [u8],
    request: Request,
    lent: &mut [u8],
    n: &mut u32,
    t: &mut u32,
    stored: &mut u32,
    needed: &mut u32,
) -> u32
    ensures { stepped result (panel_of host.new chip.new) lent.new n.new t.new stored.new needed.new ≡
        panel_step (panel_of host.old chip.old) request lent.old n.old t.old stored.old needed.old }
{
    match request {
        Request::Set(setting) => capi::set(host, setting, lent),
        Request::Reset => {
            let answer = capi::lp586x_reset(host, lent, n, t);
            feed(answer, chip, lent, *n, *t);
            answer
        }
        Request::PowerLost => {
            capi::lp586x_chip_power_lost(chip);
            capi::lp586x_power_lost(host)
        }
        Request::Update => {
            let answer = capi::lp586x_update(host, lent, n, t, stored, needed);
            feed(answer, chip, lent, *n, *t);
            answer
        }
        Request::Lock => capi::lp586x_lock(host),
    }
}

// The list of a call that answered 0 goes to the chip: the first 4 + 2n + t bytes of its buffer.
fn feed(answer: u32, chip: &mut [u8], buffer: &[u8], n: u32, t: u32)
    requires { answer ≡ 0 → 4 + 2 * n + t ≤ length buffer.now }
    ensures { chip.new ≡ chip_fed answer n t buffer.now chip.old }
{
    if answer != 0 {
        return;
    }
    let size = 4 + 2 * (n as usize) + (t as usize);
    capi::lp586x_chip_feed(chip, &buffer[..size]);
}
