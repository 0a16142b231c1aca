// Dim lamps: the chip does not look for their faults.
ghost use Rattle.std.specs.Prelude.{◌≡◌, ◌≤◌, length};
ghost use Rattle.map.specs.Lists.{filled};
ghost use Rattle.dots.specs.Dots.{wide_of};
ghost use Rattle.faults.specs.Faults.{tested_from};
ghost use Rattle.faults.specs.Passes.{tested_at, unless_dim};

// The least level at which the chip looks for opens and shorts, in data modes 0 and 1. Document 002, lines 622 and 633: "PWM ≥ 25 (Mode 1
// and Mode 2) or PWM ≥ 6400 (Mode 3)".
const TESTED_FROM_NARROW: usize = 25;

// And in data modes 2 and 3.
const TESTED_FROM_WIDE: usize = 6400;

#[tactic(auto, unfolding(crate::specs::Faults::tested_from, crate::specs::Faults::tested_from_wide, crate::specs::Faults::tested_from_narrow))]
fn tested_from(wide: bool) -> usize
    ensures { result ≡ tested_from wide }
{
    if wide {
        TESTED_FROM_WIDE
    } else {
        TESTED_FROM_NARROW
    }
}

// A reading by the bits; of a lamp with clear bits, 5 where it is dim.
#[tactic(auto, unfolding(crate::specs::Passes::unless_dim))]
fn unless_dim(reading: u8, dim: bool) -> u8
    ensures { result ≡ unless_dim dim reading }
{
    if reading == 0 && dim { 5 } else { reading }
}

// Of the readings by the bits, each 0 of a lamp that is dim in the image becomes 5. `wide` is whether the image has levels of 16 bits.
pub(crate) fn mark(image: &[u8], wide: bool, res: &mut [u8])
    requires { (wide ≡ wide_of image.now) × (198 ≤ length res.old) }
    ensures { res.new ≡ filled (tested_at image.now res.old) 0 198 res.old }
{
    let figure = tested_from(wide);
    for dot in 0..198 {
        let dim = dots::level_as(image, wide, dot as u8) < figure;
        res[dot] = unless_dim(res[dot], dim);
    }
}
