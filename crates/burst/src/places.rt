// Where a transaction stands in its list.
ghost use Rattle.std.specs.Prelude.{◌≡◌, ◌<◌};
ghost use Rattle.burst.specs.Burst.{n_of, bytes_before, place_of};

use crate::sizes;
use crate::sizes::Sizes;

// The first byte of a transaction, and how many it has.
#[derive(Clone, Copy)]
pub struct Place {
    pub offset: usize,
    pub length: usize,
}

#[derive(Clone, Copy, PartialEq, Eq)]
pub enum PlaceError {
    // the list's sizes do not add up
    BadSizes,
    // an index of n or more
    NoIndex,
}

// What the lengths before the one at `index` add to.
fn bytes_before(list: &[u8], index: usize) -> usize
    requires { index < n_of list.now }
    ensures { result ≡ bytes_before list.now index }
{
    let mut bytes: usize = 0;
    for i in 0..index {
        bytes += sizes::size_at(list, 4 + 2 * i);
    }
    bytes
}

// The place of the transaction with this number, counted from 0.
pub fn transaction(list: &[u8], index: usize) -> Result<Place, PlaceError>
    ensures { result ≡ place_of list.now index }
{
    let Sizes { n, t: _ } = sizes::read_sizes(list).ok_or(PlaceError::BadSizes)?;
    if n <= index {
        return Err(PlaceError::NoIndex);
    }
    let offset = 4 + 2 * n + bytes_before(list, index);
    let length = sizes::size_at(list, 4 + 2 * index);
    Ok(Place { offset, length })
}
