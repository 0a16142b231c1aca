// The sizes of a list: read, written and tested.
ghost use Rattle.std.specs.Prelude.{◌≡◌, ◌<◌, length};
ghost use Rattle.burst.specs.Burst.{byte_at, size16, put_size, lengths_from, lengths_good, sizes_of};

// What the sizes of a list say: n transactions of t bytes together.
#[derive(Clone, Copy)]
pub struct Sizes {
    pub n: usize,
    pub t: usize,
}

fn byte_at(list: &[u8], at: usize) -> usize
    ensures { result ≡ byte_at list.now at }
{
    list.get(at).copied().unwrap_or(0) as usize
}

// The size at a place; a byte behind the end counts as 0.
pub fn size_at(list: &[u8], at: usize) -> usize
    ensures { result ≡ size16 list.now at }
{
    if list.len() <= at {
        return 0;
    }
    byte_at(list, at) + 256 * byte_at(list, at + 1)
}

// Stores a size at a place; a byte behind the end is not stored.
pub fn put_size(buffer: &mut [u8], at: usize, size: usize)
    ensures { buffer.new ≡ put_size buffer.old at size }
{
    if buffer.len() <= at {
        return;
    }
    buffer[at] = (size % 256) as u8;
    let next = at + 1;
    if next < buffer.len() {
        buffer[next] = (size / 256 % 256) as u8;
    }
}

// Whether each of the n lengths is 3 or more, and together they are t.
fn lengths_good(list: &[u8], n: usize, t: usize) -> bool
    requires { n < 65536 }
    ensures { result ≡ lengths_good (lengths_from list.now 4 n) t }
{
    let mut sum: usize = 0;
    for i in 0..n {
        let length = size_at(list, 4 + 2 * i);
        if length < 3 {
            return false;
        }
        sum += length;
    }
    sum == t
}

// "A list whose sizes do not add up is refused whole."
pub fn read_sizes(list: &[u8]) -> Option<Sizes>
    ensures { result ≡ sizes_of list.now }
{
    if list.len() < 4 {
        return None;
    }
    let n = size_at(list, 0);
    let t = size_at(list, 2);
    if list.len() != 4 + 2 * n + t {
        return None;
    }
    if !lengths_good(list, n, t) {
        return None;
    }
    Some(Sizes { n, t })
}
