// A picture of a panel: a line for each scan line of the member, a character for each of the sinks 0 to 17.
ghost use Rattle.std.specs.Prelude.{◌≡◌, ℕ, ◌<◌};
ghost use Rattle.text.specs.Text.{Puts};
ghost use Rattle.pictures.specs.Pictures.{Draws, row_text, picture_text};

fn put_row<F: Fn(usize, usize) -> u8>(text: &mut [u8], at: usize, line: usize, char_of: &F) -> usize
    requires { (sink : ℕ) → sink < 18 → F.pre char_of.now line sink }
    ensures { (char : ℕ → ℕ → ℕ) → Draws (F.post char_of.now) char → Puts text.old at (row_text char line) text.new result }
{
    let mut next = at;
    for sink in 0..18 {
        next = text::put(text, next, char_of(line, sink));
    }
    next
}

pub fn put_picture<F: Fn(usize, usize) -> u8>(
    text: &mut [u8],
    at: usize,
    member: usize,
    char_of: F,
) -> usize
    requires { (line sink : ℕ) → line < 11 → sink < 18 → F.pre char_of line sink }
    ensures { (char : ℕ → ℕ → ℕ) → Draws (F.post char_of) char → Puts text.old at (picture_text member char) text.new result }
{
    let lines = map::lines(member);
    if lines == 0 {
        return at;
    }
    let mut next = put_row(text, at, 0, &char_of);
    for line in 1..lines {
        next = text::put(text, next, b'\n');
        next = put_row(text, next, line, &char_of);
    }
    next
}
