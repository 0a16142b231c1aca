// The words of a line, separated by single spaces. A space at either end and a doubled one make empty words, which nothing
// below takes for a call, a number or a byte string.
ghost use Rattle.std.specs.Prelude.{◌≡◌, ◌≤◌, length};
ghost use Rattle.script.specs.Words.{length_to, word_at, word_count};

// How many words a line has: one more than it has spaces.
pub(crate) fn count(line: &[u8]) -> usize
    ensures { result ≡ word_count line.now }
{
    1 + line.iter().filter(|byte| **byte == b' ').count()
}

// How long the first line of a text is, its LF not counted.
pub fn line_length(text: &[u8]) -> usize
    ensures { (result ≡ length_to 0x0A text.now) × (result ≤ length text.now) }
{
    text.iter()
        .position(|byte| *byte == b'\n')
        .unwrap_or(text.len())
}

// Word n, counted from 0; empty where there is none.
pub fn word(line: &[u8], n: usize) -> &[u8]
    ensures { result.now ≡ word_at line.now n }
{
    line.split(|byte| *byte == b' ').nth(n).unwrap_or(&[])
}
