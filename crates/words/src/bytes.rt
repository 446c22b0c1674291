// The kinds of bytes, and how many of one kind a list begins with.
ghost use Rattle.std.specs.Prelude.{◌≡◌, length};
ghost use Rattle.words.specs.Leading.{leading};
ghost use Rattle.words.specs.Lines.{in_line};
ghost use Rattle.words.specs.Pieces.{numeral};

// Whether a byte is a sign, a digit or a point.
fn is_numeral(b: u8) -> bool
    ensures { result ≡ numeral b }
{
    b.is_ascii_digit() || b == b'+' || b == b'-' || b == b'.'
}

// How many signs, digits and points the bytes begin with.
pub(crate) fn numerals(s: &[u8]) -> usize
    ensures { result ≡ length (leading numeral s.now) }
{
    s.iter().take_while(|b| is_numeral(**b)).count()
}

// How many bytes the first line has, without its line feed.
pub fn line_length(s: &[u8]) -> usize
    ensures { result ≡ length (leading in_line s.now) }
{
    s.iter().take_while(|b| **b != b'\n').count()
}
