// The lines of an input.
ghost use Rattle.std.specs.Prelude.{◌≡◌, ◌<◌, ◌∷◌, length};
ghost use Rattle.std.specs.Iterator.{YieldsFirstRef, item_count};
ghost use Rattle.comparison.specs.Lines.{lines_of};

use lines::cut;

/// The lines that are left of an input.
#[derive(Drop)]
pub(crate) struct InputLines<'a> {
    left: &'a [u8],
}

impl<'a> From<&'a [u8]> for InputLines<'a> {
    ghost from_gives = { λ input lines. lines.left.now ≡ input.now };

    fn from(input: &'a [u8]) -> InputLines<'a> {
        InputLines { left: input }
    }
}

impl<'a> Iterator for InputLines<'a> {
    type Item = &'a [u8];

    ghost next_gives = { YieldsFirstRef (λ lines. lines_of lines.left.now) };

    ghost remaining = { item_count (λ lines. lines_of lines.left.now) };

    fn next(&mut self) -> Option<&'a [u8]> {
        if self.left.is_empty() {
            return None;
        }
        let (line, rest) = first_line(self.left);
        self.left = rest;
        Some(line)
    }
}

// The first line of a text that is not empty, and what follows its newline.
fn first_line(text: &[u8]) -> (&[u8], &[u8])
    requires { 0 < length text.now }
    ensures { lines_of text.now ≡ result.0.now ∷ lines_of result.1.now }
{
    let (line, rest) = cut(text, b'\n');
    (line, rest.unwrap_or(&[]))
}
