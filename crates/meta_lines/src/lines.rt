ghost use Rattle.std.specs.Prelude.{◌≡◌, ◌<◌, ◌∷◌, length};
ghost use Rattle.std.specs.Str.Lines.{strip_carriage_return};
ghost use Rattle.meta_lines.specs.Lines.{lines_of};

use super::pieces::cut;
use std::marker::Model;

/// The line without the CR at its end, if it has one. Only one CR is taken off.
fn without_cr(line: &[u8]) -> &[u8]
    ensures { result.now ≡ strip_carriage_return line.now }
{
    match line {
        [front @ .., b'\r'] => front,
        _ => line,
    }
}

fn first_line(input: &[u8]) -> (&[u8], &[u8])
    requires { 0 < length input.now }
    ensures { lines_of input.now ≡ result.0.now ∷ lines_of result.1.now }
{
    let (line, rest) = cut(input, b'\n');
    (without_cr(line), rest.unwrap_or(&[]))
}

/// An iterator over the lines of an input, as parts of it. The input is cut at each LF, and each line loses one CR at its end. What comes
/// after the last LF is a line if it isn't empty. A contract sees the lines that are left.
#[derive(Drop)]
pub struct Lines<'a> {
    rest: &'a [u8],
}

impl<'a> Model for Lines<'a> {
    ghost use Rattle.std.specs.Prelude.{List, ℕ};

    ghost Value = { List (List ℕ) };

    ghost use Rattle.meta_lines.specs.Lines.{lines_of};

    ghost view = { λ l. lines_of l.rest.now };
}

impl<'a> Lines<'a> {
    /// Makes an iterator over the lines of the input.
    pub fn new(input: &'a [u8]) -> Self
        ensures { result ≡ lines_of input.now }
    {
        Lines { rest: input }
    }
}

impl<'a> Iterator for Lines<'a> {
    ghost use Rattle.std.specs.Iterator.{YieldsFirstBy, item_count};

    type Item = &'a [u8];

    ghost next_gives = { YieldsFirstBy (λ line. line.now) (λ left. left) };

    ghost remaining = { item_count (λ left. left) };

    fn next(&mut self) -> Option<&'a [u8]> {
        if self.rest.is_empty() {
            return None;
        }
        let (line, rest) = first_line(self.rest);
        self.rest = rest;
        Some(line)
    }
}
