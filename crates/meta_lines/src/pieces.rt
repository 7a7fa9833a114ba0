ghost use Rattle.std.specs.Prelude.{◌≡◌, ◌≢◌, ◌==◌, ◌<◌, ℕ, List, [], ◌∷◌, true, false, length, drop, IfSome, IfNone};
ghost use Rattle.std.specs.List.{position, position_or_len};
ghost use Rattle.std.specs.Option.{option_map_or};
ghost use Rattle.meta_lines.specs.Words.{pieces_of};

use std::marker::Model;

/// The place of the first such byte, from 0, if there is one.
fn place_of(text: &[u8], byte: u8) -> Option<usize>
    ensures { result ≡ position (λ c. c == byte) text.now }
{
    text.iter().position(|c| *c == byte)
}

/// The place of the first such byte, from 0. It is the length of the text if there is no such byte.
pub fn end_of(text: &[u8], stop: u8) -> usize
    ensures { result ≡ position_or_len (λ c. c == stop) text.now }
{
    place_of(text, stop).unwrap_or(text.len())
}

/// The part of the text before the first such byte, and the part after it. The second is `None` if there is no such byte.
pub fn cut(text: &[u8], byte: u8) -> (&[u8], Option<&[u8]>)
    ensures { pieces_of byte text.now ≡ result.0.now ∷ option_map_or (λ rest. pieces_of byte rest.now) result.1 [] }
{
    let end = end_of(text, byte);
    let len = text.len();
    if end == len {
        return (text, None);
    }
    (&text[..end], Some(&text[end + 1..]))
}

/// An iterator over the pieces of a text, which is cut at each byte of one value. A contract sees the pieces that are left.
#[derive(Drop)]
pub struct Pieces<'a> {
    rest: Option<&'a [u8]>,
    byte: u8,
}

impl<'a> Model for Pieces<'a> {
    ghost use Rattle.std.specs.Prelude.{List, ℕ, []};

    ghost Value = { List (List ℕ) };

    ghost use Rattle.meta_lines.specs.Words.{pieces_of};
    ghost use Rattle.std.specs.Option.{option_map_or};

    ghost view = { λ p. option_map_or (λ r. pieces_of p.byte r.now) p.rest [] };
}

impl<'a> Pieces<'a> {
    /// Makes an iterator over the pieces of a text. There is at least one piece.
    pub fn new(text: &'a [u8], byte: u8) -> Self
        ensures { result ≡ pieces_of byte text.now }
    {
        Pieces {
            rest: Some(text),
            byte,
        }
    }

    /// Takes the next piece, and answers it if it isn't empty. `None` means that no piece was left, or that the piece was empty; an empty
    /// piece is taken too.
    pub fn word(&mut self) -> Option<&'a [u8]>
        ensures taken { IfSome result (λ word. self.old ≡ word.now ∷ self.new) }
        ensures some { IfSome result (λ word. 0 < length word.now) }
        ensures none { IfNone result ((word : List ℕ) (rest : List (List ℕ)) → 0 < length word → self.old ≢ word ∷ rest) }
        ensures left { self.new ≡ drop 1 self.old }
    {
        let piece = self.next()?;
        if piece.is_empty() {
            return None;
        }
        Some(piece)
    }

    /// Whether no piece is left. If one is left, it is taken.
    pub fn is_done(&mut self) -> bool
        ensures done { result ≡ true → self.old ≡ [] }
        ensures more { result ≡ false → (word : List ℕ) × (rest : List (List ℕ)) × (self.old ≡ word ∷ rest) }
        ensures left { self.new ≡ drop 1 self.old }
    {
        match self.next() {
            Some(_) => false,
            None => true,
        }
    }
}

impl<'a> Iterator for Pieces<'a> {
    ghost use Rattle.std.specs.Iterator.{YieldsFirstBy, item_count};

    type Item = &'a [u8];

    ghost next_gives = { YieldsFirstBy (λ piece. piece.now) (λ left. left) };

    ghost remaining = { item_count (λ left. left) };

    fn next(&mut self) -> Option<&'a [u8]> {
        let (piece, rest) = cut(self.rest?, self.byte);
        self.rest = rest;
        Some(piece)
    }
}
