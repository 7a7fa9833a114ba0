ghost use Rattle.std.specs.Prelude.{◌≡◌};
ghost use Rattle.meta_rust_names.specs.Comments.{begins_turn, begins_break, breaks_comment};
ghost use Rattle.meta_rust_names.specs.Comments.{comment_why, doc_why, type_why};

use super::refused::Why;
use meta_rust_text::first_line;

/// Whether the bytes begin with a character that turns the direction of text: one of U+202A to U+202E or of U+2066 to U+2069.
fn begins_turn(bytes: &[u8]) -> bool
    ensures { result ≡ begins_turn bytes.now }
{
    match bytes {
        [first, second, third, ..] => {
            *first == 0xe2
                && ((*second == 0x80 && (0xa9 < *third && *third < 0xaf))
                    || (*second == 0x81 && (0xa5 < *third && *third < 0xaa)))
        }
        _ => false,
    }
}

/// Whether the bytes begin with a line feed, a carriage return, or a character that turns the direction of text.
fn begins_break(bytes: &[u8]) -> bool
    ensures { result ≡ begins_break bytes.now }
{
    match bytes {
        [] => false,
        [first, ..] => *first == b'\n' || *first == b'\r' || begins_turn(bytes),
    }
}

fn breaks_comment(bytes: &[u8]) -> bool
    ensures { result ≡ breaks_comment bytes.now }
{
    for place in 0..bytes.len() {
        let (_, rest) = bytes.split_at(place);
        if begins_break(rest) {
            return true;
        }
    }
    false
}

/// Why this text can't be put into a comment unchanged: a line break, or a character that turns the direction of text. `None` if it can.
#[tactic(auto, unfolding(crate::specs::Comments::comment_why))]
pub(crate) fn comment_why(text: &str) -> Option<Why>
    ensures { result ≡ comment_why text.now }
{
    if breaks_comment(text.as_bytes()) {
        return Some(Why::BreaksComment);
    }
    None
}

/// Why the first line of a documentation, which is what is printed, can't be put into a comment unchanged. `None` if it can.
#[tactic(auto, unfolding(crate::specs::Comments::doc_why))]
pub(crate) fn doc_why(doc: &str) -> Option<Why>
    ensures { result ≡ doc_why doc.now }
{
    comment_why(first_line(doc))
}

#[tactic(auto, unfolding(crate::specs::Comments::type_why))]
pub(crate) fn type_why(rust_type: &str) -> Option<Why>
    ensures { result ≡ type_why rust_type.now }
{
    if rust_type.trim().is_empty() {
        return Some(Why::NoType);
    }
    None
}
