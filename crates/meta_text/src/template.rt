ghost use Rattle.std.specs.Prelude.{◌≡◌, ◌<◌, ◌≤◌, List, ℕ, [], ◌∷◌, ◌++◌, map, length, bytes_eq};
ghost use Rattle.std.specs.Prelude.{IsTrue, MatchOption, IfSome, OnOk, string_bytes};
ghost use Rattle.std.specs.List.{slice_split};
ghost use Rattle.meta_text.specs.Filled.{is_mark, text_named, by_turns, filled, fits};

use std::alloc::AllocError;

fn is_same(text: &str, other: &str) -> bool
    ensures { result ≡ bytes_eq text.now other.now }
{
    text == other
}

/// The text of the hole of this name, and no text if there is no such hole.
fn text_named<'a>(mut holes: &[&str], mut texts: &[&'a str], name: &str) -> &'a str
    ensures { result.now ≡ text_named (map (λ h. h.now) holes.entry.now) (map (λ t. t.now) texts.entry.now) name.now }
{
    while let [hole, more_holes @ ..] = holes {
        let [text, more_texts @ ..] = texts else {
            return "";
        };
        if is_same(hole, name) {
            return text;
        }
        holes = more_holes;
        texts = more_texts;
    }
    ""
}

/// What stands before the first mark, and what stands after it. `None` if there is no mark.
fn cut(text: &str) -> Option<(&str, &str)>
    ensures parts { MatchOption result (slice_split is_mark text.now ≡ text.now ∷ [])
        (λ x. slice_split is_mark text.now ≡ x.0.now ∷ slice_split is_mark x.1.now) }
    ensures shorter { IfSome result (λ x. length x.1.now < length text.now) }
{
    text.split_once('$')
}

fn name_and_rest(text: &str) -> (&str, &str)
    ensures value { (holes texts : List (List ℕ)) (part : List ℕ) → by_turns holes texts (part ∷ slice_split is_mark text.now)
        ≡ part ++ (text_named holes texts result.0.now ++ filled result.1.now holes texts) }
    ensures shorter { length result.1.now ≤ length text.now }
{
    match cut(text) {
        Some((name, rest)) => (name, rest),
        None => (text, ""),
    }
}

/// Adds a template with these texts in its holes of these names. A hole is a name between two marks, as `$Type$` in `pub enum $Type$ {`. A
/// name may stand in it more than once.
pub fn fill(
    out: &mut String,
    template: &str,
    holes: &[&str],
    texts: &[&str],
) -> Result<(), AllocError>
    requires names { IsTrue (fits template.now (map (λ h. h.now) holes.now)) }
    requires counts { length texts.now ≡ length holes.now }
    ensures { OnOk result (string_bytes out.new
        ≡ string_bytes out.old ++ filled template.now (map (λ h. h.now) holes.now) (map (λ t. t.now) texts.now)) }
{
    let mut left = template;
    while let Some((before, after)) = cut(left) {
        let (name, rest) = name_and_rest(after);
        out.push_str(before)?;
        out.push_str(text_named(holes, texts, name))?;
        left = rest;
    }
    out.push_str(left)
}
