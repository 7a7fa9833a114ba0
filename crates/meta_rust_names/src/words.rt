ghost use Rattle.std.specs.Prelude.{◌≡◌};
ghost use Rattle.std.specs.List.{list_any, list_all};
ghost use Rattle.meta_operands.specs.Texts.{same_text};
ghost use Rattle.meta_rust_names.specs.Words.{is_path_word, is_keyword, begins_word, is_in_word, is_word, is_raw_identifier};
ghost use Rattle.meta_rust_names.specs.Words.{is_prelude_variant, word_why};

use super::names::is_named;
use super::refused::Why;

/// The strict and reserved keywords of the 2024 edition, but for those that begin a path.
const KEYWORDS: [&str; 48] = [
    "abstract", "as", "async", "await", "become", "box", "break", "const", "continue", "do", "dyn",
    "else", "enum", "extern", "false", "final", "fn", "for", "gen", "if", "impl", "in", "let",
    "loop", "macro", "match", "mod", "move", "mut", "override", "priv", "pub", "ref", "return",
    "static", "struct", "trait", "true", "try", "type", "typeof", "unsafe", "unsized", "use",
    "virtual", "where", "while", "yield",
];

fn is_in(words: &[&str], name: &[u8]) -> bool
    ensures { result ≡ list_any (λ word. same_text name.now word.now) words.now }
{
    words.iter().any(|word| name == word.as_bytes())
}

#[tactic(auto, unfolding(crate::specs::Words::is_path_word))]
fn is_path_word(name: &[u8]) -> bool
    ensures { result ≡ is_path_word name.now }
{
    name == b"crate".as_slice()
        || name == b"self".as_slice()
        || name == b"Self".as_slice()
        || name == b"super".as_slice()
}

#[tactic(auto, unfolding(crate::specs::Words::is_keyword))]
pub(crate) fn is_keyword(name: &[u8]) -> bool
    ensures { result ≡ is_keyword name.now }
{
    is_path_word(name) || is_in(&KEYWORDS, name)
}

fn begins_word(byte: u8) -> bool
    ensures { result ≡ begins_word byte }
{
    byte.is_ascii_alphabetic() || byte == b'_'
}

fn is_in_word(byte: u8) -> bool
    ensures { result ≡ is_in_word byte }
{
    byte.is_ascii_alphanumeric() || byte == b'_'
}

fn are_in_word(bytes: &[u8]) -> bool
    ensures { result ≡ list_all is_in_word bytes.now }
{
    bytes.iter().all(|c| is_in_word(*c))
}

/// Whether the bytes are ASCII letters, digits and `_`, and no digit first, and not `_` alone.
#[tactic(auto, unfolding(crate::specs::Words::is_word))]
fn is_word(name: &[u8]) -> bool
    ensures { result ≡ is_word name.now }
{
    match name {
        [] => false,
        [first, rest @ ..] => {
            name != b"_".as_slice() && (begins_word(*first) && are_in_word(rest))
        }
    }
}

#[tactic(auto, unfolding(crate::specs::Words::is_raw_identifier))]
fn is_raw_identifier(name: &[u8]) -> bool
    ensures { result ≡ is_raw_identifier name.now }
{
    match name.strip_prefix(b"r#".as_slice()) {
        Some(rest) => !is_path_word(rest) && is_word(rest),
        None => false,
    }
}

/// Whether the name is that of a variant of the prelude, with or without `r#`.
#[tactic(auto, unfolding(crate::specs::Words::is_prelude_variant))]
pub(crate) fn is_prelude_variant(name: &[u8]) -> bool
    ensures { result ≡ is_prelude_variant name.now }
{
    is_named(b"None", name)
        || is_named(b"Some", name)
        || is_named(b"Ok", name)
        || is_named(b"Err", name)
}

/// Why a parameter, a field or a variable can't have the name. `None` if it can.
#[tactic(auto, unfolding(crate::specs::Words::word_why))]
pub(crate) fn word_why(name: &[u8]) -> Option<Why>
    ensures { result ≡ word_why name.now }
{
    if is_keyword(name) {
        return Some(Why::Keyword);
    }
    if !(is_word(name) || is_raw_identifier(name)) {
        return Some(Why::NoIdentifier);
    }
    if is_prelude_variant(name) {
        return Some(Why::InScope);
    }
    None
}
