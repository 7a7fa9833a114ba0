ghost use Rattle.std.specs.Prelude.{◌≡◌, ◌==◌, IsTrue, IfOk, Some, None, if◌then◌else◌};
ghost use Rattle.std.specs.Cmp.Lexicographic.{pointwise};
ghost use Rattle.std.specs.Option.{unwrap_or};
ghost use Rattle.std.specs.List.{list_all};
ghost use Rattle.meta_file_syntax.specs.Scan.{is_word_byte};
ghost use Rattle.meta_file_syntax.specs.Laid.{IsWord};
ghost use Rattle.meta_file_syntax.specs.Named.{name_bytes, doc_text};
ghost use Rattle.meta_file_describe.specs.Wording.{are_word_bytes, begins_as_name, is_plain_word, name_for, doc_lines};

use meta_file_syntax::{Bytes, Docs, Keyword, Name};
use std::alloc::{AllocError, Global};

fn is_word_byte(byte: u8) -> bool
    ensures { result ≡ is_word_byte byte }
{
    matches!(byte, b'a'..=b'z' | b'A'..=b'Z' | b'0'..=b'9' | b'_')
}

fn has_word_bytes(bytes: &[u8]) -> bool
    ensures { result ≡ list_all is_word_byte bytes.now }
{
    bytes.iter().all(|byte| is_word_byte(*byte))
}

fn are_word_bytes(bytes: &[u8]) -> bool
    ensures { result ≡ are_word_bytes bytes.now }
{
    !bytes.is_empty() && has_word_bytes(bytes)
}

#[tactic(auto, using(crate::proofs::Wording::is_word))]
pub(crate) fn is_word(bytes: &[u8]) -> bool
    ensures says { result ≡ is_plain_word bytes.now }
    ensures word { IsTrue result → IsWord bytes.now }
{
    are_word_bytes(bytes) && Keyword::of(bytes).is_none()
}

/// Whether the bytes are a word, a keyword perhaps, that doesn't begin with a digit.
pub(crate) fn begins_as_name(bytes: &[u8]) -> bool
    ensures { result ≡ begins_as_name bytes.now }
{
    match bytes {
        [first, ..] => are_word_bytes(bytes) && !first.is_ascii_digit(),
        [] => false,
    }
}

pub(crate) fn bytes_of(alloc: Global, bytes: &[u8]) -> Result<Bytes, AllocError>
    ensures { IfOk result (λ owned. owned ≡ bytes.now) }
{
    Ok(Bytes::of(Vec::from_slice(alloc, bytes)?))
}

/// The name that these bytes are, in quotes where they are no word or a keyword.
pub(crate) fn name_of(alloc: Global, bytes: &[u8]) -> Result<Name, AllocError>
    ensures says { IfOk result (λ name. name ≡ name_for bytes.now) }
    ensures tells { IfOk result (λ name. name_bytes name ≡ bytes.now) }
{
    let owned = bytes_of(alloc, bytes)?;
    if is_word(bytes) {
        return Ok(Name::Plain(owned));
    }
    Ok(Name::Quoted(owned))
}

pub(crate) fn unless_same(
    alloc: Global,
    text: &[u8],
    told: &[u8],
) -> Result<Option<Bytes>, AllocError>
    ensures says { IfOk result (λ o. o ≡ (if pointwise ◌==◌ text.now told.now then None else Some text.now)) }
    ensures tells { IfOk result (λ o. unwrap_or o told.now ≡ text.now) }
{
    if text == told {
        return Ok(None);
    }
    Ok(Some(bytes_of(alloc, text)?))
}

pub(crate) fn docs_of(alloc: Global, text: &[u8]) -> Result<Docs, AllocError>
    ensures says { IfOk result (λ docs. docs ≡ doc_lines text.now) }
    ensures tells { IfOk result (λ docs. doc_text docs ≡ text.now) }
{
    let mut lines = Vec::new(alloc);
    if text.is_empty() {
        return Ok(Docs::of(lines));
    }
    let mut line = Vec::new(alloc);
    for byte in text {
        if *byte == b'\n' {
            lines.push(Bytes::of(line))?;
            line = Vec::new(alloc);
        } else {
            line.push(*byte)?;
        }
    }
    lines.push(Bytes::of(line))?;
    Ok(Docs::of(lines))
}

/// The last name of a path in small letters, with a `_` before each capital that comes after a sign other than a capital, such as `imm64`
/// or `func_ref`.
pub(crate) fn snake_case(alloc: Global, path: &[u8]) -> Result<Vec<u8>, AllocError> {
    let mut word = Vec::new(alloc);
    let mut is_after_small = false;
    for byte in path {
        if byte.is_ascii_uppercase() && is_after_small {
            word.push(b'_')?;
        }
        if is_word_byte(*byte) {
            word.push(byte.to_ascii_lowercase())?;
            is_after_small = !byte.is_ascii_uppercase();
        }
        if *byte == b':' {
            word = Vec::new(alloc);
            is_after_small = false;
        }
    }
    Ok(word)
}
