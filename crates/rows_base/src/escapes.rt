use super::case::Case;
use super::trouble::Trouble;
use super::words::{number, pair_of};
use std::alloc::{AllocError, Global};

/// The byte of a name: `n` is LF, `r` CR, `t` a tab, `s` a space, and `0` the byte 0. Any other name is its own byte.
fn named(name: &str) -> Result<u8, Trouble> {
    match name.as_bytes() {
        [b'n', ..] => Ok(b'\n'),
        [b'r', ..] => Ok(b'\r'),
        [b't', ..] => Ok(b'\t'),
        [b's', ..] => Ok(b' '),
        [b'0', ..] => Ok(0),
        [byte, ..] => Ok(*byte),
        [] => Err(Trouble::NoCase),
    }
}

/// What an escape stands for, a byte and how often, and the text after it. `{COUNT BYTE}` is COUNT such bytes, `xHH` the byte of two
/// hexadecimal digits, and any other sign the name of a byte.
fn escape_of(text: &str) -> Result<(usize, u8, &str), Trouble> {
    if let Some(inside) = text.strip_prefix('{') {
        let (inside, rest) = pair_of(inside, '}')?;
        let (count, byte) = pair_of(inside, ' ')?;
        return Ok((number(count)?, named(byte)?, rest));
    }
    let is_number = text.starts_with('x');
    let Some((sign, rest)) = text.split_at_checked(if is_number { 3 } else { 1 }) else {
        return Err(Trouble::NoCase);
    };
    let byte = match sign.strip_prefix('x') {
        Some(digits) => u8::from_str_radix(digits, 16)?,
        None => named(sign)?,
    };
    Ok((1, byte, rest))
}

/// The bytes that a text with escapes stands for.
pub fn decoded(alloc: Global, text: &str) -> Result<Vec<u8>, Trouble> {
    let mut out = Vec::new(alloc);
    for (place, piece) in text.split('\\').enumerate() {
        if place == 0 {
            out.extend_from_slice(piece.as_bytes())?;
        } else {
            let (count, byte, rest) = escape_of(piece)?;
            out.resize(out.len().saturating_add(count), byte)?;
            out.extend_from_slice(rest.as_bytes())?;
        }
    }
    Ok(out)
}

/// Writes the bytes as a text, with an escape for each byte that isn't a printable character.
pub fn write_bytes(case: &mut Case<'_>, bytes: &[u8]) {
    for byte in bytes {
        match byte {
            b'\n' => case.text("\\n"),
            b'\r' => case.text("\\r"),
            0x20..=0x7e => case.letter(char::from(*byte)),
            _ => {
                case.text("\\x");
                case.hexadecimal(*byte);
            }
        }
    }
}

fn around<'b>(bytes: &'b [u8], part: &[u8]) -> Result<(&'b [u8], &'b [u8]), Trouble> {
    for at in 0..bytes.len() {
        let (before, rest) = bytes.split_at(at);
        if let Some(after) = rest.strip_prefix(part) {
            return Ok((before, after));
        }
    }
    Err(Trouble::NoCase)
}

/// Adds the bytes with the new part in place of each old one, or of the first `most` of them.
fn add_replaced(
    out: &mut Vec<u8>,
    bytes: &[u8],
    old: &[u8],
    new: &[u8],
    most: usize,
) -> Result<(), AllocError> {
    let mut rest = bytes;
    for _ in 0..most.min(bytes.len()) {
        let Ok((before, after)) = around(rest, old) else {
            break;
        };
        out.extend_from_slice(before)?;
        out.extend_from_slice(new)?;
        rest = after;
    }
    out.extend_from_slice(rest)
}

/// The bytes with others in place of those that stand before ` => `: of all of them, or of the first `most`.
fn replaced(alloc: Global, bytes: &[u8], parts: &str, most: usize) -> Result<Vec<u8>, Trouble> {
    let Some((old, new)) = parts.split_once(" => ") else {
        return Err(Trouble::BadLine);
    };
    let old = decoded(alloc, old)?;
    around(bytes, &old)?;
    let new = decoded(alloc, new)?;
    let mut replaced = Vec::new(alloc);
    add_replaced(&mut replaced, bytes, &old, &new, most)?;
    Ok(replaced)
}

/// The bytes after an edit: `drop COUNT` drops bytes at the end, `cut BYTES` keeps what stands before the first such bytes, `replace BYTES
/// => BYTES` replaces the first such bytes, and `all BYTES => BYTES` all of them. `NoCase` if there are no such bytes.
pub fn edited(alloc: Global, bytes: &[u8], edit: &str) -> Result<Vec<u8>, Trouble> {
    let (word, rest) = pair_of(edit, ' ')?;
    match word {
        "drop" => {
            let mut kept = bytes.to_vec(alloc)?;
            kept.truncate(bytes.len().saturating_sub(number(rest)?));
            Ok(kept)
        }
        "cut" => {
            let part = decoded(alloc, rest)?;
            let (front, _) = around(bytes, &part)?;
            Ok(front.to_vec(alloc)?)
        }
        "replace" => replaced(alloc, bytes, rest, 1),
        "all" => replaced(alloc, bytes, rest, usize::MAX),
        _ => Err(Trouble::BadLine),
    }
}
