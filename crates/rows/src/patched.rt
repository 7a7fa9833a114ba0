use super::session::add_line;
use rows_base::{Trouble, number};
use std::alloc::Global;
use std::str;

/// The text that a patch makes of another text. `+LINE` adds this line, `=COUNT` the next lines of the other text, and `-COUNT` skips them.
pub(crate) fn patched(alloc: Global, bytes: &[u8], patch: &[u8]) -> Result<Vec<u8>, Trouble> {
    let (Ok(text), Ok(patch)) = (str::from_utf8(bytes), str::from_utf8(patch)) else {
        return Err(Trouble::NoCase);
    };
    let mut lines = text.lines();
    let mut made = Vec::new(alloc);
    for change in patch.lines() {
        let Some((sign, rest)) = change.split_at_checked(1) else {
            return Err(Trouble::NoCase);
        };
        if sign == "+" {
            add_line(&mut made, rest)?;
            continue;
        }
        for _ in 0..number::<u32>(rest)? {
            match lines.next() {
                Some(line) if sign == "=" => add_line(&mut made, line)?,
                Some(_) => {}
                None => return Err(Trouble::NoCase),
            }
        }
    }
    Ok(made)
}
