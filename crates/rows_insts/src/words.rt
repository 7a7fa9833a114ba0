use meta_types::Text;
use rows_base::Case;
use std::alloc::{AllocError, Global};

/// The text that a word stands for: itself, and the empty text for `''`.
pub(crate) fn text_of(word: &str) -> &str {
    if word == "''" { "" } else { word }
}

pub(crate) fn texts(
    alloc: Global,
    [first, second, third]: [&str; 3],
) -> Result<(Text, Text, Text), AllocError> {
    let (first, second) = (Text::new(alloc, first)?, Text::new(alloc, second)?);
    Ok((first, second, Text::new(alloc, third)?))
}

pub(crate) fn write_prose(case: &mut Case<'_>, text: &str) {
    if !text.is_empty() {
        case.field(" | ", &text);
    }
}
