use super::case::Case;
use super::trouble::Answer;
use super::words::{hash_of, pair_of, texts_of};
use meta_types::{EarlierNames, Text, camel_case};
use std::alloc::Global;
use std::cmp::Ordering;

pub(crate) fn write_camel_case(alloc: Global, name: &str, case: &mut Case<'_>) -> Answer {
    let name = Text::new(alloc, name)?;
    case.made(camel_case(alloc, &name));
    Ok(())
}

/// Writes, for each name of a list, the place of the first earlier name that is the same or has the same camel case, or `-`.
pub(crate) fn write_earlier(alloc: Global, case: &mut Case<'_>) -> Answer {
    let texts = texts_of(alloc, case.word(), "")?;
    let mut names = EarlierNames::new(alloc);
    for name in &texts {
        case.separate(',');
        match case.value(names.add(alloc, name)) {
            Some(place) => case.shown(&place),
            None => case.letter('-'),
        }
    }
    Ok(())
}

/// Compares two texts. Writes a copy of the first, whether it equals the first, how the two are ordered, whether they are equal, whether
/// the first has the hash of its `str`, and whether the two have one hash.
pub(crate) fn write_pair(alloc: Global, pair: &str, case: &mut Case<'_>) -> Answer {
    let (text, other) = pair_of(pair, ',')?;
    let text = Text::new(alloc, text)?;
    let copy = text.copy(alloc)?;
    case.text(copy.as_str());
    case.letter('|');
    case.yes_or_no(text == copy);
    write_compared(&text, &Text::new(alloc, other)?, case);
    Ok(())
}

fn write_compared(text: &Text, other: &Text, case: &mut Case<'_>) {
    case.text(match text.cmp(other) {
        Ordering::Less => "|less|",
        Ordering::Equal => "|equal|",
        Ordering::Greater => "|greater|",
    });
    case.yes_or_no(*text == *other);
    let hash = hash_of(text);
    case.letter('|');
    case.yes_or_no(hash == hash_of(&text.as_str()));
    case.letter('|');
    case.yes_or_no(hash == hash_of(other));
}
