use meta_file_syntax::{Dimension, Listed, Members, Part, SetExpr, Span};
use meta_typevar::Masks;
use std::alloc::{AllocError, Global};

/// All lane counts, those of vectors, all widths of integers, and all widths of floats, each as a mask.
const ALL_LANES: u16 = 511;

const ALL_VECTOR_LANES: u16 = 510;

const ALL_INTS: u16 = 248;

const ALL_FLOATS: u16 = 240;

/// All lane counts and widths. The greatest is 256.
const POWERS: [u16; 9] = [1, 2, 4, 8, 16, 32, 64, 128, 256];

/// The powers of two that the mask has, as ranges without a gap, and with a gap between each two.
fn spans_of(alloc: Global, mask: u16) -> Result<Vec<Span>, AllocError> {
    let mut spans = Vec::new(alloc);
    let mut open: Option<Span> = None;
    for number in POWERS {
        if mask & number != 0 {
            open = match open {
                Some(span) => Some(Span {
                    low: span.low,
                    high: Some(number),
                }),
                None => Some(Span {
                    low: number,
                    high: None,
                }),
            };
        } else if let Some(span) = open {
            spans.push(span)?;
            open = None;
        }
    }
    if let Some(span) = open {
        spans.push(span)?;
    }
    Ok(spans)
}

/// The part with the members of a mask, of which `all` has all that the dimension can have.
fn part_of(alloc: Global, dimension: Dimension, mask: u16, all: u16) -> Result<Part, AllocError> {
    let members = if mask == 0 {
        Members::Nothing
    } else if mask == all {
        Members::All
    } else {
        Members::Spans(Listed::of(spans_of(alloc, mask)?))
    };
    Ok(Part { dimension, members })
}

/// The type set with these masks, in one form: a part for each dimension in which it differs from that of no part, `lanes` beside
/// `dynamic`, and `ints none` if there is no other part.
pub(crate) fn set_of(alloc: Global, masks: Masks) -> Result<SetExpr, AllocError> {
    let mut parts = Vec::new(alloc);
    let (lanes, dynamic) = (masks.lanes, masks.dynamic_lanes);
    if lanes != 1 || dynamic != 0 {
        parts.push(part_of(alloc, Dimension::Lanes, lanes, ALL_LANES)?)?;
    }
    if dynamic != 0 {
        parts.push(part_of(alloc, Dimension::Dynamic, dynamic, ALL_VECTOR_LANES)?)?;
    }
    let (ints, floats) = (u16::from(masks.ints), u16::from(masks.floats));
    if ints != 0 || floats == 0 && parts.is_empty() {
        parts.push(part_of(alloc, Dimension::Ints, ints, ALL_INTS)?)?;
    }
    if floats != 0 {
        parts.push(part_of(alloc, Dimension::Floats, floats, ALL_FLOATS)?)?;
    }
    Ok(SetExpr::Parts(Listed::of(parts)))
}
