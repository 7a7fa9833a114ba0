ghost use Rattle.std.specs.Prelude.{◌≡◌, ◌==◌, ◌<◌, ◌^◌, [], sum};
ghost use Rattle.std.specs.List.{filter, list_any};
ghost use Rattle.meta_file_types.specs.Sets.{numbers_of, left_out, is_of, high_end, in_span, is_member, numbers_by, set_of_parts};
ghost use Rattle.meta_file_types.specs.Sets.{wrong_span, wrong_spans, wrong_members, wrong_part, wrong_parts};

use super::refused::Reason;
use meta_file_syntax::{Dimension, Members, Part, Span};
use meta_typevar::{Masks, TypeSet};

/// The lane counts of scalars and fixed vectors, and those of vectors alone.
const LANES: [u16; 9] = [1, 2, 4, 8, 16, 32, 64, 128, 256];

const VECTOR_LANES: [u16; 8] = [2, 4, 8, 16, 32, 64, 128, 256];

/// The widths of integer lanes, and those of floating-point ones.
const INT_WIDTHS: [u16; 5] = [8, 16, 32, 64, 128];

const FLOAT_WIDTHS: [u16; 4] = [16, 32, 64, 128];

fn numbers_of(dimension: Dimension) -> &'static [u16]
    ensures numbers { result.now ≡ numbers_of dimension }
    ensures few { sum result.now < 2 ^ 16 }
{
    match dimension {
        Dimension::Lanes => &LANES,
        Dimension::Dynamic => &VECTOR_LANES,
        Dimension::Ints => &INT_WIDTHS,
        Dimension::Floats => &FLOAT_WIDTHS,
    }
}

/// The mask of a dimension of which the set has no part: one lane, and nothing else.
fn left_out(dimension: Dimension) -> u16
    ensures { result ≡ sum (left_out dimension) }
{
    match dimension {
        Dimension::Lanes => 1,
        Dimension::Dynamic | Dimension::Ints | Dimension::Floats => 0,
    }
}

fn is_of(dimension: Dimension, part: &Part) -> bool
    ensures { result ≡ is_of dimension part.now }
{
    part.dimension == dimension
}

/// The high end of a range. A single number is its own high end.
fn high_end(span: &Span) -> u16
    ensures { result ≡ high_end span.now }
{
    match span.high {
        Some(high) => high,
        None => span.low,
    }
}

fn in_span(n: u16, span: &Span) -> bool
    ensures { result ≡ in_span n span.now }
{
    span.low <= n && n <= high_end(span)
}

fn in_spans(spans: &[Span], n: u16) -> bool
    ensures { result ≡ list_any (in_span n) spans.now }
{
    spans.iter().any(|span| in_span(n, span))
}

fn is_member(members: &Members, n: u16) -> bool
    ensures { result ≡ is_member members.now n }
{
    match members {
        Members::All => true,
        Members::Nothing => false,
        Members::Spans(spans) => in_spans(spans.as_slice(), n),
    }
}

fn members_mask(members: &Members, numbers: &[u16]) -> u16
    requires { sum numbers.now < 2 ^ 16 }
    ensures { result ≡ sum (filter (is_member members.now) numbers.now) }
{
    numbers.iter().filter(|n| is_member(members, **n)).sum()
}

fn mask_of(parts: &[Part], dimension: Dimension) -> u16
    ensures { result ≡ sum (numbers_by parts.now dimension) }
{
    for part in parts {
        if is_of(dimension, part) {
            return members_mask(&part.members, numbers_of(dimension));
        }
    }
    left_out(dimension)
}

#[tactic(auto, using(crate::proofs::OneSet::ints_few, crate::proofs::OneSet::floats_few))]
pub(crate) fn set_of_parts(parts: &[Part]) -> TypeSet
    ensures { result ≡ set_of_parts parts.now }
{
    let lanes = mask_of(parts, Dimension::Lanes);
    let dynamic_lanes = mask_of(parts, Dimension::Dynamic);
    let ints = mask_of(parts, Dimension::Ints);
    let floats = mask_of(parts, Dimension::Floats);
    let masks = Masks {
        lanes,
        dynamic_lanes,
        ints: ints as u8,
        floats: floats as u8,
    };
    let Some(set) = TypeSet::of(masks) else {
        unreachable!()
    };
    set
}

fn is_among(numbers: &[u16], n: u16) -> bool
    ensures { result ≡ list_any (λ m. m == n) numbers.now }
{
    numbers.iter().any(|m| *m == n)
}

fn wrong_span(dimension: Dimension, span: &Span) -> Option<Reason<'_>>
    ensures { result ≡ wrong_span dimension span.now }
{
    let numbers = numbers_of(dimension);
    let high = high_end(span);
    if !is_among(numbers, span.low) {
        return Some(Reason::NoNumber(dimension, span.low));
    }
    if !is_among(numbers, high) {
        return Some(Reason::NoNumber(dimension, high));
    }
    if high < span.low {
        return Some(Reason::EmptyRange(span.low, high));
    }
    None
}

fn wrong_spans(dimension: Dimension, spans: &[Span]) -> Option<Reason<'_>>
    ensures { result ≡ wrong_spans dimension spans.now }
{
    for span in spans {
        if let Some(reason) = wrong_span(dimension, span) {
            return Some(reason);
        }
    }
    None
}

fn wrong_members(dimension: Dimension, members: &Members) -> Option<Reason<'_>>
    ensures { result ≡ wrong_members dimension members.now }
{
    match members {
        Members::All | Members::Nothing => None,
        Members::Spans(spans) => wrong_spans(dimension, spans.as_slice()),
    }
}

fn is_above(parts: &[Part], dimension: Dimension) -> bool
    ensures { result ≡ list_any (is_of dimension) parts.now }
{
    parts.iter().any(|part| is_of(dimension, part))
}

fn wrong_part<'i>(above: &'i [Part], part: &'i Part) -> Option<Reason<'i>>
    ensures { result ≡ wrong_part above.now part.now }
{
    if is_above(above, part.dimension) {
        return Some(Reason::PartTwice(part.dimension));
    }
    wrong_members(part.dimension, &part.members)
}

pub(crate) fn wrong_parts(parts: &[Part]) -> Option<Reason<'_>>
    ensures { result ≡ wrong_parts [] parts.now }
{
    for (place, part) in parts.iter().enumerate() {
        if let Some(reason) = wrong_part(&parts[..place], part) {
            return Some(reason);
        }
    }
    if is_above(parts, Dimension::Dynamic) && !is_above(parts, Dimension::Lanes) {
        return Some(Reason::DynamicAlone);
    }
    None
}
