use super::case::Case;
use super::escapes::decoded;
use super::trouble::{Answer, Trouble};
use super::words::{function_named, number, pair_of, type_of};
use meta_types::{
    DerivedFunc, DynamicVectorType, FloatIterator, IntIterator, LaneType, LaneTypeIterator, Text,
    ValueType, VectorType, is_float_width, is_int_width, is_lane_count,
};
use std::alloc::{AllocError, Global};
use std::fmt::Display;

/// Writes the name of what has a number, further numbers, the type of its lanes, if it has lanes, and a text.
fn write_facts<T: Display>(
    value: &T,
    numbers: &[u64],
    lane: Option<LaneType>,
    text: Result<Text, AllocError>,
    case: &mut Case<'_>,
) {
    case.shown(value);
    for number in numbers {
        case.field("|", number);
    }
    if let Some(lane) = lane {
        case.field("|", &lane);
    }
    case.letter('|');
    case.made(text);
}

/// Writes all facts of the type of a name, which may have escapes: its own name, number, lane bits, lane count, width, bytes in memory,
/// name in Rust source and documentation.
pub(crate) fn write_type(alloc: Global, case: &mut Case<'_>) -> Answer {
    let name = decoded(alloc, case.word())?;
    let Some(t) = ValueType::parse(&name) else {
        case.text("none");
        return Ok(());
    };
    let number = t.number();
    if ValueType::from_number(number) != Some(t) {
        return Err(Trouble::Differ);
    }
    let numbers = [
        number.into(),
        t.lane_bits(),
        t.lane_count(),
        t.width(),
        t.membytes(),
    ];
    write_facts(&t, &numbers, None, t.rust_name(alloc), case);
    case.letter('|');
    case.made(t.doc(alloc));
    Ok(())
}

/// Writes the type of a number, or how many numbers are numbers of types.
pub(crate) fn write_numbers(are_counted: bool, case: &mut Case<'_>) {
    if are_counted {
        let mut count = 0u32;
        for number in 0..=u16::MAX {
            if ValueType::from_number(number).is_some() {
                count = count.saturating_add(1);
            }
        }
        case.shown(&count);
        return;
    }
    match ValueType::from_number(case.number()) {
        Some(t) => case.shown(&t),
        None => case.text("none"),
    }
}

pub(crate) fn write_debug(case: &mut Case<'_>) -> Answer {
    match type_of(case.word())? {
        ValueType::Lane(lane) => case.debugged(&lane),
        ValueType::Vector(vector) => case.debugged(&vector),
        ValueType::DynamicVector(vector) => case.debugged(&vector),
    }
    Ok(())
}

/// Writes the facts of a lane: name, number, lane bits and documentation.
fn write_lane(alloc: Global, lane: LaneType, case: &mut Case<'_>) {
    let numbers = [lane.number().into(), lane.lane_bits()];
    write_facts(&lane, &numbers, None, lane.doc(alloc), case);
}

/// Writes the facts of the lane of this many bits, an `int` or a `float`.
pub(crate) fn write_scalar(alloc: Global, sort: &str, case: &mut Case<'_>) {
    let bits = case.number();
    let lane = match sort {
        "int" if is_int_width(bits) => LaneType::int_from_bits(bits),
        "float" if is_float_width(bits) => LaneType::float_from_bits(bits),
        _ => {
            case.text("none");
            return;
        }
    };
    write_lane(alloc, lane, case);
}

/// Writes the facts of a vector of this count of lanes, or of a dynamic one of at least this count: name, number, lane bits, count of lanes,
/// lane and documentation. Of one lane they are those of the lane itself.
pub(crate) fn write_vector(alloc: Global, is_dynamic: bool, case: &mut Case<'_>) -> Answer {
    let ValueType::Lane(lane) = type_of(case.word())? else {
        return Err(Trouble::NoCase);
    };
    let lanes = case.number::<u16>();
    if lanes == 1 && !is_dynamic && lane.by(1) == ValueType::from(lane) {
        write_lane(alloc, lane, case);
    } else if !is_lane_count(lanes.into()) {
        case.text("none");
    } else if is_dynamic {
        let vector = DynamicVectorType::new(lane, lanes.into());
        if lane.to_dynamic(lanes) != ValueType::from(vector) {
            return Err(Trouble::Differ);
        }
        let (number, least) = (vector.number().into(), vector.minimum_lane_count());
        let numbers = [number, vector.lane_bits(), least];
        let doc = vector.doc(alloc);
        write_facts(&vector, &numbers, Some(vector.lane_type()), doc, case);
    } else {
        let vector = VectorType::new(lane, lanes.into());
        if lane.by(lanes) != ValueType::from(vector) {
            return Err(Trouble::Differ);
        }
        let (number, count) = (vector.number().into(), vector.lane_count());
        let numbers = [number, vector.lane_bits(), count];
        let doc = vector.doc(alloc);
        write_facts(&vector, &numbers, Some(vector.lane_type()), doc, case);
    }
    Ok(())
}

/// Writes the lanes that an iterator gives, and what it gives after them.
pub(crate) fn write_lanes(asked: &str, case: &mut Case<'_>) {
    let mut lanes = match asked {
        "lane_types" => LaneTypeIterator::new(),
        _ => ValueType::all_lane_types(),
    };
    let (mut ints, mut floats) = (IntIterator::new(), FloatIterator::new());
    let count = match asked {
        "ints" => 6,
        "floats" => 5,
        _ => 10,
    };
    for _ in 0..count {
        let given = match asked {
            "ints" => ints.next().map(LaneType::from),
            "floats" => floats.next().map(LaneType::from),
            _ => lanes.next(),
        };
        match given {
            Some(lane) => {
                case.shown(&lane);
                case.letter(' ');
            }
            None => case.text("end"),
        }
    }
}

/// Writes whether a number is a count of lanes, or all counts below 1000.
pub(crate) fn write_lane_counts(asked: &str, case: &mut Case<'_>) {
    if asked == "lane_count" {
        let lanes = case.number();
        case.yes_or_no(is_lane_count(lanes));
        return;
    }
    for lanes in 0u64..1000 {
        if is_lane_count(lanes) {
            case.separate(' ');
            case.shown(&lanes);
        }
    }
}

/// More than the greatest number of a type.
const NUMBERS: u16 = 512;

/// Writes where the function of this name leads from the types whose names are a lane and this ending, lane by lane.
pub(crate) fn write_row(alloc: Global, name: &str, ending: &str, case: &mut Case<'_>) -> Answer {
    let func = function_named(name)?;
    for lane in ValueType::all_lane_types() {
        case.separate(' ');
        write_related(func, type_of_lane(alloc, lane, ending)?, case);
    }
    Ok(())
}

fn type_of_lane(alloc: Global, lane: LaneType, ending: &str) -> Result<ValueType, Trouble> {
    let name = format!(in alloc; "{lane}{ending}")?;
    type_of(name.as_str())
}

/// Writes the types that the function relates to the type. There is one, to which it leads, but for the two relations, which may relate
/// several and lead nowhere. For types and for their numbers the answers have to agree.
fn write_related(func: DerivedFunc, from: ValueType, case: &mut Case<'_>) {
    let led_to = func.apply(from);
    let leads = !matches!(func, DerivedFunc::Narrower | DerivedFunc::Wider) || led_to.is_some();
    let mut agree = func.apply_number(from.number()) == led_to.map(|to| to.number());
    let start = case.written();
    for number in 0..NUMBERS {
        let to = ValueType::from_number(number);
        let is_related = match to {
            Some(to) => func.relates(from, to),
            None => false,
        };
        if is_related != func.relates_number(from.number(), number) {
            agree = false;
        }
        let Some(to) = to else {
            continue;
        };
        if leads && is_related != (led_to == Some(to)) {
            agree = false;
        }
        if is_related {
            case.item(start, "");
            case.shown(&to);
        }
    }
    case.end_list(start);
    if !agree {
        case.refuse(Trouble::Differ);
    }
}

/// Writes, for the function of the first word, where it leads from each number, or whether it relates the numbers of each pair.
pub(crate) fn write_of_numbers(are_pairs: bool, words: &str, case: &mut Case<'_>) -> Answer {
    let (name, items) = pair_of(words, ' ')?;
    let func = function_named(name)?;
    for item in items.split(' ') {
        case.separate(' ');
        if are_pairs {
            let (from, to) = pair_of(item, ',')?;
            case.yes_or_no(func.relates_number(number(from)?, number(to)?));
        } else {
            case.number_or_dash(func.apply_number(number(item)?));
        }
    }
    Ok(())
}
