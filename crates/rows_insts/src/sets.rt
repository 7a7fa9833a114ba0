use meta_types::ValueType;
use meta_typevar::{Interval, Masks, Part, TypeSet, TypeSetBuilder};
use rows_base::{Answer, Case, Trouble, found, function_named, hash_of, type_of};
use std::alloc::{AllocError, Global};

/// The set of the words `set PARTS`, the copy of `copy of set PARTS`, or the coded image of `image FUNCTION of set PARTS`.
pub(crate) fn set_of(alloc: Global, words: &[&str]) -> Result<TypeSet, Trouble> {
    let (how, parts) = match words {
        ["set", parts @ ..] => ("set", parts),
        ["copy", "of", "set", parts @ ..] => ("copy", parts),
        ["image", function, "of", "set", parts @ ..] => (*function, parts),
        _ => return Err(Trouble::BadLine),
    };
    let set = built(alloc, builder_of(parts)?)?;
    match how {
        "set" => Ok(set),
        "copy" => Ok(set.copy(alloc)?),
        _ => Ok(set.image(alloc, function_named(how)?)?),
    }
}

pub(crate) fn write_masks(case: &mut Case<'_>, masks: Masks) {
    case.shown(&masks.lanes);
    case.field(" ", &masks.dynamic_lanes);
    case.field(" ", &masks.ints);
    case.field(" ", &masks.floats);
}

/// Writes the masks of a set, its size, how many of all types it contains, and its members, as they are listed.
fn write_set(alloc: Global, set: &TypeSet, case: &mut Case<'_>) -> Result<(), AllocError> {
    let mut contained: u32 = 0;
    for number in 0..512u16 {
        if let Some(value_type) = ValueType::from_number(number)
            && set.contains(value_type)
        {
            contained = contained.saturating_add(1);
        }
    }
    case.text("masks ");
    write_masks(case, set.masks());
    case.field(" size ", &set.size());
    case.field(" contains ", &contained);
    case.text(" types");
    for value_type in set.concrete_types(alloc)? {
        case.field(" ", &value_type);
    }
    Ok(())
}

/// `contains N masks A B C D`: whether the masks contain the type with this number.
fn contains(case: &mut Case<'_>) {
    let number = case.number();
    case.expect("masks");
    let masks = Masks {
        lanes: case.number(),
        dynamic_lanes: case.number(),
        ints: case.number(),
        floats: case.number(),
    };
    case.yes_or_no(masks.contains(number));
}

/// Writes the answer to a line about sets: `parts PARTS`, which parts of a builder are set; `can PARTS`, whether it can be built; `set
/// PARTS`; `image FUNCTION of set PARTS`, the masks of a coded image; `debug SET`, the Debug text of a set; `member TYPE SET`, whether a
/// type is a member; or `contains N masks A B C D`.
pub(crate) fn answer_on_set(alloc: Global, word: &str, case: &mut Case<'_>) -> Answer {
    match word {
        "parts" => {
            let builder = builder_of(case.rest())?;
            for (name, part) in PARTS {
                if builder.is_set(part) {
                    case.separate(' ');
                    case.text(name);
                }
            }
            case.end_list(0);
        }
        "can" => {
            let builder = builder_of(case.rest())?;
            case.yes_or_no(builder.can_build());
        }
        "set" | "image" => {
            case.go_back(0);
            let set = set_of(alloc, case.rest())?;
            if word == "image" {
                write_masks(case, set.masks());
            } else {
                write_set(alloc, &set, case)?;
            }
        }
        "debug" => {
            let set = set_of(alloc, case.rest())?;
            case.debugged(&set);
        }
        "member" => {
            let value_type = type_of(case.word())?;
            let set = set_of(alloc, case.rest())?;
            case.yes_or_no(set.contains(value_type));
        }
        "contains" => contains(case),
        _ => return Err(Trouble::BadLine),
    }
    Ok(())
}

const PARTS: [(&str, Part); 4] = [
    ("ints", Part::Ints),
    ("floats", Part::Floats),
    ("lanes", Part::SimdLanes),
    ("dynamic", Part::DynamicSimdLanes),
];

/// `*` for all, `-` for none, and `A..B` for a range.
fn interval_of(word: &str) -> Option<Interval> {
    match word {
        "*" => Some(Interval::All),
        "-" => Some(Interval::None),
        _ => {
            let (low, high) = word.split_once("..")?;
            Some(Interval::from(low.parse().ok()?..high.parse().ok()?))
        }
    }
}

/// The builder of these parts. Each is a name and an interval, or `scalars` and `yes` or `no`. A part may be set once.
fn builder_of(words: &[&str]) -> Result<TypeSetBuilder, Trouble> {
    let mut builder = TypeSetBuilder::new();
    for pair in words.chunks(2) {
        let [name, value] = pair else {
            return Err(Trouble::BadLine);
        };
        if *name == "scalars" && (*value == "yes" || *value == "no") {
            builder = builder.includes_scalars(*value == "yes");
            continue;
        }
        let Some(interval) = interval_of(value) else {
            return Err(Trouble::BadLine);
        };
        let part = found(&PARTS, name)?;
        if builder.is_set(part) {
            return Err(Trouble::NoCase);
        }
        builder = match part {
            Part::Ints => builder.ints(interval),
            Part::Floats => builder.floats(interval),
            Part::SimdLanes => builder.simd_lanes(interval),
            Part::DynamicSimdLanes => builder.dynamic_simd_lanes(interval),
        };
    }
    Ok(builder)
}

pub(crate) fn built(alloc: Global, builder: TypeSetBuilder) -> Result<TypeSet, Trouble> {
    if !builder.can_build() {
        return Err(Trouble::NoCase);
    }
    Ok(builder.build(alloc)?)
}

/// `equal_sets SET | SET`: whether two sets are equal, and their masks; if they are equal, also whether they hash equally.
pub(crate) fn equal_sets(alloc: Global, case: &mut Case<'_>) -> Answer {
    let set = set_of(alloc, case.rest())?;
    let words: Vec<&str> = case.doc().split(' ').collect(alloc)?;
    let other = set_of(alloc, &words)?;
    let is_equal = set == other;
    case.field("sets ", &is_equal);
    case.field(" masks ", &(set.masks() == other.masks()));
    if is_equal {
        case.field(" hashes ", &(hash_of(&set) == hash_of(&other)));
    }
    Ok(())
}
