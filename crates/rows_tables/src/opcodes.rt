ghost use Rattle.std.specs.Prelude.{◌≡◌};

use meta_gen::Tables;
use meta_unique::Steps;
use rows_base::{Answer, Case, Trouble, number, numbers_of};
use std::alloc::Global;
use std::marker::Brand;
use std::sync::ledger::{Blank, Ledger};

/// What the places of the results hold before the results are inferred.
const PLACES: [u16; 7] = [9; 7];

/// Writes `NUMBER NAME FORMAT FLAGS SET SECOND CONSTRAINT`, or `none`.
fn write_opcode(tables: &Tables, opcode: u16, case: &mut Case<'_>) {
    let parts = (
        tables.opcode_name(opcode),
        tables.opcode_format(opcode),
        tables.constraints(opcode),
    );
    let (Some(name), Some(format), Some(entry)) = parts else {
        return case.text("none");
    };
    case.shown(&opcode);
    case.field(" ", &name.as_str());
    case.field(" ", &format.as_str());
    case.letter(' ');
    case.hexadecimal(entry.flags);
    case.field(" ", &entry.typeset_offset);
    case.field(" ", &entry.second_offset);
    case.field(" ", &entry.constraint_offset);
}

fn write_sets(tables: &Tables, case: &mut Case<'_>) {
    case.shown(&tables.type_sets().len());
    case.text(" sets");
    for masks in tables.type_sets() {
        case.field("\n", &masks.lanes);
        case.field(" ", &masks.dynamic_lanes);
        case.field(" ", &masks.ints);
        case.field(" ", &masks.floats);
    }
}

pub(crate) fn write_slots(slots: &[Option<u16>], case: &mut Case<'_>) {
    let start = case.written();
    for slot in slots {
        case.item(start, "");
        case.number_or_dash(*slot);
    }
}

/// Looks up the name of an opcode, or that of an entry of a group, in a new ledger of steps.
fn found_in<L: Ledger>(
    tables: &Tables,
    group: Option<usize>,
    name: &[u8],
    blank: Blank,
) -> Option<u16>
    requires name { blank.name ≡ L.name }
    requires parts { blank.parts ≡ L.parts }
    requires one { blank.parts ≡ 1 }
{
    let mut steps = Steps::<L>::new(blank);
    match group {
        Some(group) => tables.find_setting_counted(group, name, &mut steps),
        None => tables.find_opcode_counted(name, &mut steps),
    }
}

pub(crate) fn counted(tables: &Tables, group: Option<usize>, name: &[u8]) -> Option<u16> {
    found_in::<Brand>(tables, group, name, Blank::new(1))
}

/// Writes the number that was found, `none`, or `differ` where the counted look-up found another.
pub(crate) fn write_found(plain: Option<u16>, counted: Option<u16>, case: &mut Case<'_>) {
    match plain {
        _ if plain != counted => case.text("differ"),
        Some(number) => case.shown(&number),
        None => case.text("none"),
    }
}

fn found_count(tables: &Tables) -> usize {
    let mut count = 0usize;
    for opcode in 1..=tables.opcode_count() {
        if let Some(name) = tables.opcode_name(opcode) {
            let name = name.as_bytes();
            let both = (tables.find_opcode(name), counted(tables, None, name));
            if both == (Some(opcode), Some(opcode)) {
                count = count.saturating_add(1);
            }
        }
    }
    count
}

fn control_of(word: &str) -> Result<Option<u16>, Trouble> {
    match word {
        "-" => Ok(None),
        digits => Ok(Some(number::<u16>(digits)?)),
    }
}

/// Takes the number of the control and, after `/`, that of the second control, where `-` is no control.
fn next_controls(case: &mut Case<'_>) -> Result<[Option<u16>; 2], Trouble> {
    let word = case.word();
    let (ctrl, second) = word.split_once('/').unwrap_or((word, "-"));
    Ok([control_of(ctrl)?, control_of(second)?])
}

/// Writes whether an opcode accepts numbers, where `-` is no control and an empty list. Without a second control both calls have to agree.
fn write_accepts(alloc: Global, tables: &Tables, case: &mut Case<'_>) -> Answer {
    let opcode = case.number();
    let [ctrl, second] = next_controls(case)?;
    let results = numbers_of(alloc, case.word(), "-")?;
    let values = numbers_of(alloc, case.word(), "-")?;
    let accepts = tables.accepts2(opcode, ctrl, second, &results, &values);
    if second.is_none() && tables.accepts(opcode, ctrl, &results, &values) != accepts {
        return Err(Trouble::Differ);
    }
    case.text(if accepts { "accept" } else { "refuse" });
    Ok(())
}

/// Writes how many results an opcode infers, or `none`, and then all seven places. Without a second control both calls have to agree.
fn write_inferred(tables: &Tables, case: &mut Case<'_>) -> Answer {
    let opcode = case.number();
    let [ctrl, second] = next_controls(case)?;
    let (mut numbers, mut of_one) = (PLACES, PLACES);
    let count = tables.infer_results2(opcode, ctrl, second, &mut numbers);
    if second.is_none() {
        let other = tables.infer_results(opcode, ctrl, &mut of_one);
        if (other, of_one) != (count, numbers) {
            return Err(Trouble::Differ);
        }
    }
    match count {
        Some(count) => case.shown(&count),
        None => case.text("none"),
    }
    case.letter(':');
    for number in numbers {
        case.field(" ", &number);
    }
    Ok(())
}

/// Writes what a word asks of opcodes, and answers whether it asks that. `opcodes`, `sets`, `constraints` and `slots` write all of these,
/// and `size` and `found` how many slots there are and how many names are found. `opcode NUMBER` is one of them, `find NAMES` looks up each
/// name by a plain and by a counted look-up, `accepts OPCODE CONTROL RESULTS VALUES` and `infer OPCODE CONTROL` ask about types by their
/// numbers, and `control OPCODE NUMBER` asks which type controls if the designated value has this one.
pub(crate) fn ask_opcodes(
    alloc: Global,
    tables: &Tables,
    word: &str,
    case: &mut Case<'_>,
) -> Result<bool, Trouble> {
    match word {
        "opcodes" => {
            case.shown(&tables.opcode_count());
            case.text(" opcodes");
            for number in 1..=tables.opcode_count() {
                case.letter('\n');
                write_opcode(tables, number, case);
            }
        }
        "opcode" => write_opcode(tables, case.number(), case),
        "sets" => write_sets(tables, case),
        "constraints" => {
            case.shown(&tables.operand_constraints().len());
            case.text(" constraints:");
            for constraint in tables.operand_constraints() {
                case.letter(' ');
                case.debugged(constraint);
            }
        }
        "slots" => write_slots(tables.opcode_slots(), case),
        "size" => {
            case.shown(&tables.opcode_slots().len());
            case.text(" slots");
        }
        "found" => {
            case.shown(&found_count(tables));
            case.text(" found");
        }
        "find" => {
            for name in case.word().split(',') {
                let name = name.as_bytes();
                case.separate(',');
                write_found(tables.find_opcode(name), counted(tables, None, name), case);
            }
        }
        "accepts" => write_accepts(alloc, tables, case)?,
        "infer" => write_inferred(tables, case)?,
        "control" => {
            let (opcode, number) = (case.number(), case.number());
            case.number_or_dash(tables.infer_control(opcode, number));
        }
        _ => return Ok(false),
    }
    Ok(true)
}
