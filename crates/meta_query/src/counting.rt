ghost use Rattle.std.specs.Prelude.{◌≡◌, ◌↔◌, ◌<◌, ◌==◌, IsTrue, length, replicate, if◌then◌else◌, Some, None};
ghost use Rattle.meta_inst.specs.Tables.{Allows, no_type_set};
ghost use Rattle.meta_query.specs.Summary.{IsFoundByName, TakesEverywhere, CountsTo};

use meta_gen::{NO_TYPE_SET, Tables};

fn is_found(tables: &Tables, opcode: u16) -> bool
    ensures { IsTrue result ↔ IsFoundByName tables.now.opcodes opcode }
{
    match tables.opcode_name(opcode) {
        Some(name) => tables.find_opcode(name.as_str().as_bytes()) == Some(opcode),
        None => false,
    }
}

/// The controlling type of an opcode with this type set offset, if it is that with this number. There is none if the opcode has no control.
fn control_of(typeset_offset: u16, number: u16) -> Option<u16>
    ensures { result ≡ (if typeset_offset == no_type_set then None else Some number) }
{
    if typeset_offset == NO_TYPE_SET {
        None
    } else {
        Some(number)
    }
}

/// Whether the opcode accepts the type with this number as all of its results and values, of which these are the counts.
fn accepts_all(
    tables: &Tables,
    opcode: u16,
    control: Option<u16>,
    number: u16,
    counts: (usize, usize),
) -> bool
    requires results { counts.0 < 8 }
    requires values { counts.1 < 8 }
    ensures { IsTrue result ↔ Allows tables.now.opcodes opcode control None (replicate counts.0 number) (replicate counts.1 number) }
{
    let numbers = [number; 7];
    let results = &numbers[..counts.0];
    let values = &numbers[..counts.1];
    tables.accepts(opcode, control, results, values)
}

/// Whether the opcode accepts the type with this number as its control, if it has one, and as every result and value.
fn takes_everywhere(tables: &Tables, opcode: u16, number: u16) -> bool
    ensures { IsTrue result ↔ TakesEverywhere tables.now.opcodes number opcode }
{
    match tables.constraints(opcode) {
        Some(constraints) => {
            let control = control_of(constraints.typeset_offset, number);
            let counts = (constraints.result_count(), constraints.value_count());
            accepts_all(tables, opcode, control, number, counts)
        }
        None => false,
    }
}

pub(crate) fn found_count(tables: &Tables) -> u16
    ensures { CountsTo (IsFoundByName tables.now.opcodes) (length tables.now.opcodes.entries) result }
{
    let mut count = 0;
    for place in 0..tables.opcode_count() {
        if is_found(tables, place + 1) {
            count += 1;
        }
    }
    count
}

/// How many opcodes accept the type with this number as their control, if they have one, and as every result and value.
pub(crate) fn taking_count(tables: &Tables, number: u16) -> u16
    ensures { CountsTo (TakesEverywhere tables.now.opcodes number) (length tables.now.opcodes.entries) result }
{
    let mut count = 0;
    for place in 0..tables.opcode_count() {
        if takes_everywhere(tables, place + 1, number) {
            count += 1;
        }
    }
    count
}
