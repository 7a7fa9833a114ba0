ghost use Rattle.std.specs.Prelude.{◌<◌, ◌≤◌, ◌^◌, ◌++◌, length, IfSome, IfNone};
ghost use Rattle.meta_gen.specs.Contents.{AllPass};
ghost use Rattle.meta_explain.specs.Parts.{numbers_of};
ghost use Rattle.meta_explain.specs.Search.{IsFirstUnfit};

use super::control_types::ControlTypes;
use meta_gen::OpcodeTables;

/// The place of the first number that doesn't pass the operand constraint at its place after the offset. `None` if all pass.
fn first_unfit(
    tables: &OpcodeTables,
    controls: ControlTypes,
    offset: usize,
    numbers: &[u16],
) -> Option<usize>
    requires { offset < 2 ^ 32 }
    ensures some { IfSome result (IsFirstUnfit tables.now (numbers_of controls) offset numbers.now) }
    ensures none { IfNone result (AllPass tables.now (numbers_of controls) offset numbers.now) }
{
    for (k, number) in numbers.iter().enumerate() {
        if !tables.operand_passes(controls.ctrl, controls.second, offset + k, *number) {
            return Some(k);
        }
    }
    None
}

/// The same of the results and of the values that follow them.
pub(crate) fn unfit_operand(
    tables: &OpcodeTables,
    controls: ControlTypes,
    offset: usize,
    results: &[u16],
    values: &[u16],
) -> Option<usize>
    requires offset { offset < 2 ^ 16 }
    requires few { length results.now ≤ 7 }
    ensures some { IfSome result (IsFirstUnfit tables.now (numbers_of controls) offset (results.now ++ values.now)) }
    ensures none { IfNone result (AllPass tables.now (numbers_of controls) offset (results.now ++ values.now)) }
{
    if let Some(k) = first_unfit(tables, controls, offset, results) {
        return Some(k);
    }
    let k = first_unfit(tables, controls, offset + results.len(), values)?;
    Some(results.len() + k)
}
