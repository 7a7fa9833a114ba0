ghost use Rattle.std.specs.Prelude.{◌≡◌};
ghost use Rattle.meta_rust_text.specs.Names.{operand_name};

use meta_operands::Operand;

/// The name of the operand at this place, from 0. It is empty if there is no operand there.
pub(crate) fn operand_name(operands: &[Operand], place: usize) -> &str
    ensures { result.now ≡ operand_name operands.now place }
{
    match operands.get(place) {
        Some(operand) => operand.name.as_str(),
        None => "",
    }
}
