ghost use Rattle.std.specs.Prelude.{◌≡◌, ◌<◌, length, slice_get, OnOk, None, Some, true};
ghost use Rattle.meta_operands.specs.Operand.{own_doc};
ghost use Rattle.meta_file_types.specs.Said.{Said};
ghost use Rattle.meta_file_types.specs.Operands.{after_operand};
ghost use Rattle.meta_file_types.specs.Registered.{Extends};
ghost use Rattle.meta_file_types.specs.Held as held;
ghost use Rattle.meta_file_types.specs.Telling.{Tells};
ghost use Rattle.meta_file_syntax.specs.declared.insts.Operand.{Operand as spec_Operand};
ghost use Rattle.meta_file_declare.specs.Insts.{operands_on, operand_at, operands_of};
ghost use Rattle.meta_file_types.specs.Texts.{are_texts};
ghost use Rattle.meta_file_declare.specs.InstTexts.{operand_texts};
ghost use Rattle.meta_file_declare.specs.Mentioned.{after_operands};
ghost use Rattle.meta_file_declare.specs.Registered.{IsOperandIn, AreOperandsIn};

use super::texts::{text_from, text_or_none};
use meta_file_syntax::InstItem;
use meta_file_types::{ItemError, Types};
use meta_operands::Operand;
use meta_types::Text;
use std::alloc::Global;

#[derive(Clone, Copy)]
pub(crate) enum Side {
    Inputs,
    Outputs,
}

impl Side {
    fn operands(self, item: &InstItem) -> &[meta_file_syntax::Operand]
        ensures { result.now ≡ operands_on self item.now }
    {
        match self {
            Side::Inputs => item.inputs.as_slice(),
            Side::Outputs => item.outputs.as_slice(),
        }
    }
}

fn documented(operand: Operand, doc: Option<Text>) -> Operand
    requires { own_doc operand ≡ None }
    ensures name { result.name ≡ operand.name }
    ensures kind { result.kind ≡ operand.kind }
    ensures doc { own_doc result ≡ doc }
{
    match doc {
        Some(doc) => operand.with_doc(doc),
        None => operand,
    }
}

#[tactic(auto, using(crate::proofs::TextParts::operand_name, crate::proofs::TextParts::operand_doc))]
fn operand_in<'i>(
    alloc: Global,
    types: &mut Types,
    items: &'i [meta_file_syntax::Operand],
    place: usize,
) -> Result<Operand, ItemError<'i>>
    ghost said: { Said }
    requires holds { held.Holds types.old said }
    requires within { place < length items.now }
    requires texts { are_texts (operand_texts items.now) ≡ true }
    ensures means { (o : spec_Operand) → slice_get items.now place ≡ Some o
        → Tells (IsOperandIn (held.registered types.new (after_operand said o.what))) result
        (operand_at said.words o) }
    ensures holds { (o : spec_Operand) → slice_get items.now place ≡ Some o
        → OnOk result (held.Holds types.new (after_operand said o.what)) }
    ensures extends { (o : spec_Operand) → slice_get items.now place ≡ Some o
        → OnOk result (Extends (held.registered types.old said) (held.registered types.new (after_operand said o.what))) }
{
    let item = &items[place];
    let kind = types.operand_kind(alloc, &item.what)?;
    let name = text_from(alloc, item.name.as_slice())?;
    let doc = text_or_none(alloc, &item.text)?;
    Ok(documented(Operand::new(name, kind), doc))
}

pub(crate) fn operands_in<'i>(
    alloc: Global,
    types: &mut Types,
    side: Side,
    item: &'i InstItem,
) -> Result<Vec<Operand>, ItemError<'i>>
    ghost said: { Said }
    requires holds { held.Holds types.old said }
    requires texts { are_texts (operand_texts (operands_on side item.now)) ≡ true }
    ensures means { let operands = operands_on side item.now in
        Tells (λ ms v. AreOperandsIn (held.registered types.new (after_operands said operands)) ms v.items) result
        (operands_of said.words operands) }
    ensures holds { OnOk result (held.Holds types.new (after_operands said (operands_on side item.now))) }
    ensures extends { OnOk result
        (Extends (held.registered types.old said) (held.registered types.new (after_operands said (operands_on side item.now)))) }
{
    let items = side.operands(item);
    let mut operands = Vec::new(alloc);
    for place in 0..items.len() {
        let operand = operand_in(alloc, types, items, place)?;
        operands.push(operand)?;
    }
    Ok(operands)
}
