ghost use Rattle.std.specs.Prelude.{◌≡◌, ◌<◌, ◌+◌, ℕ, List, length, take, slice_get, None, Some, Err, IfOk, OnOk};
ghost use Rattle.meta_build.specs.AllDeclared.{Declared};
ghost use Rattle.meta_file_syntax.specs.declared.items.Item.{Item as spec_Item};
ghost use Rattle.meta_file_types.specs.Held.{vars_in};
ghost use Rattle.meta_file_declare.specs.Held.{formats_in, insts_in};
ghost use Rattle.meta_file_declare.specs.SaidOfInsts.{Above, nothing_said, after, said};
ghost use Rattle.meta_file_declare.specs.Wrong.{known_after};
ghost use Rattle.meta_file_declare.specs.OpenGroup.{group_in, known_in, IsKeptOpen, groups_so_far, closed_by, groups_after, no_groups};
ghost use Rattle.meta_file_declare.specs.AllItems.{wrong_of_set, wrong_in, IsFirstWrong, Declares};
ghost use Rattle.meta_file_declare.specs.SoFar.{HoldsSet};
ghost use Rattle.meta_file_types.specs.declared.refused.Reason.{Reason as spec_Reason};
ghost use Rattle.meta_file_declare.specs.declared.refused.DeclareError.TheVariants.{Refused};

use super::groups::{Groups, wrong_with};
use super::insts::Insts;
use super::laws::items_say_one_thing;
use super::refused::DeclareError;
use meta_build::Declarations;
use meta_file_syntax::Item;
use meta_file_types::Types;
use std::alloc::{AllocError, Global};

#[derive(Drop)]
struct Declaring {
    types: Types,
    insts: Insts,
    groups: Groups,
}

fn add_to_set<'i>(
    alloc: Global,
    types: &mut Types,
    insts: &mut Insts,
    place: usize,
    item: &'i Item,
) -> Result<(), DeclareError<'i>>
    ghost above: { Above }
    requires { HoldsSet types.old insts.old above }
    // Nothing is wrong with the item, and what the items up to this one declare is kept.
    ensures right { OnOk result (wrong_of_set above item.now ≡ None) }
    ensures kept { OnOk result (HoldsSet types.new insts.new (after above place item.now)) }
    // The error says what is wrong with the item.
    ensures refused { (k : ℕ) (reason : spec_Reason) → result ≡ Err (Refused k reason)
        → (k ≡ place) × (wrong_of_set above item.now ≡ Some reason) }
{
    if let Err(error) = types.add(alloc, place, item) {
        return Err(DeclareError::at(place, error));
    }
    match insts.add(alloc, types, place, item) {
        Ok(()) => Ok(()),
        Err(error) => Err(DeclareError::at(place, error)),
    }
}

impl Declaring {
    fn new(alloc: Global) -> Declaring
        ensures set { HoldsSet result.types result.insts nothing_said }
        ensures groups { groups_so_far result.groups.done.items (group_in result.groups.current) ≡ no_groups }
        ensures kept { IsKeptOpen result.groups.current }
    {
        Declaring {
            types: Types::new(alloc),
            insts: Insts::new(alloc),
            groups: Groups::new(alloc),
        }
    }

    fn add<'i>(
        &mut self,
        alloc: Global,
        items: &'i [Item],
        place: usize,
    ) -> Result<(), DeclareError<'i>>
        ghost above: { Above }
        requires above { above ≡ said (take place items.now) }
        requires within { place < length items.now }
        requires set { HoldsSet self.old.types self.old.insts above }
        requires kept { IsKeptOpen self.old.groups.current }
        requires known { known_in self.old.groups.current ≡ known_after (take place items.now) }
        // What the items up to this one declare is kept, and nothing is wrong with them.
        ensures set { OnOk result (HoldsSet self.new.types self.new.insts (said (take (place + 1) items.now))) }
        ensures kept { OnOk result (IsKeptOpen self.new.groups.current) }
        ensures groups { (item : spec_Item) → slice_get items.now place ≡ Some item
            → OnOk result (groups_so_far self.new.groups.done.items (group_in self.new.groups.current)
            ≡ groups_after (groups_so_far self.old.groups.done.items (group_in self.old.groups.current)) item) }
        ensures right { OnOk result (wrong_in items.now place ≡ None) }
        // The error says what is wrong with this item.
        ensures refused { (k : ℕ) (reason : spec_Reason) → result ≡ Err (Refused k reason)
            → (k ≡ place) × (wrong_in items.now place ≡ Some reason) }
    {
        let item = &items[place];
        add_to_set(alloc, &mut self.types, &mut self.insts, place, item)?;
        match wrong_with(&self.groups.current, item) {
            Some(reason) => Err(DeclareError::Refused(place, reason)),
            None => Ok(self.groups.add(alloc, item)?),
        }
    }

    /// Makes declarations of what was added.
    fn close(self) -> Result<Declarations, AllocError>
        requires { (items : List spec_Item) × HoldsSet self.types self.insts (said items) }
        ensures vars { IfOk result (λ d. d.set.vars ≡ vars_in self.types) }
        ensures formats { IfOk result (λ d. d.set.formats ≡ formats_in self.insts) }
        ensures instructions { IfOk result (λ d. d.set.instructions ≡ insts_in self.insts) }
        ensures groups { IfOk result (λ d. d.groups ≡ closed_by self.groups.done.items (group_in self.groups.current)) }
    {
        let mut groups = self.groups;
        groups.close()?;
        let (formats, instructions) = self.insts.into_parts();
        let vars = self.types.into_vars();
        Ok(Declarations::new(vars, formats, instructions, groups.done))
    }
}

/// Makes the declarations of items. They are refused exactly if something is wrong with an item: the error has the first such item, and
/// what is wrong with it. `Memory` may come in any case.
pub fn declare(alloc: Global, items: &[Item]) -> Result<Declarations, DeclareError<'_>>
    // The declarations are those that each item says.
    ensures said { IfOk result (Declares items.now) }
    // The error names the first item that is wrong, and why.
    ensures refused { (place : ℕ) (reason : spec_Reason) → result ≡ Err (Refused place reason) → IsFirstWrong items.now place reason }
    // Items are refused only if one is wrong.
    ensures only { (d : Declared) → Declares items.now d → (place : ℕ) (reason : spec_Reason) → ¬ (result ≡ Err (Refused place reason)) }
{
    items_say_one_thing();
    let mut declaring = Declaring::new(alloc);
    for place in 0..items.len() {
        declaring.add(alloc, items, place)?;
    }
    Ok(declaring.close()?)
}
