ghost use Rattle.meta_file_reader.specs.Parts.{Gives};
ghost use Rattle.meta_file_reader.specs.SetReading.{slots_at, format_item_at};

use super::fault::{Fault, PartError, Wanted};
use super::lists::{Element, Layout, some};
use super::parts::{after_sign, begins_with_word, comment, word_of};
use meta_file_syntax::{FormatItem, Listed, Slot, Token};
use std::alloc::Global;

impl Element for Slot {
    ghost use Rattle.meta_file_reader.specs.SetReading.{slot_at};

    ghost at = { slot_at };

    #[tactic(auto, unfolding(crate::specs::SetReading::slot_at, crate::specs::SetReading::designated_at))]
    fn read(
        alloc: Global,
        tokens: &[Token],
        wanted: Wanted,
    ) -> Result<(Slot, &[Token]), PartError> {
        if begins_with_word(tokens, b"value") {
            return Ok((Slot::Value, &tokens[1..]));
        }
        if begins_with_word(tokens, b"designated") {
            let rest = &tokens[1..];
            if begins_with_word(rest, b"value") {
                return Ok((Slot::Designated, &rest[1..]));
            }
            return Err(PartError::Fault(Fault {
                left: rest.len(),
                wanted: Wanted::ValueWord,
            }));
        }
        let (word, rest) = word_of(alloc, tokens, wanted)?;
        Ok((Slot::Kind(word), rest))
    }
}

#[tactic(auto, unfolding(crate::specs::SetReading::slots_at))]
fn slots(alloc: Global, tokens: &[Token]) -> Result<(Listed<Slot>, &[Token]), PartError>
    ensures { Gives (λ x. (x.0, x.1.now)) result (slots_at tokens.now) }
{
    if begins_with_word(tokens, b"none") {
        return Ok((Listed::of(Vec::new(alloc)), &tokens[1..]));
    }
    some(alloc, tokens, Layout::Commas, Wanted::Slot)
}

#[tactic(auto, unfolding(crate::specs::SetReading::format_item_at))]
pub(crate) fn format_item(
    alloc: Global,
    tokens: &[Token],
) -> Result<(FormatItem, &[Token]), PartError>
    ensures { Gives (λ x. (x.0, x.1.now)) result (format_item_at tokens.now) }
{
    let (word, rest) = word_of(alloc, tokens, Wanted::FormatWord)?;
    let (shown, rest) = comment(alloc, rest)?;
    let rest = after_sign(rest, b':')?;
    let (slots, rest) = slots(alloc, rest)?;
    Ok((FormatItem { word, shown, slots }, rest))
}
