use meta_file_declare::{DeclareError, declare};
use meta_file_reader::{ReadError, read_items};
use meta_file_syntax::{Bytes, FormatItem, Item, Listed, tokens_of, write_items, write_tokens};
use meta_file_types::Reason;
use rows_base::{Answer, Case, Trouble, write_bytes};
use std::alloc::Global;

/// Writes how much items declare, or which of them is wrong first, and why.
fn write_declared(alloc: Global, items: &[Item], case: &mut Case<'_>) {
    match declare(alloc, items) {
        Ok(declarations) => {
            case.field("variables ", &declarations.vars().len());
            case.field(" formats ", &declarations.formats().len());
            case.field(" instructions ", &declarations.instructions().len());
        }
        Err(DeclareError::Memory) => case.refuse(Trouble::OutOfMemory),
        Err(DeclareError::Refused(place, reason)) => {
            case.field("Refused(", &place);
            write_reason(reason, case);
            case.text(")");
        }
    }
}

fn write_reason(reason: Reason<'_>, case: &mut Case<'_>) {
    match reason {
        Reason::TwoDesignated(slot) => case.field(", TwoDesignated ", &slot),
        Reason::SecondTwice(mark) => case.field(", SecondTwice ", &mark),
        Reason::Unknown(word) => {
            case.text(", Unknown ");
            write_bytes(case, word.as_slice());
        }
        Reason::NoType(word) => {
            case.text(", NoType ");
            write_bytes(case, word.as_slice());
        }
        Reason::NotText => case.text(", NotText"),
        _ => case.refuse(Trouble::NoCase),
    }
}

/// Writes what a word asks of the text of a file: `tokens` and `items` ask for its tokens and its items as canonical text, and `declares`
/// how much its items declare, or which of them is wrong first. `format` asks the same of a format without slots, whose word is the text.
pub fn ask_items(alloc: Global, word: &str, text: &[u8], case: &mut Case<'_>) -> Answer {
    if word == "tokens" {
        let read = tokens_of(alloc, text)?;
        write_bytes(case, &write_tokens(alloc, &read.tokens)?);
        return Ok(());
    }
    if word == "format" {
        let item = Item::Format(FormatItem {
            word: Bytes::of(text.to_vec(alloc)?),
            shown: None,
            slots: Listed::of(Vec::new(alloc)),
        });
        write_declared(alloc, &[item], case);
        return Ok(());
    }
    match read_items(alloc, text) {
        Ok(read) if word == "items" => write_bytes(case, &write_items(alloc, &read.items)?),
        Ok(read) => write_declared(alloc, &read.items, case),
        Err(ReadError::Memory) => return Err(Trouble::OutOfMemory),
        Err(ReadError::Refused(_)) => return Err(Trouble::NoCase),
    }
    Ok(())
}
