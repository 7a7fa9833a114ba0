ghost use Rattle.std.specs.Prelude.{◌≡◌, IfOk, is_some};
ghost use Rattle.meta_file_types.specs.Plain.{given_kind, is_own_word, has_own_meaning};
ghost use Rattle.meta_file_types.specs.Meant.{kind_given};
ghost use Rattle.meta_file_types.specs.Registered.{Registered, IsKindIn};

use super::plain::plain_type;
use meta_operands::{OperandKind, OperandKindFields};
use meta_types::Text;
use std::alloc::{AllocError, Global};

/// A kind that exists before any item.
#[derive(Clone, Copy)]
pub enum GivenKind {
    /// `block`: a block that takes arguments.
    Block,
    /// `raw_block`: a block without arguments.
    RawBlock,
    /// `varargs`: any number of values.
    Varargs,
}

impl GivenKind {
    #[tactic(auto, unfolding(crate::specs::Plain::given_kind))]
    /// The kind of this word. `None` exactly if no kind has it before any item.
    pub fn of(word: &[u8]) -> Option<GivenKind>
        ensures { result ≡ given_kind word.now }
    {
        if word == b"block".as_slice() {
            return Some(GivenKind::Block);
        }
        if word == b"raw_block".as_slice() {
            return Some(GivenKind::RawBlock);
        }
        if word == b"varargs".as_slice() {
            return Some(GivenKind::Varargs);
        }
        None
    }

    /// The kind of operands that it is.
    pub fn kind(self, alloc: Global) -> Result<OperandKind, AllocError>
        ensures { (r : Registered) → IfOk result (IsKindIn r (kind_given self)) }
    {
        match self {
            GivenKind::Block => Ok(OperandKind::new(
                Text::new(alloc, "block")?,
                Text::new(alloc, "ir::BlockCall")?,
                OperandKindFields::EntityRef,
                Text::new(
                    alloc,
                    "a basic block in the same function, with its arguments provided.",
                )?,
            )),
            GivenKind::RawBlock => Ok(OperandKind::new(
                Text::new(alloc, "raw_block")?,
                Text::new(alloc, "ir::Block")?,
                OperandKindFields::EntityRef,
                Text::new(
                    alloc,
                    "a basic block in the same function, with no arguments provided.",
                )?,
            )),
            GivenKind::Varargs => Ok(OperandKind::new(
                Text::new(alloc, "")?,
                Text::new(alloc, "&[Value]")?,
                OperandKindFields::VariableArgs,
                Text::new(alloc, "A variable size list of `value` operands.")?,
            )),
        }
    }
}

/// Whether the word has a meaning in some place of a file. Names of plain types aren't looked at.
#[tactic(auto, unfolding(crate::specs::Plain::is_own_word))]
fn is_own_word(word: &[u8]) -> bool
    ensures { result ≡ is_own_word word.now }
{
    word == b"value".as_slice()
        || word == b"designated".as_slice()
        || word == b"block".as_slice()
        || word == b"raw_block".as_slice()
        || word == b"varargs".as_slice()
        || word == b"none".as_slice()
}

/// Whether no item can declare the word: it names a plain type, or has a meaning in some place of a file.
pub fn has_own_meaning(word: &[u8]) -> bool
    ensures { result ≡ has_own_meaning word.now }
{
    plain_type(word).is_some() || is_own_word(word)
}
