ghost use Rattle.std.specs.Prelude.{◌≡◌, ◌↔◌, ◌<◌, ℕ, List, Err, IfOk, IfSome, IfNone, IsTrue, Some, length, slice_get};
ghost use Rattle.meta_types.specs.declared.fault.DefinitionError.{DefinitionError};
ghost use Rattle.meta_build.specs.AllDeclared.{Declared, HasFirstFault, AreValid};
ghost use Rattle.meta_file_declare.specs.AllItems.{Declares as DeclaresItems};
ghost use Rattle.meta_file_declare.specs.Faults.{HasItsItem};
ghost use Rattle.meta_file_reader.specs.Reason.{reason_of};
ghost use Rattle.meta_file_load.specs.Why.{located};
ghost use Rattle.meta_program.specs.File.{AreReadOf, IsMessageOf, IsWrongMessage, IsFaultMessageOf, Declares, IsUnread};
ghost use Rattle.meta_program.specs.File.{SaysWhy, IsRefusal};
ghost use Rattle.meta_program.specs.declared.loading.LoadError.TheVariants as errors;

use super::laws::a_text_declares_one_thing;
use super::paths::shown_path;
use meta_build::{Declarations, build_all};
use meta_file_declare::{DeclareError, declare, faults_have_their_items, place_of_fault};
use meta_file_load::{declare_why, fault_why, located};
use meta_file_reader::{ReadError, ReadItems, Refusal, read_items};
use meta_file_syntax::Bytes;
use meta_file_types::Reason;
use meta_types::DefinitionError;
use std::alloc::{AllocError, Global};

/// Why a text doesn't make valid declarations.
#[derive(Drop)]
pub enum LoadError {
    /// Memory ran out.
    Memory,
    /// The text is refused. The message says why: `PATH:LINE: WHY`, without a line feed.
    Refused(Bytes),
}

impl From<AllocError> for LoadError {
    ghost from_gives = { λ _ e. e ≡ errors.Memory };

    fn from(_e: AllocError) -> LoadError {
        LoadError::Memory
    }
}

/// The message if the text reads as no items.
fn unread(alloc: Global, path: &[u8], refusal: &Refusal) -> Result<Bytes, AllocError>
    ensures { IfOk result (λ message. message ≡ located path.now refusal.now.line (reason_of refusal.now)) }
{
    let why = refusal.reason(alloc)?;
    located(alloc, path, refusal.line, &why)
}

/// The line of the item at a place.
pub(crate) fn line_of(lines: &[usize], place: usize) -> usize
    requires { place < length lines.now }
    ensures { slice_get lines.now place ≡ Some result }
{
    lines[place]
}

/// The message if the item at a place declares nothing.
fn undeclared(
    alloc: Global,
    path: &[u8],
    lines: &[usize],
    place: usize,
    reason: Reason<'_>,
) -> Result<Bytes, AllocError>
    requires { place < length lines.now }
    ensures { IfOk result (IsMessageOf path.now lines.now place reason.entry) }
{
    let line = line_of(lines, place);
    let why = declare_why(alloc, lines, reason)?;
    located(alloc, path, line, &why)
}

/// The message if the declarations of the items have a fault. An item declares what the fault names.
fn faulty(
    alloc: Global,
    path: &[u8],
    items: &ReadItems,
    fault: &DefinitionError,
) -> Result<Bytes, AllocError>
    requires item { (d : Declared) × HasItsItem items.now.items.items d fault.now }
    requires lines { length items.now.lines.items ≡ length items.now.items.items }
    ensures { IfOk result (IsFaultMessageOf path.now items.now.items.items items.now.lines.items fault.now) }
{
    let Some(place) = place_of_fault(&items.items, fault) else {
        unreachable!()
    };
    let line = line_of(&items.lines, place);
    let why = fault_why(alloc, fault)?;
    located(alloc, path, line, &why)
}

fn items_in(alloc: Global, path: &[u8], text: &[u8]) -> Result<ReadItems, LoadError>
    ensures read { IfOk result (λ r. AreReadOf text.now r.items.items r.lines.items) }
    ensures lines { IfOk result (λ r. length r.lines.items ≡ length r.items.items) }
    ensures refused { (message : List ℕ) → result ≡ Err (errors.Refused message) → IsUnread path.now text.now message }
{
    match read_items(alloc, text) {
        Ok(items) => Ok(items),
        Err(ReadError::Memory) => Err(LoadError::Memory),
        Err(ReadError::Refused(refusal)) => {
            let message = unread(alloc, path, &refusal)?;
            Err(LoadError::Refused(message))
        }
    }
}

fn declared_by(alloc: Global, path: &[u8], items: &ReadItems) -> Result<Declarations, LoadError>
    requires { length items.now.lines.items ≡ length items.now.items.items }
    ensures said { IfOk result (DeclaresItems items.now.items.items) }
    ensures refused { (message : List ℕ) → result ≡ Err (errors.Refused message)
        → IsWrongMessage path.now items.now.items.items items.now.lines.items message }
{
    match declare(alloc, &items.items) {
        Ok(declarations) => Ok(declarations),
        Err(DeclareError::Memory) => Err(LoadError::Memory),
        Err(DeclareError::Refused(place, reason)) => {
            let message = undeclared(alloc, path, &items.lines, place, reason)?;
            Err(LoadError::Refused(message))
        }
    }
}

fn is_out_of_memory(fault: &DefinitionError) -> bool
    ensures { IsTrue result ↔ (fault.now ≡ DefinitionError.OutOfMemory) }
{
    matches!(fault, DefinitionError::OutOfMemory)
}

fn fault_in(
    alloc: Global,
    declarations: &Declarations,
) -> Result<Option<DefinitionError>, AllocError>
    ensures none { IfOk result (λ o. IfNone o (AreValid declarations.now)) }
    ensures some { IfOk result (λ o. IfSome o (HasFirstFault declarations.now)) }
{
    match build_all(alloc, declarations) {
        Ok(_built) => Ok(None),
        Err(fault) => {
            if is_out_of_memory(&fault) {
                return Err(AllocError);
            }
            Ok(Some(fault))
        }
    }
}

/// The declarations of a text, which are valid. The path is as a message shows it.
fn loaded(alloc: Global, path: &[u8], text: &[u8]) -> Result<Declarations, LoadError>
    ensures declared { IfOk result (Declares text.now) }
    ensures valid { IfOk result AreValid }
    ensures refused { (message : List ℕ) → result ≡ Err (errors.Refused message) → SaysWhy path.now text.now message }
{
    let items = items_in(alloc, path, text)?;
    let declarations = declared_by(alloc, path, &items)?;
    match fault_in(alloc, &declarations)? {
        None => Ok(declarations),
        Some(fault) => {
            faults_have_their_items();
            let message = faulty(alloc, path, &items, &fault)?;
            Err(LoadError::Refused(message))
        }
    }
}

/// Makes the declarations of a text. They are valid. The text is refused exactly if it reads as no items, or an item declares nothing, or
/// the declarations have a fault. The message says which of these comes first, with its line. The path stands before the line in the
/// message, as `shown_path` shows it. `Memory` may come in any case.
pub fn load(alloc: Global, path: &str, text: &[u8]) -> Result<Declarations, LoadError>
    // The declarations that the text makes.
    ensures declared { IfOk result (Declares text.now) }
    ensures valid { IfOk result AreValid }
    // The message says what is wrong first, with its line.
    ensures refused { (message : List ℕ) → result ≡ Err (errors.Refused message) → IsRefusal path.now text.now message }
    // A text that makes valid declarations isn't refused.
    ensures only { (d : Declared) (message : List ℕ) → Declares text.now d → AreValid d → ¬ (result ≡ Err (errors.Refused message)) }
{
    a_text_declares_one_thing();
    let shown = shown_path(alloc, path)?;
    loaded(alloc, shown.as_bytes(), text)
}
