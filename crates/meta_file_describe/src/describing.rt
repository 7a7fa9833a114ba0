ghost use Rattle.std.specs.Prelude.{◌≡◌, ◌↔◌, List, [], Some, IfOk, OnOk, IfSome, IsTrue, option_map, string_bytes};
ghost use Rattle.std.specs.Str.{IsUtf8};
ghost use Rattle.meta_build.specs.AllDeclared.{Declared};
ghost use Rattle.meta_file_syntax.specs.declared.items.Item.{Item as spec_Item};
ghost use Rattle.meta_file_declare.specs.AllItems.{Declares};
ghost use Rattle.meta_file_reader.specs.Fits.{AllFit};
ghost use Rattle.meta_file_syntax.specs.Laid.{laid};
ghost use Rattle.meta_file_syntax.specs.Squeezed.{read_in};
ghost use Rattle.meta_file_syntax.specs.Spelling.{spelled_all};
ghost use Rattle.meta_file_describe.specs.Described.{Describes, IsDescription, AreBuiltAlike, HoldSettingsAlone};
ghost use Rattle.meta_file_describe.specs.SettingItems.{items_of_groups, EndWith};

use super::checking::{are_same, is_described};
use super::formats::{FormatWords, used_formats};
use super::insts::push_insts;
use super::kinds::Kinds;
use super::roots::Roots;
use super::settings::push_groups;
use super::unsaid::Unsaid;
use super::words::Words;
use meta_build::Built;
use meta_file_reader::{ReadError, one_list_of_items, read_items, what_is_written_is_read};
use meta_file_syntax::{Item, write_items};
use meta_setting_tables::built_groups_have_tables;
use std::alloc::{AllocError, Global};
use std::str;

fn group_items(alloc: Global, built: &Built<'_>) -> Result<Vec<Item>, AllocError>
    ensures says { IfOk result (λ v. v.items ≡ items_of_groups built.now.groups) }
    ensures fit { OnOk result (AllFit (items_of_groups built.now.groups)) }
{
    built_groups_have_tables();
    let _declarations = built.declarations();
    let mut items = Vec::new(alloc);
    push_groups(alloc, built.groups(), &mut items)?;
    Ok(items)
}

/// The items for what is built of declarations: types and kinds, formats, instructions, and groups.
fn items_for(alloc: Global, built: &Built<'_>) -> Result<Vec<Item>, Unsaid>
    ensures { IfOk result (λ v. EndWith v.items built.now.groups) }
{
    built_groups_have_tables();
    let declarations = built.declarations();
    let formats = used_formats(alloc, built)?;
    let (mut items, mut words) = (Vec::new(alloc), Words::new(alloc));
    let roots = Roots::of(alloc, declarations, &mut words, &mut items)?;
    let kinds = Kinds::of(alloc, declarations, &formats, roots, &mut words, &mut items)?;
    let format_words = FormatWords::of(alloc, declarations, &formats, &kinds, &mut items)?;
    push_insts(alloc, built, &kinds, &format_words, &mut items)?;
    push_groups(alloc, built.groups(), &mut items)?;
    Ok(items)
}

/// The items for what is built of declarations, if items can say it. If there are no instructions, no format is in use.
fn tried_items(alloc: Global, built: &Built<'_>) -> Result<Option<Vec<Item>>, AllocError>
    ensures settings { built.now.instructions ≡ []
        → IfOk result (λ o. option_map (λ v. v.items) o ≡ Some (items_of_groups built.now.groups)) }
    ensures fit { built.now.instructions ≡ [] → OnOk result (AllFit (items_of_groups built.now.groups)) }
    ensures groups { IfOk result (λ o. IfSome o (λ v. EndWith v.items built.now.groups)) }
{
    if built.instructions().is_empty() {
        return Ok(Some(group_items(alloc, built)?));
    }
    match items_for(alloc, built) {
        Ok(items) => Ok(Some(items)),
        Err(Unsaid::Memory) => Err(AllocError),
        Err(Unsaid::Unsayable) => Ok(None),
    }
}

/// The items that describe declarations, in one form. `built` is what is built of the declarations. There are a type for each root in use
/// that isn't a plain type's, kinds, the formats in use, the instructions, and the groups. Settings stand in the order of their layout, and
/// presets name the booleans that they turn on.
///
/// The items are made, declared and compared. `None` comes if something has no word, as the kind of a format's field whose values have a
/// variable of another registry. It also comes if the items would declare something else or be refused. That is so if more functions lead
/// from its root to a variable than a type can have, or if some do and the root's name has more than 4,096 bytes.
pub fn describe(alloc: Global, built: &Built<'_>) -> Result<Option<Vec<Item>>, AllocError>
    // What the items declare has the same tables and the same texts.
    ensures describes { IfOk result (λ o. IfSome o (λ v. Describes v.items built.now.declared)) }
    // The last items are those of the groups, each setting's in the order of the layout.
    ensures groups { IfOk result (λ o. IfSome o (λ v. EndWith v.items built.now.groups)) }
    // Settings alone are described, by these items.
    ensures settings { HoldSettingsAlone built.now.declared
        → IfOk result (λ o. option_map (λ v. v.items) o ≡ Some (items_of_groups built.now.groups)) }
{
    // Its clauses say that the parts are what is built of the declarations.
    let _declarations = built.declarations();
    let Some(items) = tried_items(alloc, built)? else {
        return Ok(None);
    };
    if is_described(alloc, built, &items)? {
        return Ok(Some(items));
    }
    Ok(None)
}

/// Whether a text is the canonical one of the items that it reads as, and these describe the declarations, of which this is built.
#[tactic(auto, using(crate::proofs::Alike::description))]
pub fn is_description(alloc: Global, built: &Built<'_>, text: &[u8]) -> Result<bool, AllocError>
    ensures describes { IfOk result (λ described. IsTrue described ↔ IsDescription text.now built.now.declared) }
    ensures utf8 { IfOk result (λ described. IsTrue described → IsUtf8 text.now) }
    // The canonical text of items that declare something of which the same is built describes them.
    ensures alike { (items : List spec_Item) (e : Declared) → text.now ≡ laid (spelled_all items) → AllFit items
        → read_in text.now ≡ spelled_all items → Declares items e → AreBuiltAlike built.now.declared e → IfOk result IsTrue }
{
    one_list_of_items();
    match read_items(alloc, text) {
        Ok(read) => {
            let written = write_items(alloc, &read.items)?;
            let is_alike = is_described(alloc, built, &read.items)?;
            Ok(are_same(&written, text) && is_alike)
        }
        Err(ReadError::Memory) => Err(AllocError),
        Err(ReadError::Refused(_)) => Ok(false),
    }
}

fn text_of(alloc: Global, bytes: &[u8]) -> Result<String, AllocError>
    requires { IsUtf8 bytes.now }
    ensures { IfOk result (λ text. string_bytes text ≡ bytes.now) }
{
    match str::from_utf8(bytes) {
        Ok(text) => String::from_str(alloc, text),
        Err(_) => unreachable!(),
    }
}

/// The text of a file that describes declarations, of which this is built, by the items that `describe` makes.
///
/// The text is made, read, declared and compared. `None` comes if something has no word, or if the text would declare something else or be
/// refused.
pub fn write_description(alloc: Global, built: &Built<'_>) -> Result<Option<String>, AllocError>
    // The text reads as items that declare what has the same tables and the same texts.
    ensures describes { IfOk result (λ o. IfSome o (λ text. IsDescription (string_bytes text) built.now.declared)) }
    // Settings alone are described, by the canonical text of their items.
    ensures settings { HoldSettingsAlone built.now.declared
        → IfOk result (λ o. option_map string_bytes o ≡ Some (laid (spelled_all (items_of_groups built.now.groups)))) }
{
    what_is_written_is_read();
    // Its clauses say that the parts are what is built of the declarations.
    let _declarations = built.declarations();
    let Some(items) = tried_items(alloc, built)? else {
        return Ok(None);
    };
    let text = write_items(alloc, &items)?;
    if is_description(alloc, built, &text)? {
        return Ok(Some(text_of(alloc, &text)?));
    }
    Ok(None)
}
