ghost use Rattle.std.specs.Prelude.{◌≡◌, IfOk};
ghost use Rattle.meta_file_types.specs.Texts.{field_or};

use super::insts::default_doc;
use super::roots::Roots;
use super::texts::{begins_as_name, bytes_of, docs_of, name_of, snake_case};
use super::unsaid::Unsaid;
use super::words::{NameCounts, Words};
use meta_build::Declarations;
use meta_file_syntax::{
    Bytes, Docs, EnumValue, Item, KindItem, Listed, Name, Sort, TypeExpr, write_items,
};
use meta_file_types::GivenKind;
use meta_operands::{FormatId, Operand, OperandKind, OperandKindFields};
use meta_typevar::TypeVar;
use std::alloc::{AllocError, Global};
use std::collections::{BTreeMap, BTreeSet};

fn sort_of(alloc: Global, roots: &Roots<'_>, fields: &OperandKindFields) -> Result<Sort, Unsaid> {
    match fields {
        OperandKindFields::EntityRef => Ok(Sort::Entity),
        OperandKindFields::VariableArgs => Ok(Sort::Varargs),
        OperandKindFields::ImmValue => Ok(Sort::Imm),
        OperandKindFields::ImmEnum(values) => {
            let mut listed = Vec::new(alloc);
            for (name, rust) in values.iter() {
                let name = name_of(alloc, name.as_bytes())?;
                let rust = name_of(alloc, rust.as_bytes())?;
                listed.push(EnumValue { name, rust })?;
            }
            Ok(Sort::ImmEnum(Listed::of(listed)))
        }
        OperandKindFields::TypeVar(variable) => {
            Ok(Sort::Value(roots.type_expr(alloc, *variable)?))
        }
    }
}

fn field_unless_word(alloc: Global, field: &[u8], word: &Bytes) -> Result<Option<Name>, AllocError>
    ensures { IfOk result (λ other. field_or word.now other ≡ field.now) }
{
    if field == word.as_slice() {
        return Ok(None);
    }
    Ok(Some(name_of(alloc, field)?))
}

/// The item of a kind. The documentation of a kind of values stands nowhere.
fn kind_item(
    alloc: Global,
    roots: &Roots<'_>,
    kind: &OperandKind,
    word: Bytes,
) -> Result<KindItem, Unsaid>
    ensures word { IfOk result (λ item. item.word ≡ word) }
    ensures field { IfOk result (λ item. field_or item.word item.field ≡ kind.now.rust_field_name) }
    ensures rust { IfOk result (λ item. item.rust ≡ kind.now.rust_type) }
{
    let docs = match kind.fields {
        OperandKindFields::TypeVar(_) => Docs::of(Vec::new(alloc)),
        _ => {
            let doc = default_doc(alloc, roots.vars(), kind)?;
            docs_of(alloc, doc.as_bytes())?
        }
    };
    let field = field_unless_word(alloc, kind.rust_field_name.as_bytes(), &word)?;
    Ok(KindItem {
        docs,
        word,
        sort: sort_of(alloc, roots, &kind.fields)?,
        rust: bytes_of(alloc, kind.rust_type.as_bytes())?,
        field,
    })
}

/// What tells a kind from others: the text of its item without a word.
fn key_of(alloc: Global, roots: &Roots<'_>, kind: &OperandKind) -> Result<Vec<u8>, Unsaid> {
    let item = kind_item(alloc, roots, kind, bytes_of(alloc, b"")?)?;
    Ok(write_items(alloc, &[Item::Kind(item)])?)
}

/// The kinds that exist before any item, and their words.
const GIVEN: [(GivenKind, &[u8]); 3] = [
    (GivenKind::Block, b"block"),
    (GivenKind::RawBlock, b"raw_block"),
    (GivenKind::Varargs, b"varargs"),
];

/// The variable of values of a type, if the kind says no more of them.
fn plain_variable(kind: &OperandKind) -> Option<TypeVar> {
    if kind.rust_field_name.as_str() != "value" || kind.rust_type.as_str() != "ir::Value" {
        return None;
    }
    match kind.fields {
        OperandKindFields::TypeVar(variable) => Some(variable),
        _ => None,
    }
}

/// The kinds that need items, in order of first use, and how many of them have each field name.
#[derive(Drop)]
struct UsedKinds<'d> {
    known: BTreeSet<Vec<u8>>,
    kinds: Vec<&'d OperandKind>,
    fields: NameCounts,
}

impl<'d> UsedKinds<'d> {
    fn add(
        &mut self,
        alloc: Global,
        kind: &'d OperandKind,
        key: Vec<u8>,
    ) -> Result<(), AllocError> {
        if self.known.contains(&key) {
            return Ok(());
        }
        self.known.insert(key)?;
        self.kinds.push(kind)?;
        self.fields.add(alloc, kind.rust_field_name.as_bytes())
    }

    fn add_operands(
        &mut self,
        alloc: Global,
        roots: &Roots<'_>,
        given: &BTreeMap<Vec<u8>, Bytes>,
        operands: &'d [Operand],
    ) -> Result<(), Unsaid> {
        for operand in operands {
            if plain_variable(&operand.kind).is_none() {
                let key = key_of(alloc, roots, &operand.kind)?;
                if !given.contains_key(&key) {
                    self.add(alloc, &operand.kind, key)?;
                }
            }
        }
        Ok(())
    }
}

/// The kinds that need items: first those of fields of the formats, and then those of operands, but for those that are given.
fn used_kinds<'d>(
    alloc: Global,
    declarations: &'d Declarations,
    formats: &BTreeSet<FormatId>,
    roots: &Roots<'_>,
    given: &BTreeMap<Vec<u8>, Bytes>,
) -> Result<UsedKinds<'d>, Unsaid> {
    let mut used = UsedKinds {
        known: BTreeSet::new(alloc),
        kinds: Vec::new(alloc),
        fields: NameCounts::new(alloc),
    };
    let table = declarations.formats();
    for id in formats.iter() {
        if table.is_of(*id) {
            for field in table.get(*id).imm_fields.as_slice() {
                let key = key_of(alloc, roots, &field.kind)?;
                used.add(alloc, &field.kind, key)?;
            }
        }
    }
    let instructions = declarations.instructions();
    for place in 0..instructions.len() {
        let inst = instructions.get(place);
        used.add_operands(alloc, roots, given, inst.inputs())?;
        used.add_operands(alloc, roots, given, inst.outputs())?;
    }
    Ok(used)
}

/// The word for a kind: the name of its field where no other kind in use has that, and else one that is made of its Rust type.
fn word_for(
    alloc: Global,
    words: &mut Words,
    fields: &NameCounts,
    kind: &OperandKind,
) -> Result<Bytes, Unsaid> {
    let field = kind.rust_field_name.as_bytes();
    if begins_as_name(field) && fields.has_one(field) {
        return words.give(alloc, field, true);
    }
    let made = snake_case(alloc, kind.rust_type.as_bytes())?;
    if begins_as_name(&made) {
        return words.give(alloc, &made, true);
    }
    words.give(alloc, b"kind", true)
}

/// The words of kinds, by what tells them from others.
#[derive(Drop)]
pub(crate) struct Kinds<'d> {
    roots: Roots<'d>,
    /// Those that are there before any item, which name no field of a format.
    given: BTreeMap<Vec<u8>, Bytes>,
    declared: BTreeMap<Vec<u8>, Bytes>,
}

impl<'d> Kinds<'d> {
    fn add_given(&mut self, alloc: Global) -> Result<(), Unsaid> {
        for (given, word) in GIVEN {
            let key = key_of(alloc, &self.roots, &given.kind(alloc)?)?;
            self.given.insert(key, bytes_of(alloc, word)?)?;
        }
        Ok(())
    }

    /// Gives each kind in use a word, and adds the items of those that need one.
    pub(crate) fn of(
        alloc: Global,
        declarations: &'d Declarations,
        formats: &BTreeSet<FormatId>,
        roots: Roots<'d>,
        words: &mut Words,
        items: &mut Vec<Item>,
    ) -> Result<Kinds<'d>, Unsaid> {
        let mut kinds = Kinds {
            roots,
            given: BTreeMap::new(alloc),
            declared: BTreeMap::new(alloc),
        };
        kinds.add_given(alloc)?;
        let used = used_kinds(alloc, declarations, formats, &kinds.roots, &kinds.given)?;
        for kind in &used.kinds {
            let word = word_for(alloc, words, &used.fields, kind)?;
            let key = key_of(alloc, &kinds.roots, kind)?;
            kinds.declared.insert(key, word.copy(alloc)?)?;
            items.push(Item::Kind(kind_item(alloc, &kinds.roots, kind, word)?))?;
        }
        Ok(kinds)
    }

    pub(crate) fn roots(&self) -> &Roots<'d> {
        &self.roots
    }

    /// The word of the kind of a format's field.
    pub(crate) fn field_word(&self, alloc: Global, kind: &OperandKind) -> Result<Bytes, Unsaid> {
        let key = key_of(alloc, &self.roots, kind)?;
        match self.declared.get(&key) {
            Some(word) => Ok(word.copy(alloc)?),
            None => Err(Unsaid::Unsayable),
        }
    }

    pub(crate) fn type_or_kind(
        &self,
        alloc: Global,
        kind: &OperandKind,
    ) -> Result<TypeExpr, Unsaid> {
        if let Some(variable) = plain_variable(kind) {
            return self.roots.type_expr(alloc, variable);
        }
        let key = key_of(alloc, &self.roots, kind)?;
        let word = match self.given.get(&key) {
            Some(word) => word.copy(alloc)?,
            None => self.field_word(alloc, kind)?,
        };
        Ok(TypeExpr {
            functions: Listed::of(Vec::new(alloc)),
            word,
        })
    }
}
