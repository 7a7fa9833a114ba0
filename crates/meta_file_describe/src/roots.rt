ghost use Rattle.std.specs.Prelude.{◌<◌, length};

use super::sets::set_of;
use super::texts::{begins_as_name, bytes_of, docs_of, unless_same};
use super::unsaid::Unsaid;
use super::words::{NameCounts, Words};
use meta_build::Declarations;
use meta_file_syntax::{Bytes, Item, Listed, TypeExpr, TypeItem};
use meta_file_types::add_plain_root;
use meta_inst::InstructionBuilder;
use meta_operands::{FormatTable, Operand, OperandKindFields};
use meta_types::ValueType;
use meta_typevar::{TypeVar, TypeVars};
use std::alloc::{AllocError, Global};
use std::collections::{BTreeMap, BTreeSet};

/// The roots of the variables of which values are, those of kinds in formats too.
#[derive(Drop)]
struct UsedRoots<'d> {
    vars: &'d TypeVars,
    roots: BTreeSet<TypeVar>,
}

impl<'d> UsedRoots<'d> {
    /// Adds the root of a variable, if there is one; one that isn't of the registry is left out.
    fn add(&mut self, variable: Option<TypeVar>) -> Result<(), AllocError> {
        if let Some(variable) = variable {
            if self.vars.is_of(variable) {
                self.roots.insert(variable.root(self.vars))?;
            }
        }
        Ok(())
    }

    fn add_operands(&mut self, operands: &[Operand]) -> Result<(), AllocError> {
        for operand in operands {
            self.add(operand.type_var())?;
        }
        Ok(())
    }

    fn add_inst(
        &mut self,
        formats: &FormatTable,
        inst: &InstructionBuilder,
    ) -> Result<(), AllocError> {
        if formats.is_of(inst.format()) {
            for field in formats.get(inst.format()).imm_fields.as_slice() {
                if let OperandKindFields::TypeVar(variable) = field.kind.fields {
                    self.add(Some(variable))?;
                }
            }
        }
        self.add_operands(inst.inputs())?;
        self.add_operands(inst.outputs())?;
        self.add(inst.second())
    }
}

fn used_roots(alloc: Global, declarations: &Declarations) -> Result<BTreeSet<TypeVar>, AllocError> {
    let mut used = UsedRoots {
        vars: declarations.vars(),
        roots: BTreeSet::new(alloc),
    };
    let instructions = declarations.instructions();
    for place in 0..instructions.len() {
        used.add_inst(declarations.formats(), instructions.get(place))?;
    }
    Ok(used.roots)
}

/// Whether what is kept of the root is what the word of a plain type stands for.
fn is_plain(alloc: Global, vars: &TypeVars, root: TypeVar) -> Result<bool, AllocError>
    requires { root < length vars.now }
{
    let content = vars.content(root);
    let Some(value_type) = ValueType::parse(content.name.as_bytes()) else {
        return Ok(false);
    };
    let mut others = TypeVars::new(alloc);
    let plain = add_plain_root(alloc, &mut others, value_type)?;
    if others.content(plain).doc != content.doc {
        return Ok(false);
    }
    let masks = plain.get_typeset(alloc, &others)?.masks();
    Ok(root.get_typeset(alloc, vars)?.masks() == masks)
}

/// The plain types that have a root, and how many other roots have each name.
#[derive(Drop)]
struct RootNames {
    plain: BTreeSet<Vec<u8>>,
    others: NameCounts,
}

#[derive(Drop)]
pub(crate) struct Roots<'d> {
    vars: &'d TypeVars,
    words: BTreeMap<TypeVar, Bytes>,
}

impl<'d> Roots<'d> {
    /// Gives a root the plain type's name, if it is the first that stands for one.
    fn add_plain(
        &mut self,
        alloc: Global,
        names: &mut RootNames,
        root: TypeVar,
    ) -> Result<(), Unsaid> {
        if !self.vars.is_of(root) {
            return Err(Unsaid::Unsayable);
        }
        let name = self.vars.content(root).name.as_bytes();
        if is_plain(alloc, self.vars, root)? && !names.plain.contains(name) {
            names.plain.insert(Vec::from_slice(alloc, name)?)?;
            self.words.insert(root, bytes_of(alloc, name)?)?;
            return Ok(());
        }
        Ok(names.others.add(alloc, name)?)
    }

    /// Gives a root a word, and adds its item, if it stands for no plain type.
    fn add_other(
        &mut self,
        alloc: Global,
        others: &NameCounts,
        words: &mut Words,
        items: &mut Vec<Item>,
        root: TypeVar,
    ) -> Result<(), Unsaid> {
        if !self.vars.is_of(root) || self.words.contains_key(&root) {
            return Ok(());
        }
        let content = self.vars.content(root);
        let name = content.name.as_bytes();
        let base = if begins_as_name(name) { name } else { b"T" };
        let word = words.give(alloc, base, others.has_one(name))?;
        let masks = root.get_typeset(alloc, self.vars)?.masks();
        items.push(Item::Type(TypeItem {
            docs: docs_of(alloc, content.doc.as_bytes())?,
            word: word.copy(alloc)?,
            shown: unless_same(alloc, name, word.as_slice())?,
            set: set_of(alloc, masks)?,
        }))?;
        self.words.insert(root, word)?;
        Ok(())
    }

    /// Gives each root in use a word, and adds the items of those that stand for no plain type.
    pub(crate) fn of(
        alloc: Global,
        declarations: &'d Declarations,
        words: &mut Words,
        items: &mut Vec<Item>,
    ) -> Result<Roots<'d>, Unsaid> {
        let used = used_roots(alloc, declarations)?;
        let mut roots = Roots {
            vars: declarations.vars(),
            words: BTreeMap::new(alloc),
        };
        let mut names = RootNames {
            plain: BTreeSet::new(alloc),
            others: NameCounts::new(alloc),
        };
        for root in used.iter() {
            roots.add_plain(alloc, &mut names, *root)?;
        }
        for root in used.iter() {
            roots.add_other(alloc, &names.others, words, items, *root)?;
        }
        Ok(roots)
    }

    /// The type of a variable in use.
    pub(crate) fn type_expr(&self, alloc: Global, variable: TypeVar) -> Result<TypeExpr, Unsaid> {
        if !self.vars.is_of(variable) {
            return Err(Unsaid::Unsayable);
        }
        let Some(word) = self.words.get(&variable.root(self.vars)) else {
            return Err(Unsaid::Unsayable);
        };
        let chain = variable.chain(alloc, self.vars)?;
        let mut functions = Vec::new(alloc);
        for function in chain.iter().rev() {
            functions.push(*function)?;
        }
        Ok(TypeExpr {
            functions: Listed::of(functions),
            word: word.copy(alloc)?,
        })
    }

    pub(crate) fn vars(&self) -> &'d TypeVars {
        self.vars
    }
}
