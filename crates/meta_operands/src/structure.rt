ghost use Rattle.std.specs.Prelude.{◌≡◌, ◌↔◌, IsTrue, IfOk, map};
ghost use Rattle.std.specs.Cmp.{decided, partial_equiv_from_equiv};
ghost use Rattle.std.specs.Hash.{same_Alike};
ghost use Rattle.meta_operands.specs.Texts.{same_pairs, pairs_writes};
ghost use Rattle.meta_operands.specs.Structure.{names_of_field, same_structure, structure_writes};
ghost use Rattle.meta_operands.specs.Laws.{pairs_Decides, structures_Decides};

use super::field::FormatField;
use meta_types::Text;
use std::alloc::{AllocError, Global};
use std::hash::{Hash, Hasher};
use std::marker::Model;

/// The field name and the Rust type of each field of a format, in order.
#[derive(Drop)]
pub struct FieldNames {
    names: Vec<(Text, Text)>,
}

impl Model for FieldNames {
    ghost use Rattle.std.specs.Prelude.{List, ℕ};

    ghost Value = { List (List ℕ × List ℕ) };

    ghost view = { λ n. n.names.items };
}

impl FieldNames {
    pub(crate) fn of(alloc: Global, fields: &[FormatField]) -> Result<FieldNames, AllocError>
        ensures { IfOk result (λ n. n ≡ map names_of_field fields.now) }
    {
        let mut names = Vec::new(alloc);
        for field in fields {
            let field_name = field.kind.rust_field_name.copy(alloc)?;
            names.push((field_name, field.kind.rust_type.copy(alloc)?))?;
        }
        Ok(FieldNames { names })
    }

    /// The names and types as a slice.
    pub fn as_slice(&self) -> &[(Text, Text)]
        ensures { result.now ≡ self.now }
    {
        self.names.as_slice()
    }
}

impl PartialEq for FieldNames {
    ghost eq = { same_pairs };

    ghost laws = { partial_equiv_from_equiv (decided same_pairs pairs_Decides) };

    fn eq(&self, other: &FieldNames) -> bool {
        self.names == other.names
    }
}

impl Eq for FieldNames {
    ghost laws = { decided same_pairs pairs_Decides };
}

impl Hash for FieldNames {
    ghost hash_input = { pairs_writes };

    ghost respects_eq = { (same_Alike pairs_writes pairs_Decides).fed };

    fn hash<H: Hasher>(&self, state: &mut H) {
        self.names.hash(state);
    }
}

/// The structure of a format: what its instructions store, without the name of the format. Formats are told apart by it, as in the crate's
/// `cdsl/formats.rs`.
#[derive(Drop)]
pub struct FormatStructure {
    /// The count of value inputs.
    pub num_value_operands: u32,
    /// Whether any number of values may follow (varargs).
    pub has_value_list: bool,
    /// The count of blocks that take arguments.
    pub num_block_operands: u32,
    /// The count of blocks without arguments.
    pub num_raw_block_operands: u32,
    /// The field name and the Rust type of each field, in order.
    pub imm_field_names: FieldNames,
}

impl PartialEq for FormatStructure {
    ghost eq = { same_structure };

    ghost laws = { partial_equiv_from_equiv (decided same_structure structures_Decides) };

    fn eq(&self, other: &FormatStructure) -> bool
        ensures test { result ≡ same_structure self.now other.now }
        ensures meaning { IsTrue result ↔ (self.now ≡ other.now) }
    {
        self.num_value_operands == other.num_value_operands
            && self.has_value_list == other.has_value_list
            && self.num_block_operands == other.num_block_operands
            && self.num_raw_block_operands == other.num_raw_block_operands
            && self.imm_field_names == other.imm_field_names
    }
}

impl Eq for FormatStructure {
    ghost laws = { decided same_structure structures_Decides };
}

impl Hash for FormatStructure {
    ghost hash_input = { structure_writes };

    ghost respects_eq = { (same_Alike structure_writes structures_Decides).fed };

    fn hash<H: Hasher>(&self, state: &mut H) {
        self.num_value_operands.hash(state);
        self.has_value_list.hash(state);
        self.num_block_operands.hash(state);
        self.num_raw_block_operands.hash(state);
        self.imm_field_names.hash(state);
    }
}
