ghost use Rattle.std.specs.Prelude.{◌≡◌};
ghost use Rattle.std.specs.List.{list_any};
ghost use Rattle.meta_rust_names.specs.Variants.{is_same_identifier, stands_for, variant_why};

use super::names::is_named;
use super::refused::Why;
use meta_operands::{EnumValues, OperandKind, OperandKindFields};

/// Whether the names are one identifier, raw or not.
fn is_same_identifier(a: &[u8], b: &[u8]) -> bool
    ensures { result ≡ is_same_identifier a.now b.now }
{
    is_named(a, b) || is_named(b, a)
}

fn has_variant(values: &EnumValues, name: &[u8]) -> bool
    ensures { result ≡ list_any (stands_for name.now) values.now }
{
    for (_, variant) in values.iter() {
        if is_same_identifier(variant.as_bytes(), name) {
            return true;
        }
    }
    false
}

#[tactic(auto, unfolding(crate::specs::Variants::variant_why))]
pub(crate) fn variant_why(kind: &OperandKind, name: &[u8]) -> Option<Why>
    ensures { result ≡ variant_why kind.now name.now }
{
    match &kind.fields {
        OperandKindFields::ImmEnum(values) => {
            if has_variant(values, name) {
                return Some(Why::OwnVariant);
            }
            None
        }
        _ => None,
    }
}
