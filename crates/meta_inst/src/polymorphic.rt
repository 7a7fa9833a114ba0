use meta_typevar::TypeVar;

/// What controls a polymorphic instruction, as in the crate's `cdsl/instructions.rs`.
#[derive(Clone, Copy, Debug, PartialEq, Eq)]
pub struct PolymorphicInfo {
    /// Whether the variable of the designated value is the control.
    pub use_typevar_operand: bool,
    /// The type variable that is the control. It is underived.
    pub ctrl_typevar: TypeVar,
    /// The second control, if one is named.
    pub second_typevar: Option<TypeVar>,
}
