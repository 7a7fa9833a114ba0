ghost use Rattle.std.specs.Prelude.{◌≡◌, ℕ, List};
ghost use Rattle.meta_types.specs.TypeParts.{TypeParts, IsType};
ghost use Rattle.meta_typevar.specs.TypeSetParts.{IsOnlyMember};
ghost use Rattle.meta_operands.specs.declared.kind.OperandKind.{OperandKind};
ghost use Rattle.meta_file_types.specs.Meant.{MeantType, MeantKind, Sense, plain};
ghost use Rattle.meta_file_types.specs.Registered.{Registered, IsTypeIn, IsKindIn, Extends};
ghost use Rattle.meta_file_types.specs.Operands.{IsOperandKindIn};

/// What words mean doesn't change as a registry grows.
#[tactic(auto, using(crate::proofs::Staying::type_stays, crate::proofs::Staying::kind_stays, crate::proofs::Staying::operand_stays))]
pub fn what_is_meant_stays()
    ensures type_of { (old new : Registered) (m : MeantType) (n : ℕ) → Extends old new → IsTypeIn old m n → IsTypeIn new m n }
    ensures kind { (old new : Registered) (k : MeantKind) (kind : OperandKind) → Extends old new → IsKindIn old k kind
        → IsKindIn new k kind }
    ensures operand { (old new : Registered) (s : Sense) (kind : OperandKind) → Extends old new → IsOperandKindIn old s kind
        → IsOperandKindIn new s kind }
{}

/// The word of a plain type means that type alone: of a vector, the fixed one or the dynamic one, and not both.
#[tactic(auto, using(crate::proofs::OnePlain::one_only))]
pub fn a_plain_word_means_one_type()
    ensures { (t : TypeParts) → IsType t → IsOnlyMember (plain t).set t }
{}
