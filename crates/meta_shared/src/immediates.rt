ghost use Rattle.std.specs.Prelude.{◌≡◌, IfOk, length};
ghost use Rattle.meta_shared.specs.Kinds.{AreImmediates, ImmediatesHoldNoVariable};
ghost use Rattle.meta_shared.specs.KindRows.{BeginWith, kinds_of_immediates};

use super::kind_rows::{Class, KindRow, kind_rows, make_kinds, next};
use meta_operands::OperandKind;
use std::alloc::{AllocError, Global};

/// The kinds of immediates, as in the crate's `shared/immediates.rs`.
#[derive(Drop)]
pub struct Immediates {
    /// An integer of 64 bits.
    pub imm64: OperandKind,
    /// An unsigned integer of 8 bits.
    pub uimm8: OperandKind,
    /// An offset of 32 bits.
    pub offset32: OperandKind,
    /// A floating-point number of 16 bits.
    pub ieee16: OperandKind,
    /// A floating-point number of 32 bits.
    pub ieee32: OperandKind,
    /// A floating-point number of 64 bits.
    pub ieee64: OperandKind,
    /// A condition that compares integers.
    pub intcc: OperandKind,
    /// A condition that compares floating-point numbers.
    pub floatcc: OperandKind,
    /// The flags of a memory operation.
    pub memflags: OperandKind,
    /// A reason to trap.
    pub trapcode: OperandKind,
    /// An operation on memory.
    pub atomic_rmw_op: OperandKind,
}

/// The conditions that compare integers.
const INTCC: [(&str, &str); 10] = [
    ("eq", "Equal"),
    ("ne", "NotEqual"),
    ("sge", "SignedGreaterThanOrEqual"),
    ("sgt", "SignedGreaterThan"),
    ("sle", "SignedLessThanOrEqual"),
    ("slt", "SignedLessThan"),
    ("uge", "UnsignedGreaterThanOrEqual"),
    ("ugt", "UnsignedGreaterThan"),
    ("ule", "UnsignedLessThanOrEqual"),
    ("ult", "UnsignedLessThan"),
];

/// The conditions that compare floating-point numbers.
const FLOATCC: [(&str, &str); 14] = [
    ("ord", "Ordered"),
    ("uno", "Unordered"),
    ("eq", "Equal"),
    ("ne", "NotEqual"),
    ("one", "OrderedNotEqual"),
    ("ueq", "UnorderedOrEqual"),
    ("lt", "LessThan"),
    ("le", "LessThanOrEqual"),
    ("gt", "GreaterThan"),
    ("ge", "GreaterThanOrEqual"),
    ("ult", "UnorderedOrLessThan"),
    ("ule", "UnorderedOrLessThanOrEqual"),
    ("ugt", "UnorderedOrGreaterThan"),
    ("uge", "UnorderedOrGreaterThanOrEqual"),
];

const TRAPCODE: [(&str, &str); 5] = [
    ("stk_ovf", "STACK_OVERFLOW"),
    ("heap_oob", "HEAP_OUT_OF_BOUNDS"),
    ("int_ovf", "INTEGER_OVERFLOW"),
    ("int_divz", "INTEGER_DIVISION_BY_ZERO"),
    ("bad_toint", "BAD_CONVERSION_TO_INTEGER"),
];

const ATOMIC_RMW_OP: [(&str, &str); 11] = [
    ("add", "Add"),
    ("sub", "Sub"),
    ("and", "And"),
    ("nand", "Nand"),
    ("or", "Or"),
    ("xor", "Xor"),
    ("xchg", "Xchg"),
    ("umin", "Umin"),
    ("umax", "Umax"),
    ("smin", "Smin"),
    ("smax", "Smax"),
];

/// The kinds, in the order of the fields.
static IMMEDIATES: [KindRow; 11] = kind_rows! {
    imm64: Number("imm", "ir::immediates::Imm64", "A 64-bit immediate integer.");
    uimm8: Number("imm", "ir::immediates::Uimm8", "An 8-bit immediate unsigned integer.");
    offset32: Number("offset", "ir::immediates::Offset32", "A 32-bit immediate signed offset.");
    ieee16: Number("imm", "ir::immediates::Ieee16", "A 16-bit immediate floating point number.");
    ieee32: Number("imm", "ir::immediates::Ieee32", "A 32-bit immediate floating point number.");
    ieee64: Number("imm", "ir::immediates::Ieee64", "A 64-bit immediate floating point number.");
    intcc: Choice("cond", "ir::condcodes::IntCC", "An integer comparison condition code.", &INTCC);
    floatcc: Choice("cond", "ir::condcodes::FloatCC", "A floating point comparison condition code", &FLOATCC);
    memflags: Number("flags", "ir::MemFlags", "Memory operation flags");
    trapcode: Choice("code", "ir::TrapCode", "A trap reason code.", &TRAPCODE);
    atomic_rmw_op: Choice("op", "ir::AtomicRmwOp", "Atomic Read-Modify-Write Ops", &ATOMIC_RMW_OP);
};

/// The kinds as fields. They are in the order of the fields.
fn named(kinds: Vec<OperandKind>) -> Immediates
    requires { length kinds.items ≡ 11 }
    ensures { BeginWith (kinds_of_immediates result) kinds.items }
{
    let mut kinds = kinds.into_iter();
    Immediates {
        imm64: next(&mut kinds),
        uimm8: next(&mut kinds),
        offset32: next(&mut kinds),
        ieee16: next(&mut kinds),
        ieee32: next(&mut kinds),
        ieee64: next(&mut kinds),
        intcc: next(&mut kinds),
        floatcc: next(&mut kinds),
        memflags: next(&mut kinds),
        trapcode: next(&mut kinds),
        atomic_rmw_op: next(&mut kinds),
    }
}

impl Immediates {
    /// Makes the kinds of the shared instruction set. None of them is a kind of values.
    pub fn new(alloc: Global) -> Result<Immediates, AllocError>
        ensures kinds { IfOk result AreImmediates }
        ensures no_variable { IfOk result ImmediatesHoldNoVariable }
    {
        Ok(named(make_kinds(alloc, &IMMEDIATES)?))
    }
}
