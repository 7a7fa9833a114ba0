ghost use Rattle.std.specs.Prelude.{◌≡◌};
ghost use Rattle.meta_shared.specs.Kinds.{kind_of};

use super::entities::EntityRefs;
use super::immediates::Immediates;
use meta_operands::OperandKind;

/// A kind of operands that aren't values, as the tables name it.
#[derive(Clone, Copy)]
pub enum Kind {
    BlockCall,
    BlockThen,
    BlockElse,
    RawBlock,
    StackSlot,
    DynamicStackSlot,
    GlobalValue,
    SigRef,
    FuncRef,
    JumpTable,
    ExceptionTable,
    Varargs,
    PoolConstant,
    Uimm128,
    Imm64,
    Uimm8,
    Offset32,
    Ieee16,
    Ieee32,
    Ieee64,
    Intcc,
    Floatcc,
    Memflags,
    Trapcode,
    AtomicRmwOp,
}

impl Kind {
    /// The kind with this name.
    pub fn of<'k>(self, imm: &'k Immediates, entities: &'k EntityRefs) -> &'k OperandKind
        ensures { result.now ≡ kind_of imm.now entities.now self }
    {
        match self {
            Kind::BlockCall => &entities.block_call,
            Kind::BlockThen => &entities.block_then,
            Kind::BlockElse => &entities.block_else,
            Kind::RawBlock => &entities.raw_block,
            Kind::StackSlot => &entities.stack_slot,
            Kind::DynamicStackSlot => &entities.dynamic_stack_slot,
            Kind::GlobalValue => &entities.global_value,
            Kind::SigRef => &entities.sig_ref,
            Kind::FuncRef => &entities.func_ref,
            Kind::JumpTable => &entities.jump_table,
            Kind::ExceptionTable => &entities.exception_table,
            Kind::Varargs => &entities.varargs,
            Kind::PoolConstant => &entities.pool_constant,
            Kind::Uimm128 => &entities.uimm128,
            Kind::Imm64 => &imm.imm64,
            Kind::Uimm8 => &imm.uimm8,
            Kind::Offset32 => &imm.offset32,
            Kind::Ieee16 => &imm.ieee16,
            Kind::Ieee32 => &imm.ieee32,
            Kind::Ieee64 => &imm.ieee64,
            Kind::Intcc => &imm.intcc,
            Kind::Floatcc => &imm.floatcc,
            Kind::Memflags => &imm.memflags,
            Kind::Trapcode => &imm.trapcode,
            Kind::AtomicRmwOp => &imm.atomic_rmw_op,
        }
    }
}
