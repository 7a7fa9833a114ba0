use super::kind::Kind;
use super::root::Root;
use meta_types::DerivedFunc;

/// What an operand is, in the words of the tables.
#[derive(Clone, Copy)]
pub enum Word {
    /// An operand of this kind, which isn't a value.
    Kind(Kind),
    /// A value of a root variable.
    Root(Root),
    /// A value of a variable that the function derives from a root variable.
    Derived(DerivedFunc, Root),
}

/// What a word of the tables stands for: the name of a kind, the name of a root variable, or a derived function with the name of a root
/// variable.
#[macro_export]
macro_rules! word {
    (block_call) => { $crate::Word::Kind($crate::Kind::BlockCall) };
    (block_then) => { $crate::Word::Kind($crate::Kind::BlockThen) };
    (block_else) => { $crate::Word::Kind($crate::Kind::BlockElse) };
    (raw_block) => { $crate::Word::Kind($crate::Kind::RawBlock) };
    (stack_slot) => { $crate::Word::Kind($crate::Kind::StackSlot) };
    (dynamic_stack_slot) => { $crate::Word::Kind($crate::Kind::DynamicStackSlot) };
    (global_value) => { $crate::Word::Kind($crate::Kind::GlobalValue) };
    (sig_ref) => { $crate::Word::Kind($crate::Kind::SigRef) };
    (func_ref) => { $crate::Word::Kind($crate::Kind::FuncRef) };
    (jump_table) => { $crate::Word::Kind($crate::Kind::JumpTable) };
    (exception_table) => { $crate::Word::Kind($crate::Kind::ExceptionTable) };
    (varargs) => { $crate::Word::Kind($crate::Kind::Varargs) };
    (pool_constant) => { $crate::Word::Kind($crate::Kind::PoolConstant) };
    (uimm128) => { $crate::Word::Kind($crate::Kind::Uimm128) };
    (imm64) => { $crate::Word::Kind($crate::Kind::Imm64) };
    (uimm8) => { $crate::Word::Kind($crate::Kind::Uimm8) };
    (offset32) => { $crate::Word::Kind($crate::Kind::Offset32) };
    (ieee16) => { $crate::Word::Kind($crate::Kind::Ieee16) };
    (ieee32) => { $crate::Word::Kind($crate::Kind::Ieee32) };
    (ieee64) => { $crate::Word::Kind($crate::Kind::Ieee64) };
    (intcc) => { $crate::Word::Kind($crate::Kind::Intcc) };
    (floatcc) => { $crate::Word::Kind($crate::Kind::Floatcc) };
    (memflags) => { $crate::Word::Kind($crate::Kind::Memflags) };
    (trapcode) => { $crate::Word::Kind($crate::Kind::Trapcode) };
    (atomic_rmw_op) => { $crate::Word::Kind($crate::Kind::AtomicRmwOp) };
    (lane_of $root:ident) => { $crate::Word::Derived(meta_types::DerivedFunc::LaneOf, $crate::root!($root)) };
    (as_truthy $root:ident) => { $crate::Word::Derived(meta_types::DerivedFunc::AsTruthy, $crate::root!($root)) };
    (half_width $root:ident) => { $crate::Word::Derived(meta_types::DerivedFunc::HalfWidth, $crate::root!($root)) };
    (double_width $root:ident) => { $crate::Word::Derived(meta_types::DerivedFunc::DoubleWidth, $crate::root!($root)) };
    (split_lanes $root:ident) => { $crate::Word::Derived(meta_types::DerivedFunc::SplitLanes, $crate::root!($root)) };
    (merge_lanes $root:ident) => { $crate::Word::Derived(meta_types::DerivedFunc::MergeLanes, $crate::root!($root)) };
    (dynamic_to_vector $root:ident) => { $crate::Word::Derived(meta_types::DerivedFunc::DynamicToVector, $crate::root!($root)) };
    (narrower $root:ident) => { $crate::Word::Derived(meta_types::DerivedFunc::Narrower, $crate::root!($root)) };
    (wider $root:ident) => { $crate::Word::Derived(meta_types::DerivedFunc::Wider, $crate::root!($root)) };
    ($root:ident) => { $crate::Word::Root($crate::root!($root)) };
}
