ghost use Rattle.std.specs.Prelude.{◌≡◌, ◌+◌, ◌<◌, ◌≤◌, ◌^◌, ◌++◌, ◌∷◌, [], IfOk, OnOk, OnErr, length, slice_get, Some};
ghost use Rattle.meta_operands.specs.Format.{HasRoom};
ghost use Rattle.meta_shared.specs.Formats.{format_place, id_of, with_part, parts_added, designating, format_of, AreFormatRows};
ghost use Rattle.meta_shared.specs.Formats.{IsFormatRow, CanAdd, CanPlace, AddsFront, AddsAll, AreNumbered, AreNumberedFrom};
ghost use Rattle.meta_shared.specs.Formats.{AreFormatsOf};

use super::entities::EntityRefs;
use super::format::Format;
use super::immediates::Immediates;
use super::kind::Kind;
use meta_operands::{FormatId, FormatTable, InstructionFormatBuilder};
use meta_types::Text;
use std::alloc::{AllocError, Global};

#[derive(Clone, Copy)]
pub(crate) enum FormatPart {
    Value,
    /// Any number of values (varargs).
    Varargs,
    /// A block with its arguments.
    Block,
    /// A block without arguments.
    RawBlock,
    /// An immediate or a reference of this kind.
    Immediate(Kind),
}

/// A row of the table of formats: the name, the parts, and the place of the designated value if that isn't the first.
#[derive(Clone, Copy)]
pub(crate) struct FormatRow {
    name: &'static str,
    parts: &'static [FormatPart],
    designated: Option<usize>,
}

/// The meaning of a word of the table. A word without a meaning of its own is an immediate of that kind.
macro_rules! part {
    (value) => { FormatPart::Value };
    (varargs) => { FormatPart::Varargs };
    (block) => { FormatPart::Block };
    (raw_block) => { FormatPart::RawBlock };
    ($kind:ident) => { FormatPart::Immediate(Kind::$kind) };
}

macro_rules! place {
    () => { None };
    ($place:literal) => { Some($place) };
}

/// A table of formats. Each row has the name, the parts, and after `@` the place of the designated value.
macro_rules! formats {
    ($($name:ident($($part:ident)*) $(@ $place:literal)?;)*) => {
        [$(FormatRow { name: stringify!($name), parts: &[$(part!($part)),*], designated: place!($($place)?) }),*]
    };
}

/// The formats by their numbers.
static FORMATS: [FormatRow; 36] = formats! {
    Unary(value);
    UnaryImm(Imm64);
    UnaryIeee16(Ieee16);
    UnaryIeee32(Ieee32);
    UnaryIeee64(Ieee64);
    UnaryConst(PoolConstant);
    UnaryGlobalValue(GlobalValue);
    Binary(value value);
    BinaryImm8(value Uimm8);
    Ternary(value value value) @1;
    TernaryImm8(value Uimm8 value);
    MultiAry(varargs);
    NullAry();
    Shuffle(value value Uimm128);
    IntCompare(Intcc value value);
    FloatCompare(Floatcc value value);
    Jump(block);
    Brif(value block block);
    BranchTable(value JumpTable);
    Call(FuncRef varargs);
    CallIndirect(SigRef value varargs);
    TryCall(FuncRef varargs ExceptionTable);
    TryCallIndirect(value varargs ExceptionTable);
    FuncAddr(FuncRef);
    AtomicRmw(Memflags AtomicRmwOp value value);
    AtomicCas(Memflags value value value) @2;
    Load(Memflags value Offset32);
    LoadNoOffset(Memflags value);
    Store(Memflags value value Offset32);
    StoreNoOffset(Memflags value value);
    StackAddr(StackSlot Offset32);
    DynamicStackAddr(DynamicStackSlot);
    Trap(Trapcode);
    CondTrap(value Trapcode);
    IntAddTrap(value value Trapcode);
    ExceptionHandlerAddress(raw_block Imm64);
};

/// The numbers of the formats of the shared instruction set, as in the crate's `shared/formats.rs`.
#[derive(Drop)]
pub struct Formats {
    /// `Unary`.
    pub unary: FormatId,
    /// `UnaryImm`.
    pub unary_imm: FormatId,
    /// `UnaryIeee16`.
    pub unary_ieee16: FormatId,
    /// `UnaryIeee32`.
    pub unary_ieee32: FormatId,
    /// `UnaryIeee64`.
    pub unary_ieee64: FormatId,
    /// `UnaryConst`.
    pub unary_const: FormatId,
    /// `UnaryGlobalValue`.
    pub unary_global_value: FormatId,
    /// `Binary`.
    pub binary: FormatId,
    /// `BinaryImm8`.
    pub binary_imm8: FormatId,
    /// `Ternary`.
    pub ternary: FormatId,
    /// `TernaryImm8`.
    pub ternary_imm8: FormatId,
    /// `MultiAry`.
    pub multiary: FormatId,
    /// `NullAry`.
    pub nullary: FormatId,
    /// `Shuffle`.
    pub shuffle: FormatId,
    /// `IntCompare`.
    pub int_compare: FormatId,
    /// `FloatCompare`.
    pub float_compare: FormatId,
    /// `Jump`.
    pub jump: FormatId,
    /// `Brif`.
    pub brif: FormatId,
    /// `BranchTable`.
    pub branch_table: FormatId,
    /// `Call`.
    pub call: FormatId,
    /// `CallIndirect`.
    pub call_indirect: FormatId,
    /// `TryCall`.
    pub try_call: FormatId,
    /// `TryCallIndirect`.
    pub try_call_indirect: FormatId,
    /// `FuncAddr`.
    pub func_addr: FormatId,
    /// `AtomicRmw`.
    pub atomic_rmw: FormatId,
    /// `AtomicCas`.
    pub atomic_cas: FormatId,
    /// `Load`.
    pub load: FormatId,
    /// `LoadNoOffset`.
    pub load_no_offset: FormatId,
    /// `Store`.
    pub store: FormatId,
    /// `StoreNoOffset`.
    pub store_no_offset: FormatId,
    /// `StackAddr`.
    pub stack_addr: FormatId,
    /// `DynamicStackAddr`.
    pub dynamic_stack_addr: FormatId,
    /// `Trap`.
    pub trap: FormatId,
    /// `CondTrap`.
    pub cond_trap: FormatId,
    /// `IntAddTrap`.
    pub int_add_trap: FormatId,
    /// `ExceptionHandlerAddress`.
    pub exception_handler_address: FormatId,
}

fn with_part(
    builder: InstructionFormatBuilder,
    part: FormatPart,
    imm: &Immediates,
    entities: &EntityRefs,
) -> Result<InstructionFormatBuilder, AllocError>
    requires { HasRoom builder }
    ensures { IfOk result (λ b. b ≡ with_part imm.now entities.now builder part) }
{
    match part {
        FormatPart::Value => Ok(builder.value()),
        FormatPart::Varargs => Ok(builder.varargs()),
        FormatPart::Block => Ok(builder.block()),
        FormatPart::RawBlock => Ok(builder.raw_block()),
        FormatPart::Immediate(kind) => builder.imm(kind.of(imm, entities)),
    }
}

fn with_parts(
    mut builder: InstructionFormatBuilder,
    parts: &[FormatPart],
    imm: &Immediates,
    entities: &EntityRefs,
) -> Result<InstructionFormatBuilder, AllocError>
    requires { CanAdd builder (length parts.now) }
    ensures { IfOk result (λ b. b ≡ parts_added imm.now entities.now builder parts.now) }
{
    for part in parts {
        builder = with_part(builder, *part, imm, entities)?;
    }
    Ok(builder)
}

fn designating(
    builder: InstructionFormatBuilder,
    designated: Option<usize>,
) -> InstructionFormatBuilder
    requires { CanPlace builder designated }
    ensures { result ≡ designating builder designated }
{
    match designated {
        Some(place) => builder.typevar_operand(place),
        None => builder,
    }
}

fn add_format(
    alloc: Global,
    table: &mut FormatTable,
    row: &FormatRow,
    imm: &Immediates,
    entities: &EntityRefs,
) -> Result<FormatId, AllocError>
    requires room { length table.old + 1 < 2 ^ 32 }
    requires row { IsFormatRow row.now }
    ensures number { IfOk result (λ id. id ≡ length table.old) }
    ensures added { OnOk result (table.new ≡ table.old ++ format_of imm.now entities.now row.now ∷ []) }
    ensures unchanged { OnErr result (table.new ≡ table.old) }
{
    let builder = InstructionFormatBuilder::new(alloc, Text::new(alloc, row.name)?);
    let builder = with_parts(builder, row.parts, imm, entities)?;
    designating(builder, row.designated).build(table)
}

/// Adds the formats of the rows in order, and answers their numbers. After an error the first of them may have been added.
fn add_formats(
    alloc: Global,
    table: &mut FormatTable,
    rows: &[FormatRow],
    imm: &Immediates,
    entities: &EntityRefs,
) -> Result<Vec<FormatId>, AllocError>
    requires room { length table.old + 37 ≤ 2 ^ 32 }
    requires rows { AreFormatRows rows.now }
    ensures added { OnOk result (AddsAll imm.now entities.now table.old table.new) }
    ensures front { OnErr result (AddsFront imm.now entities.now table.old table.new) }
    ensures numbers { IfOk result (λ ids. AreNumbered (length table.old) 36 ids.items) }
{
    let mut ids = Vec::new(alloc);
    for row in rows {
        ids.push(add_format(alloc, table, row, imm, entities)?)?;
    }
    Ok(ids)
}

/// Gives a macro each format with its field in `Formats`, after the arguments.
macro_rules! each_format {
    ($with:ident $($arguments:tt)*) => {
        $with! { ($($arguments)*)
            Unary unary, UnaryImm unary_imm, UnaryIeee16 unary_ieee16, UnaryIeee32 unary_ieee32,
            UnaryIeee64 unary_ieee64, UnaryConst unary_const, UnaryGlobalValue unary_global_value, Binary binary,
            BinaryImm8 binary_imm8, Ternary ternary, TernaryImm8 ternary_imm8, MultiAry multiary, NullAry nullary,
            Shuffle shuffle, IntCompare int_compare, FloatCompare float_compare, Jump jump, Brif brif,
            BranchTable branch_table, Call call, CallIndirect call_indirect, TryCall try_call,
            TryCallIndirect try_call_indirect, FuncAddr func_addr, AtomicRmw atomic_rmw, AtomicCas atomic_cas,
            Load load, LoadNoOffset load_no_offset, Store store, StoreNoOffset store_no_offset, StackAddr stack_addr,
            DynamicStackAddr dynamic_stack_addr, Trap trap, CondTrap cond_trap, IntAddTrap int_add_trap,
            ExceptionHandlerAddress exception_handler_address
        }
    };
}

macro_rules! formats_at {
    (($ids:ident) $($format:ident $field:ident),*) => {
        Formats { $($field: id_at($ids, Format::$format)),* }
    };
}

macro_rules! id_in {
    (($formats:ident, $wanted:ident) $($format:ident $field:ident),*) => {
        match $wanted { $(Format::$format => $formats.$field),* }
    };
}

fn id_at(ids: &[FormatId], format: Format) -> FormatId
    requires { length ids.now ≡ 36 }
    ensures { slice_get ids.now (format_place format) ≡ Some result }
{
    ids[format as usize]
}

/// The numbers as fields. They are in the order of the fields.
fn named(ids: &[FormatId]) -> Formats
    requires { length ids.now ≡ 36 }
    ensures { (format : Format) → slice_get ids.now (format_place format) ≡ Some (id_of result format) }
{
    each_format!(formats_at ids)
}

impl Formats {
    /// Adds the 36 formats to the table, which must have room for them. After an error the first of them may have been added.
    pub fn new(
        alloc: Global,
        table: &mut FormatTable,
        imm: &Immediates,
        entities: &EntityRefs,
    ) -> Result<Formats, AllocError>
        requires { length table.old + 37 ≤ 2 ^ 32 }
        ensures added { OnOk result (AddsAll imm.now entities.now table.old table.new) }
        ensures count { OnOk result (length table.new ≡ length table.old + 36) }
        ensures front { OnErr result (AddsFront imm.now entities.now table.old table.new) }
        ensures numbers { IfOk result (AreNumberedFrom (length table.old)) }
        ensures of { IfOk result (AreFormatsOf (length table.new)) }
    {
        let ids = add_formats(alloc, table, &FORMATS, imm, entities)?;
        Ok(named(&ids))
    }

    /// The number of the format with this name.
    pub fn id(&self, format: Format) -> FormatId
        ensures { result ≡ id_of self.now format }
    {
        each_format!(id_in self, format)
    }
}
