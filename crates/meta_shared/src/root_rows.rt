ghost use Rattle.std.specs.Prelude.{◌≡◌, ◌+◌, ◌<◌, ◌-◌, ◌^◌, ◌++◌, ◌∷◌, [], IfOk, OnOk, length};
ghost use Rattle.meta_shared.specs.RootRows.{interval_meant, parts_of, root_row_content, CanBuildRow, AreRootRows, AreFirstRoots};

use meta_types::{Float, Int, LaneType, Text, ValueType};
use meta_typevar::{Interval, TypeSetBuilder, TypeVar, TypeVars};
use std::alloc::{AllocError, Global};

/// Which numbers of a part of a type set a row gives: none, all, or the powers of two from one to another.
#[derive(Clone, Copy)]
pub(crate) enum Span {
    Nothing,
    Everything,
    /// The powers of two from the first to the second.
    Between(u16, u16),
}

/// A root variable with a type set of its own: its name, its documentation, and the parts of its set.
#[derive(Clone, Copy)]
pub(crate) struct SetRow {
    name: &'static str,
    doc: &'static str,
    lanes: Span,
    dynamic_lanes: Span,
    ints: Span,
    floats: Span,
}

#[derive(Clone, Copy)]
pub(crate) enum RootRow {
    Set(SetRow),
    /// A type. The variable has its name, its documentation and its set.
    Single(LaneType),
}

/// What a word of the table stands for in a part of a type set.
macro_rules! span {
    (none) => { Span::Nothing };
    (all) => { Span::Everything };
    ($only:literal) => { Span::Between($only, $only) };
    ([$low:literal..$high:literal]) => { Span::Between($low, $high) };
}

/// A row: a name with the four parts and a documentation, or a type.
macro_rules! root_row {
    ($name:ident ($lanes:tt, $dynamic_lanes:tt, $ints:tt, $floats:tt) $doc:literal) => {
        RootRow::Set(SetRow {
            name: stringify!($name),
            doc: $doc,
            lanes: span!($lanes),
            dynamic_lanes: span!($dynamic_lanes),
            ints: span!($ints),
            floats: span!($floats),
        })
    };
    ($kind:ident $width:ident) => { RootRow::Single(LaneType::$kind($kind::$width)) };
}

/// A table of root variables. The word before a colon is the name of the variable in the other tables.
macro_rules! root_rows {
    ($($token:ident: $name:ident $set:tt $($doc:literal)?;)*) => { [$(root_row!($name $set $($doc)?)),*] };
}

/// The root variables, with lane counts, dynamic lane counts, integer widths and float widths.
pub(crate) static ROOTS: [RootRow; 49] = root_rows! {
    ST1: ScalarTruthy(1, none, all, none) "A scalar truthy type";
    ST2: ScalarTruthy(1, none, all, none) "A scalar truthy type";
    I32: i32(1, none, 32, none) "A 32 bit scalar integer type";
    A1: iAddr(1, none, [32..64], none) "An integer address type";
    A2: iAddr(1, none, [32..64], none) "An integer address type";
    V1: TxN([2..256], [2..256], all, all) "A SIMD vector type";
    B1: I8x16(16, none, 8, none) "A SIMD vector type consisting of 16 lanes of 8-bit integers";
    B2: I8x16(16, none, 8, none) "A SIMD vector type consisting of 16 lanes of 8-bit integers";
    Int1: Int([1..256], none, all, none) "A scalar or vector integer type";
    Int4: Int([1..256], none, all, none) "A scalar or vector integer type";
    IxN: IxN([2..256], none, all, none) "A SIMD vector type containing integers";
    i8: Int I8;
    f16: Float F16;
    f32: Float F32;
    f64: Float F64;
    f128: Float F128;
    Int2: Int([1..256], [2..256], all, none) "A scalar or vector integer type";
    NarrowInt: NarrowInt(1, none, [8..64], none) "An integer type of width up to `i64`";
    NarrowScalar: NarrowScalar(1, none, [8..64], none) "A scalar integer type up to 64 bits";
    iB: iB(1, none, all, none) "A scalar integer type";
    Truthy: Truthy(1, none, all, none) "A scalar whose values are truthy";
    AtomicMem: AtomicMem(1, none, all, none) "Any type that can be stored in memory, which can be used in an atomic operation";
    IntTo1: IntTo(1, none, all, none) "An integer type";
    IntTo2: IntTo(1, none, all, none) "An scalar only integer type";
    Int3: Int(1, none, all, none) "A scalar integer type";
    iSwappable: iSwappable(1, none, [16..128], none) "A multi byte scalar integer type";
    WideInt: WideInt(1, none, [16..128], none) "An integer type of width `i16` upwards";
    V2: TxN([2..256], none, all, all) "A SIMD vector type";
    Any: Any([1..256], none, all, all) "Any integer, float, or reference scalar or vector type";
    bits: bits([1..256], none, all, all) "Any integer, float, or vector type";
    Mem: Mem([1..256], [2..256], all, all) "Any type that can be stored in memory";
    iExt8: iExt8(1, none, [16..64], none) "An integer type with more than 8 bits";
    iExt16: iExt16(1, none, [32..64], none) "An integer type with more than 16 bits";
    i32_64: i32_64(1, none, [32..64], none) "A 32 or 64-bit scalar integer type";
    iExt32: iExt32(1, none, 64, none) "An integer type with more than 32 bits";
    I16x8: I16x8(8, none, 16, none) "A SIMD vector with exactly 8 lanes of 16-bit values";
    I32x4: I32x4(4, none, 32, none) "A SIMD vector with exactly 4 lanes of 32-bit values";
    I64x2: I64x2(2, none, 64, none) "A SIMD vector with exactly 2 lanes of 64-bit values";
    Tx16: Tx16(16, none, 8,
        none) "A SIMD vector with exactly 16 lanes of 8-bit values; eventually this may support other lane counts and widths";
    I16or32: I16or32([4..8], none, [16..32], none) "A vector integer type with 16- or 32-bit numbers";
    Float: Float([1..256], [2..256], none, all) "A scalar or vector floating point number";
    W: I16or32or64xN([2..8], [2..8], [16..64], none) "A SIMD vector type containing integer lanes 16, 32, or 64 bits wide";
    N: I8or16or32xN([2..16], [2..16], [8..32], none) "A SIMD vector type containing integer lanes 8, 16, or 32 bits wide.";
    FloatScalar: FloatScalar(1, none, none, all) "A scalar only floating point number";
    F64x2: F64x2(2, none, none, 64) "A SIMD vector type consisting of 2 lanes of 64-bit floats";
    F32x4: F32x4(4, none, none, 32) "A SIMD vector type consisting of 4 lanes of 32-bit floats";
    IntTo3: IntTo([1..256], none, all, none) "A larger integer type with the same number of lanes";
    FloatTo: FloatTo([1..256], none, none, all) "A scalar or vector floating point number";
    V3: TxN(1, [2..256], all, all) "A dynamic vector type";
};

impl Span {
    fn interval(self) -> Interval
        ensures { result ≡ interval_meant self }
    {
        match self {
            Span::Nothing => Interval::None,
            Span::Everything => Interval::All,
            Span::Between(low, high) => Interval::Range(low..high),
        }
    }
}

impl SetRow {
    fn builder(self) -> TypeSetBuilder
        ensures { result ≡ parts_of self }
    {
        TypeSetBuilder::new()
            .simd_lanes(self.lanes.interval())
            .dynamic_simd_lanes(self.dynamic_lanes.interval())
            .ints(self.ints.interval())
            .floats(self.floats.interval())
    }
}

fn add_root(alloc: Global, vars: &mut TypeVars, row: RootRow) -> Result<TypeVar, AllocError>
    requires room { length vars.old < 2 ^ 32 - 1 }
    requires buildable { CanBuildRow row }
    ensures number { IfOk result (λ v. v ≡ length vars.old) }
    ensures added { OnOk result (vars.new ≡ vars.old ++ root_row_content row (length vars.old) ∷ []) }
{
    match row {
        RootRow::Set(row) => {
            let set = row.builder().build(alloc)?;
            let (name, doc) = (Text::new(alloc, row.name)?, Text::new(alloc, row.doc)?);
            TypeVar::new(vars, name, doc, set)
        }
        RootRow::Single(lane) => TypeVar::new_singleton(vars, ValueType::from(lane)),
    }
}

pub(crate) fn add_roots(
    alloc: Global,
    vars: &mut TypeVars,
    rows: &[RootRow],
) -> Result<Vec<TypeVar>, AllocError>
    requires empty { vars.old ≡ [] }
    requires rows { AreRootRows rows.now }
    ensures { IfOk result (λ found. AreFirstRoots vars.new found.items) }
{
    let mut found = Vec::new(alloc);
    for row in rows {
        found.push(add_root(alloc, vars, *row)?)?;
    }
    Ok(found)
}
