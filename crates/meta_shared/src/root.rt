/// A root variable, as the tables name it. They are in the order of their numbers. Each is a variable of its own, even if two have the same
/// name.
#[derive(Clone, Copy)]
pub enum Root {
    ST1,
    ST2,
    I32,
    A1,
    A2,
    V1,
    B1,
    B2,
    Int1,
    Int4,
    IxN,
    I8,
    F16,
    F32,
    F64,
    F128,
    Int2,
    NarrowInt,
    NarrowScalar,
    IB,
    Truthy,
    AtomicMem,
    IntTo1,
    IntTo2,
    Int3,
    ISwappable,
    WideInt,
    V2,
    Any,
    Bits,
    Mem,
    IExt8,
    IExt16,
    I32_64,
    IExt32,
    I16x8,
    I32x4,
    I64x2,
    Tx16,
    I16or32,
    Float,
    W,
    N,
    FloatScalar,
    F64x2,
    F32x4,
    IntTo3,
    FloatTo,
    V3,
    MemTo,
}

/// The root variable that a word of the tables stands for.
#[macro_export]
macro_rules! root {
    (i8) => { $crate::Root::I8 };
    (f16) => { $crate::Root::F16 };
    (f32) => { $crate::Root::F32 };
    (f64) => { $crate::Root::F64 };
    (f128) => { $crate::Root::F128 };
    (iB) => { $crate::Root::IB };
    (iSwappable) => { $crate::Root::ISwappable };
    (bits) => { $crate::Root::Bits };
    (iExt8) => { $crate::Root::IExt8 };
    (iExt16) => { $crate::Root::IExt16 };
    (i32_64) => { $crate::Root::I32_64 };
    (iExt32) => { $crate::Root::IExt32 };
    ($root:ident) => { $crate::Root::$root };
}
