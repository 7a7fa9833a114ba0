ghost use Rattle.std.specs.Prelude.{◌≡◌, [], IfOk, length, slice_get, Some};
ghost use Rattle.meta_shared.specs.Roots.{root_place, root_of, AreRoots, AreNumberedRoots};

use super::root::Root;
use super::root_rows::{ROOTS, add_roots};
use meta_types::Text;
use meta_typevar::{TypeVar, TypeVars};
use std::alloc::{AllocError, Global};

/// The root variables of the shared instruction set. In the crate they are local to the functions that use them.
#[derive(Drop)]
pub struct Roots {
    /// `ST1`.
    pub tv_st1: TypeVar,
    /// `ST2`.
    pub tv_st2: TypeVar,
    /// `I32`.
    pub tv_i32: TypeVar,
    /// `A1`.
    pub tv_a1: TypeVar,
    /// `A2`.
    pub tv_a2: TypeVar,
    /// `V1`.
    pub tv_v1: TypeVar,
    /// `B1`.
    pub tv_b1: TypeVar,
    /// `B2`.
    pub tv_b2: TypeVar,
    /// `Int1`.
    pub tv_int1: TypeVar,
    /// `Int4`.
    pub tv_int4: TypeVar,
    /// `IxN`.
    pub tv_ixn: TypeVar,
    /// `i8`.
    pub tv_i8: TypeVar,
    /// `f16`.
    pub tv_f16: TypeVar,
    /// `f32`.
    pub tv_f32: TypeVar,
    /// `f64`.
    pub tv_f64: TypeVar,
    /// `f128`.
    pub tv_f128: TypeVar,
    /// `Int2`.
    pub tv_int2: TypeVar,
    /// `NarrowInt`.
    pub tv_narrowint: TypeVar,
    /// `NarrowScalar`.
    pub tv_narrowscalar: TypeVar,
    /// `iB`.
    pub tv_ib: TypeVar,
    /// `Truthy`.
    pub tv_truthy: TypeVar,
    /// `AtomicMem`.
    pub tv_atomicmem: TypeVar,
    /// `IntTo1`.
    pub tv_intto1: TypeVar,
    /// `IntTo2`.
    pub tv_intto2: TypeVar,
    /// `Int3`.
    pub tv_int3: TypeVar,
    /// `iSwappable`.
    pub tv_iswappable: TypeVar,
    /// `WideInt`.
    pub tv_wideint: TypeVar,
    /// `V2`.
    pub tv_v2: TypeVar,
    /// `Any`.
    pub tv_any: TypeVar,
    /// `bits`.
    pub tv_bits: TypeVar,
    /// `Mem`.
    pub tv_mem: TypeVar,
    /// `iExt8`.
    pub tv_iext8: TypeVar,
    /// `iExt16`.
    pub tv_iext16: TypeVar,
    /// `i32_64`.
    pub tv_i32_64: TypeVar,
    /// `iExt32`.
    pub tv_iext32: TypeVar,
    /// `I16x8`.
    pub tv_i16x8: TypeVar,
    /// `I32x4`.
    pub tv_i32x4: TypeVar,
    /// `I64x2`.
    pub tv_i64x2: TypeVar,
    /// `Tx16`.
    pub tv_tx16: TypeVar,
    /// `I16or32`.
    pub tv_i16or32: TypeVar,
    /// `Float`.
    pub tv_float: TypeVar,
    /// `W`.
    pub tv_w: TypeVar,
    /// `N`.
    pub tv_n: TypeVar,
    /// `FloatScalar`.
    pub tv_floatscalar: TypeVar,
    /// `F64x2`.
    pub tv_f64x2: TypeVar,
    /// `F32x4`.
    pub tv_f32x4: TypeVar,
    /// `IntTo3`.
    pub tv_intto3: TypeVar,
    /// `FloatTo`.
    pub tv_floatto: TypeVar,
    /// `V3`.
    pub tv_v3: TypeVar,
    /// `MemTo`.
    pub tv_memto: TypeVar,
}

/// Gives a macro each root with its field in `Roots`, after the arguments.
macro_rules! each_root {
    ($with:ident $($arguments:tt)*) => {
        $with! { ($($arguments)*)
            ST1 tv_st1, ST2 tv_st2, I32 tv_i32, A1 tv_a1, A2 tv_a2, V1 tv_v1, B1 tv_b1, B2 tv_b2, Int1 tv_int1,
            Int4 tv_int4, IxN tv_ixn, I8 tv_i8, F16 tv_f16, F32 tv_f32, F64 tv_f64, F128 tv_f128, Int2 tv_int2,
            NarrowInt tv_narrowint, NarrowScalar tv_narrowscalar, IB tv_ib, Truthy tv_truthy, AtomicMem tv_atomicmem,
            IntTo1 tv_intto1, IntTo2 tv_intto2, Int3 tv_int3, ISwappable tv_iswappable, WideInt tv_wideint, V2 tv_v2,
            Any tv_any, Bits tv_bits, Mem tv_mem, IExt8 tv_iext8, IExt16 tv_iext16, I32_64 tv_i32_64,
            IExt32 tv_iext32, I16x8 tv_i16x8, I32x4 tv_i32x4, I64x2 tv_i64x2, Tx16 tv_tx16, I16or32 tv_i16or32,
            Float tv_float, W tv_w, N tv_n, FloatScalar tv_floatscalar, F64x2 tv_f64x2, F32x4 tv_f32x4,
            IntTo3 tv_intto3, FloatTo tv_floatto, V3 tv_v3, MemTo tv_memto
        }
    };
}

macro_rules! roots_at {
    (($found:ident) $($root:ident $field:ident),*) => {
        Roots { $($field: root_at($found, Root::$root)),* }
    };
}

macro_rules! root_in {
    (($roots:ident, $wanted:ident) $($root:ident $field:ident),*) => {
        match $wanted { $(Root::$root => $roots.$field),* }
    };
}

fn root_at(found: &[TypeVar], root: Root) -> TypeVar
    requires { length found.now ≡ 50 }
    ensures { slice_get found.now (root_place root) ≡ Some result }
{
    found[root as usize]
}

/// The variables as fields. They are in the order of the fields.
fn named(found: &[TypeVar]) -> Roots
    requires { length found.now ≡ 50 }
    ensures { (root : Root) → slice_get found.now (root_place root) ≡ Some (root_of result root) }
{
    each_root!(roots_at found)
}

impl Roots {
    /// Adds the root variables to a registry, which must be empty. They are numbered in the order of `Root`.
    pub(crate) fn new(alloc: Global, vars: &mut TypeVars) -> Result<Roots, AllocError>
        requires { vars.old ≡ [] }
        ensures numbers { IfOk result AreNumberedRoots }
        ensures roots { IfOk result (AreRoots vars.new) }
        ensures count { IfOk result (λ _. length vars.new ≡ 50) }
    {
        let mut found = add_roots(alloc, vars, &ROOTS)?;
        let mem = found[Root::Mem as usize];
        found.push(TypeVar::copy_from(vars, mem, Text::new(alloc, "MemTo")?)?)?;
        Ok(named(&found))
    }

    /// The variable with this name.
    pub fn variable(&self, root: Root) -> TypeVar
        ensures { result ≡ root_of self.now root }
    {
        each_root!(root_in self, root)
    }
}
