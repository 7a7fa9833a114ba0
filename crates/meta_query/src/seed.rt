ghost use Rattle.std.specs.Prelude.{◌≡◌, ◌<◌, ◌≤◌, ◌^◌, ◌+◌, ◌-◌, ◌∷◌, ◌++◌, [], IfOk, OnOk, length, codes, if◌then◌else◌};
ghost use Rattle.meta_typevar.specs.Registry.{root_content};
ghost use Rattle.meta_query.specs.Seeds.{seed_of, shape_of, least_width_of, has_vectors, set_of_seed};

use super::shape::Shape;
use meta_types::Text;
use meta_typevar::{Interval, TypeSet, TypeSetBuilder, TypeVar, TypeVars};
use std::alloc::{AllocError, Global};

/// The count of numbers after which the declarations repeat.
const PERIOD: u32 = 24;

/// The number that the choices for an instruction go by. `n` is the number of the declarations, and `number` that of the instruction.
pub(crate) fn seed_of(n: u32, number: u16) -> u32
    ensures { result ≡ seed_of n number }
{
    u32::from(number) + n % PERIOD
}

pub(crate) fn shape_of(seed: u32) -> Shape
    ensures { result ≡ shape_of seed }
{
    match seed % 4 {
        0 => Shape::Bare,
        1 => Shape::Copying,
        2 => Shape::Comparing,
        _ => Shape::Widening,
    }
}

/// The least width of the integers of the root variable: 8, 16 or 32.
fn least_width(seed: u32) -> u16
    ensures { result ≡ least_width_of seed }
{
    match seed / 4 % 3 {
        0 => 8,
        1 => 16,
        _ => 32,
    }
}

/// Whether the root variable can also be a vector. A variable that is wider than another value can't.
fn has_vectors(seed: u32) -> bool
    ensures { result ≡ has_vectors seed }
{
    seed / 12 % 2 == 1 && shape_of(seed) != Shape::Widening
}

/// The lane counts of the root variable: 1 to 256, or 1 alone.
fn lanes(seed: u32) -> Interval
    ensures { result ≡ (if has_vectors seed then Interval.All else Interval.None) }
{
    if has_vectors(seed) {
        Interval::All
    } else {
        Interval::None
    }
}

fn type_set(alloc: Global, seed: u32) -> Result<TypeSet, AllocError>
    ensures { IfOk result (λ s. s ≡ set_of_seed seed) }
{
    TypeSetBuilder::new()
        .ints(Interval::Range(least_width(seed)..128))
        .simd_lanes(lanes(seed))
        .build(alloc)
}

pub(crate) fn add_root(alloc: Global, vars: &mut TypeVars, seed: u32) -> Result<TypeVar, AllocError>
    requires { length vars.old < 2 ^ 32 - 1 }
    ensures number { IfOk result (λ x. x ≡ length vars.old) }
    ensures added { OnOk result (vars.new ≡ vars.old ++ root_content (codes "X") [] (set_of_seed seed) (length vars.old) ∷ []) }
{
    let set = type_set(alloc, seed)?;
    let name = Text::new(alloc, "X")?;
    let doc = Text::new(alloc, "")?;
    TypeVar::new(vars, name, doc, set)
}
