ghost use Rattle.std.specs.Prelude.{◌≡◌, ◌++◌, IfOk, OnOk, Contains, string_bytes};
ghost use Rattle.std.specs.List.{flat_map};
ghost use Rattle.meta_types.specs.Lane.{lane_parts};
ghost use Rattle.meta_types.specs.ValueTypes.{type_parts_of};
ghost use Rattle.meta_types.specs.AllTypes.{scalars};
ghost use Rattle.meta_types.specs.Vector.{lanes_of, least_lanes_of};
ghost use Rattle.meta_rust_text.specs.Written.{WritesMade};
ghost use Rattle.meta_rust_text.specs.TypesText.{constant_text, type_constant, sized_text, vector_sizes, vectors_of, dynamic_vectors_of};
ghost use Rattle.meta_rust_text.specs.TypesText.{types_text};

use super::written::write_made;
use meta_text::{Sink, WriteError};
use meta_types::{DynamicVectorType, LaneType, ValueType, VectorType};
use std::alloc::{AllocError, Global};

/// The sizes that have vectors, in bits.
const VECTOR_SIZES: [u64; 6] = [16, 32, 64, 128, 256, 512];

#[tactic(auto, unfolding(crate::specs::TypesText::constant_text))]
fn push_constant(out: &mut String, doc: &str, name: &str, number: u16) -> Result<(), AllocError>
    ensures { OnOk result (string_bytes out.new ≡ string_bytes out.old ++ constant_text doc.now name.now number) }
{
    write!(
        out,
        "/// {doc}
pub const {name}: Type = Type(0x{number:x});

"
    )
}

#[tactic(auto, unfolding(crate::specs::TypesText::type_constant))]
fn push_type(alloc: Global, out: &mut String, ty: ValueType) -> Result<(), AllocError>
    ensures { OnOk result (string_bytes out.new ≡ string_bytes out.old ++ type_constant (type_parts_of ty)) }
{
    let name = ty.to_string(alloc)?;
    let capitals = name.to_ascii_uppercase(alloc)?;
    let doc = ty.doc(alloc)?;
    let (doc, capitals, number) = (doc.as_str(), capitals.as_str(), ty.number());
    push_constant(out, doc, capitals, number)
}

fn push_lanes(alloc: Global, out: &mut String) -> Result<(), AllocError>
    ensures { OnOk result (string_bytes out.new ≡ string_bytes out.old ++ flat_map type_constant scalars) }
{
    for lane in ValueType::all_lane_types() {
        push_type(alloc, out, ValueType::Lane(lane))?;
    }
    Ok(())
}

/// Adds the fixed vector of `bits` bits of this lane type, if the lane type is smaller.
#[tactic(auto, using(crate::proofs::Sizes::fits, crate::proofs::Sizes::wide))]
fn push_vector(alloc: Global, out: &mut String, lane: LaneType, bits: u64) -> Result<(), AllocError>
    requires { Contains vector_sizes bits }
    ensures { OnOk result (string_bytes out.new ≡ string_bytes out.old ++ sized_text lanes_of bits (lane_parts lane)) }
{
    let width = lane.lane_bits();
    if width < bits {
        let vector = VectorType::new(lane, bits / width);
        return push_type(alloc, out, ValueType::Vector(vector));
    }
    Ok(())
}

/// Adds the dynamic vector of at least `bits` bits of this lane type, if the lane type is smaller.
#[tactic(auto, using(crate::proofs::Sizes::fits, crate::proofs::Sizes::wide))]
fn push_dynamic_vector(
    alloc: Global,
    out: &mut String,
    lane: LaneType,
    bits: u64,
) -> Result<(), AllocError>
    requires { Contains vector_sizes bits }
    ensures { OnOk result (string_bytes out.new ≡ string_bytes out.old ++ sized_text least_lanes_of bits (lane_parts lane)) }
{
    let width = lane.lane_bits();
    if width < bits {
        let vector = DynamicVectorType::new(lane, bits / width);
        return push_type(alloc, out, ValueType::DynamicVector(vector));
    }
    Ok(())
}

fn push_vectors(alloc: Global, out: &mut String, bits: u64) -> Result<(), AllocError>
    requires { Contains vector_sizes bits }
    ensures { OnOk result (string_bytes out.new ≡ string_bytes out.old ++ flat_map type_constant (vectors_of bits)) }
{
    for lane in ValueType::all_lane_types() {
        push_vector(alloc, out, lane, bits)?;
    }
    Ok(())
}

fn push_dynamic_vectors(alloc: Global, out: &mut String, bits: u64) -> Result<(), AllocError>
    requires { Contains vector_sizes bits }
    ensures { OnOk result (string_bytes out.new ≡ string_bytes out.old ++ flat_map type_constant (dynamic_vectors_of bits)) }
{
    for lane in ValueType::all_lane_types() {
        push_dynamic_vector(alloc, out, lane, bits)?;
    }
    Ok(())
}

fn push_sizes(alloc: Global, out: &mut String) -> Result<(), AllocError>
    ensures { OnOk result (string_bytes out.new ≡ string_bytes out.old
        ++ flat_map (λ bits. flat_map type_constant (vectors_of bits) ++ flat_map type_constant (dynamic_vectors_of bits))
        vector_sizes) }
{
    for &bits in VECTOR_SIZES.iter() {
        push_vectors(alloc, out, bits)?;
        push_dynamic_vectors(alloc, out, bits)?;
    }
    Ok(())
}

/// Makes the types text: the constants of the types that are most in use, as Rust source, as the crate's `gen_types.rs` writes them. They
/// are the nine lane types, and then for 16, 32, 64, 128, 256 and 512 bits the fixed and the dynamic vectors of each lane type that is
/// smaller. Each has its documentation, and an empty line after it.
pub fn types_text(alloc: Global) -> Result<String, AllocError>
    ensures { IfOk result (λ text. string_bytes text ≡ types_text) }
{
    let mut out = String::new(alloc);
    push_lanes(alloc, &mut out)?;
    push_sizes(alloc, &mut out)?;
    Ok(out)
}

/// Writes the types text to the sink, once it is made as a whole.
///
/// `OutOfMemory` comes before anything is written. `WriteFault` comes only where a write failed; the sink has then taken a front of the
/// text.
pub fn write_types<K: Sink>(alloc: Global, sink: &mut K) -> Result<(), WriteError>
    ensures { WritesMade K.taken K.faults types_text result sink.old sink.new }
{
    write_made(types_text(alloc), sink)
}
