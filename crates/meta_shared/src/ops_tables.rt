ghost use Rattle.std.specs.Prelude.{take, drop};
ghost use Rattle.meta_shared.specs.Rows.{IsTable, rows_in};
ghost use Rattle.meta_shared.specs.OpsNames.{ops_names, arithmetic_names, division_names, overflow_names, bitwise_names};
ghost use Rattle.meta_shared.specs.OpsNames.{bit_counts_names, floats_names, rounding_names, casts_names, lane_widths_names};
ghost use Rattle.meta_shared.specs.OpsNames.{extension_names, number_casts_names, last_rows_names};
ghost use Rattle.meta_shared.specs.OpsFormats.{ops_formats, arithmetic_formats, division_formats, overflow_formats, bitwise_formats};
ghost use Rattle.meta_shared.specs.OpsFormats.{bit_counts_formats, floats_formats, rounding_formats, casts_formats};
ghost use Rattle.meta_shared.specs.OpsFormats.{lane_widths_formats, extension_formats, number_casts_formats, last_rows_formats};

use super::row::Row;
use super::rows;

static ARITHMETIC: [Row; 10] = rows! {
    icmp: IntCompare(Cond: intcc, x: Int2, y: Int2 -> a: as_truthy(Int2)) ImmMethod
        "Integer comparison.";
    iadd: Binary(x: Int2, y: Int2 -> a: Int2) ImmMethod
        "Wrapping integer addition: `a := x + y \\pmod{2^B}`.";
    isub: Binary(x: Int2, y: Int2 -> a: Int2)
        "Wrapping integer subtraction: `a := x - y \\pmod{2^B}`.";
    ineg: Unary(x: Int2 -> a: Int2)
        "Integer negation: `a := -x \\pmod{2^B}`.";
    iabs: Unary(x: Int2 -> a: Int2)
        "Integer absolute value with wrapping: `a := |x|`.";
    imul: Binary(x: Int2, y: Int2 -> a: Int2) ImmMethod
        "Wrapping integer multiplication: `a := x y \\pmod{2^B}`.";
    umulhi: Binary(x: Int2, y: Int2 -> a: Int2)
        "Unsigned integer multiplication, producing the high half of a";
    smulhi: Binary(x: Int2, y: Int2 -> a: Int2)
        "Signed integer multiplication, producing the high half of a";
    sqmul_round_sat: Binary(x: I16or32, y: I16or32 -> a: I16or32)
        "Fixed-point multiplication of numbers in the QN format, where N + 1";
    x86_pmulhrsw: Binary(x: I16or32, y: I16or32 -> a: I16or32)
        "A similar instruction to `sqmul_round_sat` except with the semantics";
};

/// The instructions 73 to 82.
fn arithmetic() -> &'static [Row]
    ensures { IsTable arithmetic_names arithmetic_formats 1 result.now }
{
    &ARITHMETIC
}

static DIVISION: [Row; 4] = rows! {
    udiv: Binary(x: iB, y: iB -> a: iB) Trap Idempotent ImmMethod
        "Unsigned integer division: `a := \\lfloor {x \\over y} \\rfloor`.";
    sdiv: Binary(x: iB, y: iB -> a: iB) Trap Idempotent ImmMethod
        "Signed integer division rounded toward zero: `a := sign(xy)";
    urem: Binary(x: iB, y: iB -> a: iB) Trap Idempotent ImmMethod
        "Unsigned integer remainder.";
    srem: Binary(x: iB, y: iB -> a: iB) Trap Idempotent ImmMethod
        "Signed integer remainder. The result has the sign of the dividend.";
};

/// The instructions 83 to 86.
fn division() -> &'static [Row]
    ensures { IsTable division_names division_formats 0 result.now }
{
    &DIVISION
}

/// Arithmetic that reports an overflow.
static OVERFLOW: [Row; 11] = rows! {
    sadd_overflow_cin: Ternary(x: iB, y: iB, c_in: i8 "Input carry flag" -> a: iB, c_out: i8 "Output carry flag")
        "Add signed integers with carry in and overflow out.";
    uadd_overflow_cin: Ternary(x: iB, y: iB, c_in: i8 "Input carry flag" -> a: iB, c_out: i8 "Output carry flag")
        "Add unsigned integers with carry in and overflow out.";
    uadd_overflow: Binary(x: iB, y: iB -> a: iB, of: i8 "Overflow flag")
        "Add integers unsigned with overflow out.";
    sadd_overflow: Binary(x: iB, y: iB -> a: iB, of: i8 "Overflow flag")
        "Add integers signed with overflow out.";
    usub_overflow: Binary(x: iB, y: iB -> a: iB, of: i8 "Overflow flag")
        "Subtract integers unsigned with overflow out.";
    ssub_overflow: Binary(x: iB, y: iB -> a: iB, of: i8 "Overflow flag")
        "Subtract integers signed with overflow out.";
    umul_overflow: Binary(x: NarrowScalar, y: NarrowScalar -> a: NarrowScalar, of: i8 "Overflow flag")
        "Multiply integers unsigned with overflow out.";
    smul_overflow: Binary(x: NarrowScalar, y: NarrowScalar -> a: NarrowScalar, of: i8 "Overflow flag")
        "Multiply integers signed with overflow out.";
    uadd_overflow_trap: IntAddTrap(x: i32_64, y: i32_64, code: trapcode -> a: i32_64) Trap Idempotent
        "Unsigned addition of x and y, trapping if the result overflows.";
    ssub_overflow_bin: Ternary(x: iB, y: iB, b_in: i8 "Input borrow flag" -> a: iB, b_out: i8 "Output borrow flag")
        "Subtract signed integers with borrow in and overflow out.";
    usub_overflow_bin: Ternary(x: iB, y: iB, b_in: i8 "Input borrow flag" -> a: iB, b_out: i8 "Output borrow flag")
        "Subtract unsigned integers with borrow in and overflow out.";
};

/// The instructions 87 to 97.
fn overflow() -> &'static [Row]
    ensures { IsTable overflow_names overflow_formats 0 result.now }
{
    &OVERFLOW
}

/// Operations on bits, rotations and shifts.
static BITWISE: [Row; 9] = rows! {
    band: Binary(x: bits, y: bits -> a: bits) ImmMethod
        "Bitwise and.";
    bor: Binary(x: bits, y: bits -> a: bits) ImmMethod
        "Bitwise or.";
    bxor: Binary(x: bits, y: bits -> a: bits) ImmMethod
        "Bitwise xor.";
    bnot: Unary(x: bits -> a: bits)
        "Bitwise not.";
    rotl: Binary(x: Int2 "Scalar or vector value to shift", y: iB "Number of bits to shift" -> a: Int2) ImmMethod
        "Rotate left.";
    rotr: Binary(x: Int2 "Scalar or vector value to shift", y: iB "Number of bits to shift" -> a: Int2) ImmMethod
        "Rotate right.";
    ishl: Binary(x: Int2 "Scalar or vector value to shift", y: iB "Number of bits to shift" -> a: Int2) ImmMethod
        "Integer shift left. Shift the bits in ``x`` towards the MSB by ``y``";
    ushr: Binary(x: Int2 "Scalar or vector value to shift", y: iB "Number of bits to shift" -> a: Int2) ImmMethod
        "Unsigned shift right. Shift bits in ``x`` towards the LSB by ``y``";
    sshr: Binary(x: Int2 "Scalar or vector value to shift", y: iB "Number of bits to shift" -> a: Int2) ImmMethod
        "Signed shift right. Shift bits in ``x`` towards the LSB by ``y``";
};

/// The instructions 98 to 106.
fn bitwise() -> &'static [Row]
    ensures { IsTable bitwise_names bitwise_formats 0 result.now }
{
    &BITWISE
}

/// Bits and bytes that are reversed or counted.
static BIT_COUNTS: [Row; 6] = rows! {
    bitrev: Unary(x: iB -> a: iB)
        "Reverse the bits of a integer.";
    clz: Unary(x: iB -> a: iB)
        "Count leading zero bits.";
    cls: Unary(x: iB -> a: iB)
        "Count leading sign bits.";
    ctz: Unary(x: iB -> a: iB)
        "Count trailing zeros.";
    bswap: Unary(x: iSwappable -> a: iSwappable)
        "Reverse the byte order of an integer.";
    popcnt: Unary(x: Int2 -> a: Int2)
        "Population count";
};

/// The instructions 107 to 112.
fn bit_counts() -> &'static [Row]
    ensures { IsTable bit_counts_names bit_counts_formats 0 result.now }
{
    &BIT_COUNTS
}

static FLOATS: [Row; 12] = rows! {
    fcmp: FloatCompare(Cond: floatcc, x: Float, y: Float -> a: as_truthy(Float))
        "Floating point comparison.";
    fadd: Binary(x: Float, y: Float -> a: Float "Result of applying operator to each lane")
        "Floating point addition.";
    fsub: Binary(x: Float, y: Float -> a: Float "Result of applying operator to each lane")
        "Floating point subtraction.";
    fmul: Binary(x: Float, y: Float -> a: Float "Result of applying operator to each lane")
        "Floating point multiplication.";
    fdiv: Binary(x: Float, y: Float -> a: Float "Result of applying operator to each lane")
        "Floating point division.";
    sqrt: Unary(x: Float -> a: Float "Result of applying operator to each lane")
        "Floating point square root.";
    fma: Ternary(x: Float, y: Float, z: Float -> a: Float "Result of applying operator to each lane")
        "Floating point fused multiply-and-add.";
    fneg: Unary(x: Float -> a: Float "``x`` with its sign bit inverted")
        "Floating point negation.";
    fabs: Unary(x: Float -> a: Float "``x`` with its sign bit cleared")
        "Floating point absolute value.";
    fcopysign: Binary(x: Float, y: Float -> a: Float "``x`` with its sign bit changed to that of ``y``")
        "Floating point copy sign.";
    fmin: Binary(x: Float, y: Float -> a: Float "The smaller of ``x`` and ``y``")
        "Floating point minimum, propagating NaNs using the WebAssembly rules.";
    fmax: Binary(x: Float, y: Float -> a: Float "The larger of ``x`` and ``y``")
        "Floating point maximum, propagating NaNs using the WebAssembly rules.";
};

/// The instructions 113 to 124.
fn floats() -> &'static [Row]
    ensures { IsTable floats_names floats_formats 1 result.now }
{
    &FLOATS
}

static ROUNDING: [Row; 4] = rows! {
    ceil: Unary(x: Float -> a: Float "``x`` rounded to integral value")
        "Round floating point round to integral, towards positive infinity.";
    floor: Unary(x: Float -> a: Float "``x`` rounded to integral value")
        "Round floating point round to integral, towards negative infinity.";
    trunc: Unary(x: Float -> a: Float "``x`` rounded to integral value")
        "Round floating point round to integral, towards zero.";
    nearest: Unary(x: Float -> a: Float "``x`` rounded to integral value")
        "Round floating point round to integral, towards nearest with ties to";
};

/// The instructions 125 to 128.
fn rounding() -> &'static [Row]
    ensures { IsTable rounding_names rounding_formats 0 result.now }
{
    &ROUNDING
}

/// Values that are read as those of another type.
static CASTS: [Row; 4] = rows! {
    bitcast: LoadNoOffset(MemFlags: memflags, x: Mem -> a: MemTo "Bits of `x` reinterpreted")
        "Reinterpret the bits in `x` as a different type.";
    scalar_to_vector: Unary(s: lane_of(V2) "A scalar value" -> a: V2 "A vector value")
        "Copies a scalar value to a vector value.  The scalar is copied into the";
    bmask: Unary(x: Truthy -> a: IntTo1)
        "Convert `x` to an integer mask.";
    ireduce: Unary(x: wider(Int3) "A scalar integer type, wider than the controlling type" -> a: Int3)
        "Convert `x` to a smaller integer type by discarding";
};

/// The instructions 129 to 132.
fn casts() -> &'static [Row]
    ensures { IsTable casts_names casts_formats 2 result.now }
{
    &CASTS
}

/// Vectors of wider or narrower lanes.
static LANE_WIDTHS: [Row; 9] = rows! {
    snarrow: Binary(x: W, y: W -> a: split_lanes(W))
        "Combine `x` and `y` into a vector with twice the lanes but half the integer width while";
    unarrow: Binary(x: W, y: W -> a: split_lanes(W))
        "Combine `x` and `y` into a vector with twice the lanes but half the integer width while";
    uunarrow: Binary(x: W, y: W -> a: split_lanes(W))
        "Combine `x` and `y` into a vector with twice the lanes but half the integer width while";
    swiden_low: Unary(x: N -> a: merge_lanes(N))
        "Widen the low lanes of `x` using signed extension.";
    swiden_high: Unary(x: N -> a: merge_lanes(N))
        "Widen the high lanes of `x` using signed extension.";
    uwiden_low: Unary(x: N -> a: merge_lanes(N))
        "Widen the low lanes of `x` using unsigned extension.";
    uwiden_high: Unary(x: N -> a: merge_lanes(N))
        "Widen the high lanes of `x` using unsigned extension.";
    iadd_pairwise: Binary(x: N, y: N -> a: N)
        "Does lane-wise integer pairwise addition on two operands, putting the";
    x86_pmaddubsw: Binary(x: B2, y: B2 -> a: I16x8)
        "An instruction with equivalent semantics to `pmaddubsw` on x86.";
};

/// The instructions 133 to 141.
fn lane_widths() -> &'static [Row]
    ensures { IsTable lane_widths_names lane_widths_formats 7 result.now }
{
    &LANE_WIDTHS
}

/// Numbers of more or fewer bits.
static EXTENSION: [Row; 6] = rows! {
    uextend: Unary(x: narrower(Int3) "A scalar integer type, narrower than the controlling type" -> a: Int3)
        "Convert `x` to a larger integer type by zero-extending.";
    sextend: Unary(x: narrower(Int3) "A scalar integer type, narrower than the controlling type" -> a: Int3)
        "Convert `x` to a larger integer type by sign-extending.";
    fpromote: Unary(x: narrower(FloatScalar) "A scalar only floating point number, narrower than the controlling type" -> a: FloatScalar)
        "Convert `x` to a larger floating point format.";
    fdemote: Unary(x: wider(FloatScalar) "A scalar only floating point number, wider than the controlling type" -> a: FloatScalar)
        "Convert `x` to a smaller floating point format.";
    fvdemote: Unary(x: F64x2 -> a: F32x4)
        "Convert `x` to a smaller floating point format.";
    fvpromote_low: Unary(a: F32x4 -> x: F64x2)
        "Converts packed single precision floating point to packed double precision floating point.";
};

/// The instructions 142 to 147.
fn extension() -> &'static [Row]
    ensures { IsTable extension_names extension_formats 4 result.now }
{
    &EXTENSION
}

/// Conversions between integers and floating-point numbers.
static NUMBER_CASTS: [Row; 7] = rows! {
    fcvt_to_uint: Unary(x: FloatScalar -> a: IntTo2) Trap Idempotent
        "Converts floating point scalars to unsigned integer.";
    fcvt_to_sint: Unary(x: FloatScalar -> a: IntTo2) Trap Idempotent
        "Converts floating point scalars to signed integer.";
    fcvt_to_uint_sat: Unary(x: Float -> a: IntTo3)
        "Convert floating point to unsigned integer as fcvt_to_uint does, but";
    fcvt_to_sint_sat: Unary(x: Float -> a: IntTo3)
        "Convert floating point to signed integer as fcvt_to_sint does, but";
    x86_cvtt2dq: Unary(x: Float -> a: IntTo3)
        "A float-to-integer conversion instruction for vectors-of-floats which";
    fcvt_from_uint: Unary(x: Int4 -> a: FloatTo)
        "Convert unsigned integer to floating point.";
    fcvt_from_sint: Unary(x: Int4 -> a: FloatTo)
        "Convert signed integer to floating point.";
};

/// The instructions 148 to 154.
fn number_casts() -> &'static [Row]
    ensures { IsTable number_casts_names number_casts_formats 0 result.now }
{
    &NUMBER_CASTS
}

/// Integers in two halves.
static HALVES: [Row; 2] = rows! {
    isplit: Unary(x: WideInt -> lo: half_width(WideInt) "The low bits of `x`", hi: half_width(WideInt) "The high bits of `x`")
        "Split an integer into low and high parts.";
    iconcat: Binary(lo: NarrowInt, hi: NarrowInt -> a: double_width(NarrowInt) "The concatenation of `lo` and `hi`")
        "Concatenate low and high bits to form a larger integer type.";
};

/// The instructions 155 and 156.
fn halves() -> &'static [Row]
    ensures { IsTable (take 2 last_rows_names) (take 2 last_rows_formats) 3 result.now }
{
    &HALVES
}

static ATOMICS: [Row; 5] = rows! {
    atomic_rmw: AtomicRmw(MemFlags: memflags, AtomicRmwOp: atomic_rmw_op, p: A2, x: AtomicMem "Value to be atomically stored"
        -> a: AtomicMem "Value atomically loaded") Load Store OtherEffect
        "Atomically read-modify-write memory at `p`, with second operand `x`.  The old value is";
    atomic_cas: AtomicCas(MemFlags: memflags, p: A2, e: AtomicMem "Expected value in CAS", x: AtomicMem "Value to be atomically stored"
        -> a: AtomicMem "Value atomically loaded") Load Store OtherEffect
        "Perform an atomic compare-and-swap operation on memory at `p`, with expected value `e`,";
    atomic_load: LoadNoOffset(MemFlags: memflags, p: A2 -> a: AtomicMem "Value atomically loaded") Load OtherEffect
        "Atomically load from memory at `p`.";
    atomic_store: StoreNoOffset(MemFlags: memflags, x: AtomicMem "Value to be atomically stored", p: A2 ->) Store OtherEffect
        "Atomically store `x` to memory at `p`.";
    fence: NullAry(->) OtherEffect
        "A memory fence.  This must provide ordering to ensure that, at a minimum, neither loads";
};

/// The instructions 157 to 161.
fn atomics() -> &'static [Row]
    ensures { IsTable (take 5 (drop 2 last_rows_names)) (take 5 (drop 2 last_rows_formats)) 0 result.now }
{
    &ATOMICS
}

static LAST_ROWS: [Row; 2] = rows! {
    extract_vector: BinaryImm8(x: V3 "The dynamic vector to extract from",
        y: uimm8 "128-bit vector index" -> a: dynamic_to_vector(V3) "New fixed vector")
        "Return a fixed length sub vector, extracted from a dynamic vector.";
    sequence_point: NullAry(->) OtherEffect
        "A compiler barrier that acts as an immovable marker from IR input to machine-code output.";
};

/// The instructions 162 and 163.
fn last_rows() -> &'static [Row]
    ensures { IsTable (drop 7 last_rows_names) (drop 7 last_rows_formats) 1 result.now }
{
    &LAST_ROWS
}

/// The tables of the instructions 73 to 163.
pub(crate) fn ops_tables() -> [&'static [Row]; 14]
    ensures { IsTable ops_names ops_formats 19 (rows_in result) }
{
    [
        arithmetic(),
        division(),
        overflow(),
        bitwise(),
        bit_counts(),
        floats(),
        rounding(),
        casts(),
        lane_widths(),
        extension(),
        number_casts(),
        halves(),
        atomics(),
        last_rows(),
    ]
}
