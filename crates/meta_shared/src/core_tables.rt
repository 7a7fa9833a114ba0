ghost use Rattle.meta_shared.specs.CoreFormats.{core_formats};
ghost use Rattle.meta_shared.specs.CoreNames.{core_names};
ghost use Rattle.meta_shared.specs.Rows.{IsTable, rows_in};

use super::row::Row;
use super::rows;

/// Control flow and traps: the instructions 1 to 8.
static CONTROL_FLOW: [Row; 8] = rows! {
    jump: Jump(block_call: block_call "Destination basic block, with its arguments provided" ->) Branch
        "Jump.";
    brif: Brif(c: ST1 "Controlling value to test", block_then: block_then "Then block", block_else: block_else "Else block" ->) Branch
        "Conditional branch when cond is non-zero.";
    br_table: BranchTable(x: I32 "i32 index into jump table", JT: jump_table ->) Branch
        "Indirect branch via jump table.";
    debugtrap: NullAry(->) Load Store OtherEffect
        "Encodes an assembly debug trap.";
    trap: Trap(code: trapcode ->) Terminator Trap
        "Terminate execution unconditionally.";
    trapz: CondTrap(c: ST1 "Controlling value to test", code: trapcode ->) Trap Idempotent
        "Trap when zero.";
    trapnz: CondTrap(c: ST1 "Controlling value to test", code: trapcode ->) Trap Idempotent
        "Trap when non-zero.";
    return: MultiAry(rvals: varargs "return values" ->) Return
        "Return from the function.";
};

/// The instructions 9 to 15.
static CALLS: [Row; 7] = rows! {
    call: Call(FN: func_ref "function to call, declared by `function`",
        args: varargs "call arguments" -> rvals: varargs "return values") Call
        "Direct function call.";
    call_indirect: CallIndirect(SIG: sig_ref "function signature", callee: A1 "address of function to call",
        args: varargs "call arguments" -> rvals: varargs "return values") Call
        "Indirect function call.";
    return_call: Call(FN: func_ref "function to call, declared by `function`", args: varargs "call arguments" ->) Call Return
        "Direct tail call.";
    return_call_indirect: CallIndirect(SIG: sig_ref "function signature", callee: A1 "address of function to call",
        args: varargs "call arguments" ->) Call Return
        "Indirect tail call.";
    func_addr: FuncAddr(FN: func_ref "function to call, declared by `function`" -> addr: A1)
        "Get the address of a function.";
    try_call: TryCall(callee: func_ref "function to call, declared by `function`", args: varargs "call arguments",
        ET: exception_table "exception table" ->) Branch Call
        "Call a function, catching the specified exceptions.";
    try_call_indirect: TryCallIndirect(callee: A1 "address of function to call", args: varargs "call arguments",
        ET: exception_table "exception table" ->) Branch Call
        "Call a function, catching the specified exceptions.";
};

/// Vectors by their lanes: the instructions 16 to 20.
static LANES: [Row; 5] = rows! {
    splat: Unary(x: lane_of(V1) "Value to splat to all lanes" -> a: V1)
        "Vector splat.";
    swizzle: Binary(x: B1 "Vector to modify by re-arranging lanes", y: B1 "Mask for re-arranging lanes" -> a: B1)
        "Vector swizzle.";
    x86_pshufb: Binary(x: B1 "Vector to modify by re-arranging lanes", y: B1 "Mask for re-arranging lanes" -> a: B1)
        "A vector swizzle lookalike which has the semantics of `pshufb` on x64.";
    insertlane: TernaryImm8(x: V1 "The vector to modify", y: lane_of(V1) "New lane value", Idx: uimm8 "Lane index" -> a: V1)
        "Insert ``y`` as lane ``Idx`` in x.";
    extractlane: BinaryImm8(x: V1, Idx: uimm8 "Lane index" -> a: lane_of(V1))
        "Extract lane ``Idx`` from ``x``.";
};

/// Minima, maxima, averages and saturating sums: the instructions 21 to 29.
static VECTOR_INTEGERS: [Row; 9] = rows! {
    smin: Binary(x: Int1, y: Int1 -> a: Int1)
        "Signed integer minimum.";
    umin: Binary(x: Int1, y: Int1 -> a: Int1)
        "Unsigned integer minimum.";
    smax: Binary(x: Int1, y: Int1 -> a: Int1)
        "Signed integer maximum.";
    umax: Binary(x: Int1, y: Int1 -> a: Int1)
        "Unsigned integer maximum.";
    avg_round: Binary(x: IxN, y: IxN -> a: IxN)
        "Unsigned average with rounding: `a := (x + y + 1) // 2`";
    uadd_sat: Binary(x: IxN, y: IxN -> a: IxN)
        "Add with unsigned saturation.";
    sadd_sat: Binary(x: IxN, y: IxN -> a: IxN)
        "Add with signed saturation.";
    usub_sat: Binary(x: IxN, y: IxN -> a: IxN)
        "Subtract with unsigned saturation.";
    ssub_sat: Binary(x: IxN, y: IxN -> a: IxN)
        "Subtract with signed saturation.";
};

/// Loads and stores of one value, and the switch of stacks: the instructions 30 to 41.
static MEMORY: [Row; 12] = rows! {
    load: Load(MemFlags: memflags, p: A2, Offset: offset32 "Byte offset from base address" -> a: Mem "Value loaded") Load
        "Load from memory at ``p + Offset``.";
    store: Store(MemFlags: memflags, x: Mem "Value to be stored", p: A2, Offset: offset32 "Byte offset from base address" ->) Store
        "Store ``x`` to memory at ``p + Offset``.";
    uload8: Load(MemFlags: memflags, p: A2, Offset: offset32 "Byte offset from base address" -> a: iExt8) Load
        "Load 8 bits from memory at ``p + Offset`` and zero-extend.";
    sload8: Load(MemFlags: memflags, p: A2, Offset: offset32 "Byte offset from base address" -> a: iExt8) Load
        "Load 8 bits from memory at ``p + Offset`` and sign-extend.";
    istore8: Store(MemFlags: memflags, x: iExt8, p: A2, Offset: offset32 "Byte offset from base address" ->) Store
        "Store the low 8 bits of ``x`` to memory at ``p + Offset``.";
    uload16: Load(MemFlags: memflags, p: A2, Offset: offset32 "Byte offset from base address" -> a: iExt16) Load
        "Load 16 bits from memory at ``p + Offset`` and zero-extend.";
    sload16: Load(MemFlags: memflags, p: A2, Offset: offset32 "Byte offset from base address" -> a: iExt16) Load
        "Load 16 bits from memory at ``p + Offset`` and sign-extend.";
    istore16: Store(MemFlags: memflags, x: iExt16, p: A2, Offset: offset32 "Byte offset from base address" ->) Store
        "Store the low 16 bits of ``x`` to memory at ``p + Offset``.";
    uload32: Load(MemFlags: memflags, p: A2, Offset: offset32 "Byte offset from base address" -> a: iExt32) Load
        "Load 32 bits from memory at ``p + Offset`` and zero-extend.";
    sload32: Load(MemFlags: memflags, p: A2, Offset: offset32 "Byte offset from base address" -> a: iExt32) Load
        "Load 32 bits from memory at ``p + Offset`` and sign-extend.";
    istore32: Store(MemFlags: memflags, x: iExt32, p: A2, Offset: offset32 "Byte offset from base address" ->) Store
        "Store the low 32 bits of ``x`` to memory at ``p + Offset``.";
    stack_switch: Ternary(store_context_ptr: A2, load_context_ptr: A2, in_payload0: A2 -> out_payload0: A2) Call Load Store OtherEffect
        "Suspends execution of the current stack and resumes execution of another";
};

/// Loads that widen each lane: the instructions 42 to 47.
static VECTOR_LOADS: [Row; 6] = rows! {
    uload8x8: Load(MemFlags: memflags, p: A2, Offset: offset32 "Byte offset from base address" -> a: I16x8 "Value loaded") Load
        "Load an 8x8 vector (64 bits) from memory at ``p + Offset`` and zero-extend into an i16x8";
    sload8x8: Load(MemFlags: memflags, p: A2, Offset: offset32 "Byte offset from base address" -> a: I16x8 "Value loaded") Load
        "Load an 8x8 vector (64 bits) from memory at ``p + Offset`` and sign-extend into an i16x8";
    uload16x4: Load(MemFlags: memflags, p: A2, Offset: offset32 "Byte offset from base address" -> a: I32x4 "Value loaded") Load
        "Load a 16x4 vector (64 bits) from memory at ``p + Offset`` and zero-extend into an i32x4";
    sload16x4: Load(MemFlags: memflags, p: A2, Offset: offset32 "Byte offset from base address" -> a: I32x4 "Value loaded") Load
        "Load a 16x4 vector (64 bits) from memory at ``p + Offset`` and sign-extend into an i32x4";
    uload32x2: Load(MemFlags: memflags, p: A2, Offset: offset32 "Byte offset from base address" -> a: I64x2 "Value loaded") Load
        "Load an 32x2 vector (64 bits) from memory at ``p + Offset`` and zero-extend into an i64x2";
    sload32x2: Load(MemFlags: memflags, p: A2, Offset: offset32 "Byte offset from base address" -> a: I64x2 "Value loaded") Load
        "Load a 32x2 vector (64 bits) from memory at ``p + Offset`` and sign-extend into an i64x2";
};

/// Addresses, and registers that hold them: the instructions 48 to 57.
static ADDRESSES: [Row; 10] = rows! {
    stack_addr: StackAddr(SS: stack_slot, Offset: offset32 "In-bounds offset into stack slot" -> addr: A2)
        "Get the address of a stack slot.";
    dynamic_stack_addr: DynamicStackAddr(DSS: dynamic_stack_slot -> addr: A2)
        "Get the address of a dynamic stack slot.";
    symbol_value: UnaryGlobalValue(GV: global_value -> a: Mem "Value loaded")
        "Compute the value of global GV, which is a symbolic value.";
    tls_value: UnaryGlobalValue(GV: global_value -> a: Mem "Value loaded")
        "Compute the value of global GV, which is a TLS (thread local storage) value.";
    get_pinned_reg: NullAry(-> addr: A2) OtherEffect
        "Gets the content of the pinned register, when it's enabled.";
    set_pinned_reg: Unary(addr: A2 ->) OtherEffect
        "Sets the content of the pinned register, when it's enabled.";
    get_frame_pointer: NullAry(-> addr: A2)
        "Get the address in the frame pointer register.";
    get_stack_pointer: NullAry(-> addr: A2)
        "Get the address in the stack pointer register.";
    get_return_address: NullAry(-> addr: A2)
        "Get the PC where this function will transfer control to when it returns.";
    get_exception_handler_address: ExceptionHandlerAddress(block: raw_block, index: imm64 -> addr: A2)
        "Get the handler PC for the given exceptional edge for an";
};

/// Constants, and what needs no operand: the instructions 58 to 65.
static CONSTANTS: [Row; 8] = rows! {
    iconst: UnaryImm(N: imm64 -> a: NarrowInt "A constant integer scalar or vector value")
        "Integer constant.";
    f16const: UnaryIeee16(N: ieee16 -> a: f16 "A constant f16 scalar value")
        "Floating point constant.";
    f32const: UnaryIeee32(N: ieee32 -> a: f32 "A constant f32 scalar value")
        "Floating point constant.";
    f64const: UnaryIeee64(N: ieee64 -> a: f64 "A constant f64 scalar value")
        "Floating point constant.";
    f128const: UnaryConst(N: pool_constant -> a: f128 "A constant f128 scalar value")
        "Floating point constant.";
    vconst: UnaryConst(N: pool_constant "The 16 immediate bytes of a 128-bit vector" -> a: V2 "A constant vector value")
        "SIMD vector constant.";
    shuffle: Shuffle(a: Tx16 "A vector value", b: Tx16 "A vector value",
        mask: uimm128 "The 16 immediate bytes used for selecting the elements to shuffle" -> a: Tx16 "A vector value")
        "SIMD vector shuffle.";
    nop: NullAry(->)
        "Just a dummy instruction.";
};

/// Selection, and vectors that are reduced to a scalar: the instructions 66 to 72.
static SELECTION: [Row; 7] = rows! {
    select: Ternary(c: ST2 "Controlling value to test", x: Any "Value to use when `c` is true",
        y: Any "Value to use when `c` is false" -> a: Any)
        "Conditional select.";
    select_spectre_guard: Ternary(c: ST2 "Controlling value to test", x: Any "Value to use when `c` is true",
        y: Any "Value to use when `c` is false" -> a: Any)
        "Conditional select intended for Spectre guards.";
    bitselect: Ternary(c: Any "Controlling value to test", x: Any "Value to use when `c` is true",
        y: Any "Value to use when `c` is false" -> a: Any)
        "Conditional select of bits.";
    blendv: Ternary(c: Any "Controlling value to test", x: Any "Value to use when `c` is true",
        y: Any "Value to use when `c` is false" -> a: Any)
        "A bitselect-lookalike instruction except with the semantics of";
    vany_true: Unary(a: V2 -> s: i8)
        "Reduce a vector to a scalar boolean.";
    vall_true: Unary(a: V2 -> s: i8)
        "Reduce a vector to a scalar boolean.";
    vhigh_bits: Unary(a: V2 -> x: NarrowInt)
        "Reduce a vector to a scalar integer.";
};

/// The tables of the instructions 1 to 72.
pub(crate) fn core_tables() -> [&'static [Row]; 9]
    ensures { IsTable core_names core_formats 3 (rows_in result) }
{
    [
        &CONTROL_FLOW,
        &CALLS,
        &LANES,
        &VECTOR_INTEGERS,
        &MEMORY,
        &VECTOR_LOADS,
        &ADDRESSES,
        &CONSTANTS,
        &SELECTION,
    ]
}
