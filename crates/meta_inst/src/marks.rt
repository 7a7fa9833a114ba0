/// The marks of an instruction: what it may do beside giving its results, and whether it gets a second builder method. In the crate they
/// are fields of `InstructionContent` of `cdsl/instructions.rs`.
#[derive(Clone, Copy, Debug, PartialEq, Eq)]
pub struct Marks {
    /// The instruction ends a block.
    pub is_terminator: bool,
    /// The instruction branches to a block.
    pub is_branch: bool,
    /// The instruction calls a function.
    pub is_call: bool,
    /// The instruction returns from the function.
    pub is_return: bool,
    /// The instruction may read memory.
    pub can_load: bool,
    /// The instruction may write memory.
    pub can_store: bool,
    /// The instruction may trap.
    pub can_trap: bool,
    /// The instruction has effects beside those of the other marks.
    pub other_side_effects: bool,
    /// The effects of the instruction are idempotent: done twice they are the same as once.
    pub side_effects_idempotent: bool,
    /// The written instruction builder has a second method for this instruction, which takes an immediate for the last value input.
    pub inst_builder_imm_method: bool,
}

impl Marks {
    ghost use Rattle.std.specs.Prelude.{◌≡◌};
    ghost use Rattle.meta_inst.specs.Marks.{no_marks};

    pub(crate) fn none() -> Marks
        ensures { result ≡ no_marks }
    {
        Marks {
            is_terminator: false,
            is_branch: false,
            is_call: false,
            is_return: false,
            can_load: false,
            can_store: false,
            can_trap: false,
            other_side_effects: false,
            side_effects_idempotent: false,
            inst_builder_imm_method: false,
        }
    }
}
