/// A part of what an opcode is asked. The parts are looked at in this order.
#[derive(Clone, Copy, Debug, PartialEq, Eq)]
pub enum Part {
    /// The controlling type.
    Control,
    /// The second controlling type.
    Second,
    /// The count of results.
    ResultCount,
    /// The count of values.
    ValueCount,
    /// The operand at this place, from 0: the results in order, and then the values.
    Operand(usize),
}
