use super::control_types::ControlTypes;

/// An opcode, and controlling types under which it accepts something.
#[derive(Clone, Copy, Debug, PartialEq, Eq)]
pub struct Found {
    /// The opcode, from 1.
    pub opcode: u16,
    /// The controlling types.
    pub controls: ControlTypes,
}
