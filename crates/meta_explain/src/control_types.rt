/// The controlling types, by their numbers.
#[derive(Clone, Copy, Debug, PartialEq, Eq)]
pub struct ControlTypes {
    /// The controlling type, if there is one.
    pub ctrl: Option<u16>,
    /// The second controlling type, if there is one.
    pub second: Option<u16>,
}
