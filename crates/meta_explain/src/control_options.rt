/// The controlling types under which an opcode accepts something. Each of the first goes with each of the second.
#[derive(Debug, Drop)]
pub struct ControlOptions {
    /// The controlling types, by their numbers in rising order. `None` if there is no controlling type.
    pub first: Option<Vec<u16>>,
    /// The second controlling types. `None` if there is no second controlling type.
    pub second: Option<Vec<u16>>,
}
