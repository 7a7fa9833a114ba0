use super::part::Part;

/// What a part has to be to pass.
#[derive(Debug, Drop)]
pub enum Wanted {
    /// No controlling type.
    Nothing,
    /// One of these types, by their numbers in rising order.
    Types(Vec<u16>),
    /// This count.
    Count(usize),
}

/// Whether an opcode accepts types, and why it doesn't.
#[derive(Debug, Drop)]
pub enum Explained {
    /// It accepts them.
    Accept,
    /// It refuses them: the first part that fails, and what that part has to be.
    Refuse(Part, Wanted),
}
