/// The values that an instruction takes and gives. X is its root variable.
#[derive(Clone, Copy, Debug, PartialEq, Eq)]
pub enum Shape {
    /// The instruction takes nothing and gives nothing.
    Bare,
    /// The instruction takes a value of X and gives one of X.
    Copying,
    /// The instruction takes two values of X and gives what a comparison of them gives.
    Comparing,
    /// The instruction takes a value with fewer bits than X and gives one of X.
    Widening,
}
