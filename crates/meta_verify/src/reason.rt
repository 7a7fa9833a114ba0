ghost use Rattle.std.specs.Prelude.{◌≡◌, ◌++◌, OnOk, string_bytes};
ghost use Rattle.meta_verify.specs.Reason.{reason_text};

use std::alloc::AllocError;

/// Why a line is wrong: the first of these that holds.
#[derive(Clone, Copy, Debug, PartialEq, Eq)]
pub enum Reason {
    /// The line states nothing.
    Bad,
    /// No instruction has the name.
    Unknown,
    /// This value isn't defined. It is the first such value of the line.
    Undefined(u32),
    /// This value is defined by a line before, or further left in this line. It is the first such value that the line defines.
    Redefined(u32),
    /// The instruction doesn't accept the types.
    Refused,
}

impl Reason {
    /// Adds the reason as it is written: `bad`, `unknown`, `undefined v9`, `redefined v0` or `refused`. After an error the contract says
    /// nothing of the text, as that of `write!` doesn't.
    pub fn push(self, out: &mut String) -> Result<(), AllocError>
        ensures { OnOk result (string_bytes out.new ≡ string_bytes out.old ++ reason_text self) }
    {
        match self {
            Reason::Bad => out.push_str("bad"),
            Reason::Unknown => out.push_str("unknown"),
            Reason::Undefined(value) => write!(out, "undefined v{value}"),
            Reason::Redefined(value) => write!(out, "redefined v{value}"),
            Reason::Refused => out.push_str("refused"),
        }
    }
}
