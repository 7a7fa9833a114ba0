ghost use Rattle.std.specs.Prelude.{◌≡◌};
ghost use Rattle.meta_flags.specs.Replies.{error_text};

use thiserror::Error;

/// Why a setting can't be set or enabled, or has no value to get.
#[derive(Clone, Copy, Debug, Drop, PartialEq, Eq, Error)]
pub enum FlagError {
    /// No entry has the name.
    #[error("Unknown")]
    Unknown,
    /// The entry of the name is of a kind for which this can't be done.
    #[error("Kind")]
    Kind,
    /// The text writes no value of the setting.
    #[error("Value")]
    Value,
}

impl FlagError {
    /// The error in one word: `unknown`, `kind` or `value`.
    pub fn text(self) -> &'static str
        ensures { result.now ≡ error_text self }
    {
        match self {
            FlagError::Unknown => "unknown",
            FlagError::Kind => "kind",
            FlagError::Value => "value",
        }
    }
}
