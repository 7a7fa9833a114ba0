ghost use Rattle.std.specs.Prelude.{◌≡◌};
ghost use Rattle.meta_gen.specs.Reply.{reply_text};

use meta_types::Text;

/// The reply to a line.
#[derive(Debug, Drop, PartialEq, Eq)]
pub enum Reply {
    /// The instruction accepts the types.
    Accept,
    /// The instruction doesn't accept the types, or no types of results fit the controls.
    Refuse,
    /// No instruction, or no setting, has the name.
    Unknown,
    /// The line asks nothing.
    Bad,
    /// The line with the types of the results that are inferred.
    Results(Text),
    /// The line that describes the setting.
    Setting(Text),
}

impl Reply {
    /// The reply as it is written: `accept`, `refuse`, `unknown`, `bad`, or the line of the results or of the setting.
    pub fn text(&self) -> &str
        ensures { result.now ≡ reply_text self.now }
    {
        match self {
            Reply::Accept => "accept",
            Reply::Refuse => "refuse",
            Reply::Unknown => "unknown",
            Reply::Bad => "bad",
            Reply::Results(line) | Reply::Setting(line) => line.as_str(),
        }
    }
}
