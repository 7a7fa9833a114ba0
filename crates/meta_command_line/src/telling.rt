ghost use Rattle.std.specs.Prelude.{◌≡◌};
ghost use Rattle.std.specs.Option.{option_copied};
ghost use Rattle.meta_command_line.specs.Telling.{about_text};

use meta_run::Ending;

/// Why an ending isn't `Done`, for a person. `None` if it is `Done`.
pub fn about(ending: Ending) -> Option<&'static str>
    ensures { option_copied result ≡ about_text ending }
{
    match ending {
        Ending::Done => None,
        Ending::Refused => Some("the declarations are refused"),
        Ending::Usage => Some("the words are no command: --help has the commands"),
        Ending::ReadFault => Some("standard input could not be read"),
        Ending::WriteFault => Some("standard output could not be written"),
        Ending::OutOfMemory => Some("out of memory"),
        Ending::TooLong => Some("standard input is longer than 1048576 bytes"),
        Ending::Rejected => Some("the input is rejected"),
    }
}
