ghost use Rattle.std.specs.Prelude.{◌≡◌, ◌⊎◌, ◌∷◌, [], ℕ, List, codes};
ghost use Rattle.meta_command_line.specs.Misuse.{AreCommandWords, AreTaken};
ghost use Rattle.meta_program.specs.Tool.{AskSomething, BeginWithNameOf, IsToolList, HaveWordAfter};

use meta_command_line::{CommandForm, Range};

/// The commands of `run_words`, each with the numbers that come after its name, for the manual of a program.
pub const COMMANDS: &[CommandForm] = &[
    CommandForm {
        name: "tables",
        numbers: &[],
    },
    CommandForm {
        name: "types",
        numbers: &[],
    },
    CommandForm {
        name: "settings",
        numbers: &[],
    },
    CommandForm {
        name: "instructions",
        numbers: &[],
    },
    CommandForm {
        name: "builder",
        numbers: &[],
    },
    CommandForm {
        name: "query",
        numbers: &[],
    },
    CommandForm {
        name: "explain",
        numbers: &[],
    },
    CommandForm {
        name: "recheck",
        numbers: &[],
    },
    CommandForm {
        name: "synth",
        numbers: &[Range {
            least: 0,
            most: u32::MAX,
        }],
    },
    CommandForm {
        name: "verify",
        numbers: &[],
    },
    CommandForm {
        name: "asm",
        numbers: &[],
    },
    CommandForm {
        name: "flags",
        numbers: &[],
    },
    CommandForm {
        name: "audit",
        numbers: &[],
    },
    CommandForm {
        name: "check",
        numbers: &[],
    },
    CommandForm {
        name: "describe",
        numbers: &[],
    },
];

/// Gives `COMMANDS`. Words ask something exactly if they are listed, with three exceptions, since other words than numbers aren't listed:
/// `asm` asks something only with a form after it, which may have `--why` after it, `tables` may have a version after it, and `verify` may
/// have `--why`. So a usage error names each command, and nothing else.
pub fn listed_tools() -> &'static [CommandForm]
    ensures listed { (words : List (List ℕ)) → AskSomething words → AreTaken result.now words ⊎ HaveWordAfter words }
    // All words that ask something begin with a name of the list.
    ensures named { (words : List (List ℕ)) → AskSomething words → BeginWithNameOf result.now words }
    ensures commands { (words : List (List ℕ)) → AreCommandWords result.now words → AskSomething words ⊎ (words ≡ codes "asm" ∷ []) }
    ensures rows { IsToolList result.now }
{
    COMMANDS
}
