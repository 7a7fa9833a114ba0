ghost use Rattle.std.specs.Prelude.{◌≡◌, ◌↔◌, ◌<◌, ◌≤◌, ◌++◌, IfOk, IsTrue, OnOk, string_bytes};
ghost use Rattle.std.specs.Char.Escape.{escape_ascii};
ghost use Rattle.meta_command_line.specs.Misuse.{AreTaken};
ghost use Rattle.meta_command_line.specs.Usage.{IsPlain, escaped, IsShown, IsShownAt, ArePlainlyNamed, IsWrongAfter, TellsWrong};
ghost use Rattle.meta_command_line.specs.Usage.{commands_text, commands_told, IsUsageLine};

use super::manual::CommandForm;
use super::misuse::Misuse;
use meta_types::Text;
use std::alloc::{AllocError, Global};

/// Which commands there are. If there are none, no word is taken.
fn commands_text(alloc: Global, commands: &[CommandForm]) -> Result<String, AllocError>
    ensures { IfOk result (λ text. string_bytes text ≡ commands_text commands.now) }
{
    let [first, others @ ..] = commands else {
        return String::from_str(alloc, "the program takes no words");
    };
    let mut text = String::from_str(alloc, "the commands are ")?;
    text.push_str(first.name)?;
    for other in others {
        text.push_str(", ")?;
        text.push_str(other.name)?;
    }
    Ok(text)
}

/// The list of the commands, if the words name none of them.
fn commands_told(
    alloc: Global,
    commands: &[CommandForm],
    misuse: Misuse,
) -> Result<String, AllocError>
    ensures { IfOk result (λ text. string_bytes text ≡ commands_told commands.now misuse) }
{
    match misuse {
        Misuse::NoWord | Misuse::NoCommand => {
            let commands = commands_text(alloc, commands)?;
            format!(in alloc; ": {commands}")
        }
        Misuse::NoNumber(_) | Misuse::WordTooMany(_) | Misuse::NumberMissing => {
            Ok(String::new(alloc))
        }
    }
}

/// Whether the byte is a letter, a digit, a mark or a space of ASCII.
fn is_plain_byte(byte: u8) -> bool
    ensures { IsTrue result ↔ ((32 ≤ byte) × (byte < 127)) }
{
    32 <= byte && byte < 127
}

fn is_plain(word: &Text) -> bool
    ensures { IsTrue result ↔ IsPlain word.now }
{
    for byte in word.as_bytes() {
        if !is_plain_byte(*byte) {
            return false;
        }
    }
    true
}

/// Adds the byte as `u8::escape_ascii` writes it.
fn push_escaped(shown: &mut String, byte: u8) -> Result<(), AllocError>
    ensures { OnOk result (string_bytes shown.new ≡ string_bytes shown.old ++ escape_ascii byte) }
{
    for letter in byte.escape_ascii() {
        shown.push(char::from(letter))?;
    }
    Ok(())
}

/// The bytes between double quotes, each as `u8::escape_ascii` writes it: `\n`, `\"`, `\x1b`, or the byte itself if it is plain ASCII.
pub fn escaped(alloc: Global, bytes: &[u8]) -> Result<String, AllocError>
    ensures text { IfOk result (λ shown. string_bytes shown ≡ escaped bytes.now) }
    ensures plain { IfOk result (λ shown. IsPlain (string_bytes shown)) }
{
    let mut shown = String::from_str(alloc, "\"")?;
    for byte in bytes {
        push_escaped(&mut shown, *byte)?;
    }
    shown.push_str("\"")?;
    Ok(shown)
}

/// The word as a line shows it: between quotes, and with escapes if it isn't plain.
fn shown(alloc: Global, word: &Text) -> Result<String, AllocError>
    ensures { IfOk result (λ shown. IsShown word.now (string_bytes shown)) }
{
    if is_plain(word) {
        let text = word.as_str();
        format!(in alloc; "'{text}'")
    } else {
        escaped(alloc, word.as_bytes())
    }
}

/// The word at a place as a line shows it. It is empty if there is no word there.
fn shown_at(alloc: Global, words: &[Text], place: usize) -> Result<String, AllocError>
    ensures { IfOk result (λ shown. IsShownAt words.now place (string_bytes shown)) }
{
    match words.get(place) {
        Some(word) => shown(alloc, word),
        None => Ok(String::new(alloc)),
    }
}

fn wrong_after(
    alloc: Global,
    name: &Text,
    after: &[Text],
    misuse: Misuse,
) -> Result<String, AllocError>
    ensures { IfOk result (λ text. IsWrongAfter name.now after.now misuse (string_bytes text)) }
{
    let name = shown(alloc, name)?;
    let word = shown_at(alloc, after, misuse.place())?;
    match misuse {
        Misuse::NoWord | Misuse::NoCommand => format!(in alloc; "no command {name}"),
        Misuse::NoNumber(_) => format!(in alloc; "{word} is no number for {name}"),
        Misuse::WordTooMany(_) => format!(in alloc; "{word} is a word too many for {name}"),
        Misuse::NumberMissing => format!(in alloc; "a number is missing for {name}"),
    }
}

fn wrong(alloc: Global, words: &[Text], misuse: Misuse) -> Result<String, AllocError>
    ensures { IfOk result (λ text. TellsWrong words.now misuse (string_bytes text)) }
{
    match words {
        [] => String::from_str(alloc, "no command"),
        [name, after @ ..] => wrong_after(alloc, name, after, misuse),
    }
}

/// The usage line: what is wrong with words that are none of the commands, and which word is wrong. If the words begin with the name of no
/// command, it lists the commands. It is one line, without its line feed. If the names of the commands are plain, each byte of the line is
/// plain: no word ends the line, or reaches a terminal as anything but printable ASCII.
pub fn usage_line(
    alloc: Global,
    commands: &[CommandForm],
    words: &[Text],
) -> Result<String, AllocError>
    ensures plain { ArePlainlyNamed commands.now → IfOk result (λ line. IsPlain (string_bytes line)) }
    ensures line { (AreTaken commands.now words.now → ⊥)
        → IfOk result (λ line. IsUsageLine commands.now words.now (string_bytes line)) }
{
    let Some(misuse) = Misuse::of(commands, words) else {
        return String::from_str(alloc, "no command");
    };
    let wrong = wrong(alloc, words, misuse)?;
    let commands = commands_told(alloc, commands, misuse)?;
    format!(in alloc; "{wrong}{commands}; --help says more")
}
