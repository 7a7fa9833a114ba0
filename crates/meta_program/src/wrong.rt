ghost use Rattle.std.specs.Prelude.{◌≡◌, ◌<◌, ◌↔◌, ◌∷◌, [], ℕ, IsTrue, IfOk, IfSome, IfNone, Some, length, slice_get, string_bytes};
ghost use Rattle.meta_command_line.specs.Misuse.{AreTaken};
ghost use Rattle.meta_command_line.specs.Usage.{ArePlainlyNamed, IsPlain, IsUsageLine};
ghost use Rattle.meta_table_text.specs.declared.version.Version as spec_version;
ghost use Rattle.meta_program.specs.Over.{asked_of};
ghost use Rattle.meta_program.specs.TablesIn.{version_word};
ghost use Rattle.meta_program.specs.Tool.{AskSomething};
ghost use Rattle.meta_program.specs.Wrong.{MissFile, CheckMore, CheckRustMore, CheckEndMore, CheckRustEndMore, RustMore, VersionMore};
ghost use Rattle.meta_program.specs.Wrong.{WhyMore, IsTooMany, IsWordTooMany, NameNoVersion, BeginWithAsm, IsFileMissing, IsWrong};
ghost use Rattle.meta_program.specs.Wrong.{IsWrongIfAny, AskWhatIsListed};
ghost use Rattle.meta_program.specs.Wrong.{SaysFileMissing, SaysTooMany, Says, IsWrongLine};
ghost use Rattle.meta_program.specs.declared.wrong.Wrong as spec;

use super::plan::{Over, are_for_version, is_check, is_end, is_option, is_rust};
use super::tool::{is_asm, is_verify, is_why};
use meta_command_line::{CommandForm, usage_line};
use meta_types::Text;
use std::alloc::{AllocError, Global};

/// What is wrong with words that ask nothing, apart from what the list of commands says.
#[derive(Clone, Copy, Debug, PartialEq, Eq)]
pub enum Wrong {
    /// A file is missing after the first word.
    FileMissing,
    /// The word at this place, from 0, is too many for the first word.
    WordTooMany(usize),
    /// The word after `tables --version` is no version.
    NoVersion,
    /// The words after `asm` are no form.
    NoForm,
}

fn is_version(word: &Text) -> bool
    ensures some { IsTrue result → (version : spec_version.Version) × (word.now ≡ version_word version) }
    ensures all { ((version : spec_version.Version) × (word.now ≡ version_word version)) → IsTrue result }
{
    let word = word.as_bytes();
    word == b"1".as_slice() || word == b"2".as_slice() || word == b"3".as_slice()
}

fn miss_file(words: &[Text]) -> bool
    ensures { IsTrue result ↔ MissFile words.now }
{
    match words {
        [option] => is_option(option),
        [name, option] => is_check(name) && (is_rust(option) || is_end(option)),
        [name, rust, end] => is_check(name) && is_rust(rust) && is_end(end),
        _ => false,
    }
}

/// Whether the words are a check of a file, and more.
fn are_check_more(words: &[Text]) -> bool
    ensures { IsTrue result ↔ CheckMore words.now }
{
    match words {
        [name, path, _word, _after @ ..] => is_check(name) && !is_rust(path) && !is_end(path),
        _ => false,
    }
}

/// Whether the words are a check that refuses names, and more.
fn are_check_rust_more(words: &[Text]) -> bool
    ensures { IsTrue result ↔ CheckRustMore words.now }
{
    match words {
        [name, rust, path, _word, _after @ ..] => {
            is_check(name) && is_rust(rust) && !is_end(path)
        }
        _ => false,
    }
}

/// Whether the words are a check of a file after `--`, and more.
fn are_check_end_more(words: &[Text]) -> bool
    ensures { IsTrue result ↔ CheckEndMore words.now }
{
    match words {
        [name, end, _path, _word, _after @ ..] => is_check(name) && is_end(end),
        _ => false,
    }
}

/// Whether the words are a check that refuses names of a file after `--`, and more.
fn are_check_rust_end_more(words: &[Text]) -> bool
    ensures { IsTrue result ↔ CheckRustEndMore words.now }
{
    match words {
        [name, rust, end, _path, _word, _after @ ..] => {
            is_check(name) && is_rust(rust) && is_end(end)
        }
        _ => false,
    }
}

/// Whether the words are such a check of a file that is named before, and more.
fn are_rust_more(words: &[Text]) -> bool
    ensures { IsTrue result ↔ RustMore words.now }
{
    match words {
        [name, rust, _word, _after @ ..] => is_check(name) && is_rust(rust),
        _ => false,
    }
}

fn are_version_more(words: &[Text]) -> bool
    ensures { IsTrue result ↔ VersionMore words.now }
{
    match words {
        [name, option, version, _word, _after @ ..] => {
            are_for_version(name, option) && is_version(version)
        }
        _ => false,
    }
}

/// Whether the words are `verify --why`, and more.
fn are_why_more(words: &[Text]) -> bool
    ensures { IsTrue result ↔ WhyMore words.now }
{
    match words {
        [name, why, _word, _after @ ..] => is_verify(name) && is_why(why),
        _ => false,
    }
}

/// Whether the words are `tables --version` and no version, if there are at least three.
fn no_version_after(
    words: &[Text],
    name: &Text,
    option: &Text,
    version: &Text,
    after: &[Text],
) -> bool
    requires { words.now ≡ name.now ∷ (option.now ∷ (version.now ∷ after.now)) }
    ensures { IsTrue result ↔ NameNoVersion words.now }
{
    if is_version(version) {
        return false;
    }
    are_for_version(name, option)
}

/// Whether the words are `tables --version` and no version.
fn name_no_version(words: &[Text]) -> bool
    ensures { IsTrue result ↔ NameNoVersion words.now }
{
    match words {
        [name, option, version, after @ ..] => {
            no_version_after(words, name, option, version, after)
        }
        _ => false,
    }
}

fn begin_with_asm(words: &[Text]) -> bool
    ensures { IsTrue result ↔ BeginWithAsm words.now }
{
    match words {
        [name, _after @ ..] => is_asm(name),
        _ => false,
    }
}

fn is_file_missing(over: &Over<'_>) -> bool
    ensures { IsTrue result ↔ IsFileMissing over.now }
{
    match over {
        Over::Shared(words) => miss_file(words),
        Over::File(_, _) => false,
    }
}

/// The place of the first word that is too many after a check or tables in a version.
fn too_many(over: &Over<'_>) -> Option<usize>
    ensures some { IfSome result (IsTooMany over.now) }
    ensures none { IfNone result ((place : ℕ) → ¬ IsTooMany over.now place) }
{
    match over {
        Over::Shared(words) => {
            if are_check_more(words) {
                return Some(2);
            }
            if are_check_rust_more(words) || are_check_end_more(words) || are_version_more(words) {
                return Some(3);
            }
            are_check_rust_end_more(words).then_some(4)
        }
        Over::File(_, words) => {
            if are_rust_more(words) {
                return Some(2);
            }
            are_version_more(words).then_some(3)
        }
    }
}

impl Wrong {
    /// What is wrong with words that ask nothing over the shared declarations or a file. It is `None` if the list of commands says what is
    /// wrong.
    #[tactic(auto, using(crate::proofs::NotWrong::not_wrong))]
    pub fn of(over: &Over<'_>) -> Option<Wrong>
        ensures some { IfSome result (IsWrong over.now) }
        ensures none { IfNone result ((wrong : spec.Wrong) → ¬ IsWrong over.now wrong) }
    {
        if is_file_missing(over) {
            return Some(Wrong::FileMissing);
        }
        if let Some(place) = too_many(over) {
            return Some(Wrong::WordTooMany(place));
        }
        let words = over.asked();
        if are_why_more(words) {
            return Some(Wrong::WordTooMany(2));
        }
        if name_no_version(words) {
            return Some(Wrong::NoVersion);
        }
        begin_with_asm(words).then_some(Wrong::NoForm)
    }
}

fn word_at(words: &[Text], place: usize) -> &Text
    requires { place < length words.now }
    ensures { slice_get words.now place ≡ Some result.now }
{
    &words[place]
}

/// The line that a file is missing for the first word.
fn file_missing(alloc: Global, words: &[Text]) -> Result<String, AllocError>
    requires { MissFile words.now }
    ensures plain { IfOk result (λ line. IsPlain (string_bytes line)) }
    ensures line { IfOk result (λ line. SaysFileMissing words.now (string_bytes line)) }
{
    let name = word_at(words, 0);
    let name = name.as_str();
    format!(in alloc; "a file is missing for '{name}'")
}

fn both(alloc: Global, name: &Text, word: &Text) -> Result<Vec<Text>, AllocError>
    ensures { IfOk result (λ words. words.items ≡ name.now ∷ (word.now ∷ [])) }
{
    let mut words = Vec::new(alloc);
    words.push(name.copy(alloc)?)?;
    words.push(word.copy(alloc)?)?;
    Ok(words)
}

fn usage_of_both(
    alloc: Global,
    commands: &'static [CommandForm],
    name: &Text,
    word: &Text,
) -> Result<String, AllocError>
    requires { AreTaken commands.now (name.now ∷ (word.now ∷ [])) → ⊥ }
    ensures plain { ArePlainlyNamed commands.now → IfOk result (λ line. IsPlain (string_bytes line)) }
    ensures line { IfOk result (λ line. IsUsageLine commands.now (name.now ∷ (word.now ∷ [])) (string_bytes line)) }
{
    let words = both(alloc, name, word)?;
    usage_line(alloc, commands, &words)
}

/// The line that the word at this place is too many.
fn word_too_many(
    alloc: Global,
    commands: &'static [CommandForm],
    over: &Over<'_>,
    words: &[Text],
    place: usize,
) -> Result<String, AllocError>
    requires listed { AskWhatIsListed commands.now }
    requires words { words.now ≡ asked_of over.now }
    requires place { IsWordTooMany over.now place }
    ensures plain { ArePlainlyNamed commands.now → IfOk result (λ line. IsPlain (string_bytes line)) }
    ensures line { IfOk result (λ line. SaysTooMany commands.now words.now place (string_bytes line)) }
{
    let name = word_at(words, 0);
    let word = word_at(words, place);
    usage_of_both(alloc, commands, name, word)
}

fn said(
    alloc: Global,
    commands: &'static [CommandForm],
    over: &Over<'_>,
    wrong: Option<Wrong>,
) -> Result<String, AllocError>
    requires listed { AskWhatIsListed commands.now }
    requires wrong { IsWrongIfAny over.now wrong }
    ensures plain { ArePlainlyNamed commands.now → IfOk result (λ line. IsPlain (string_bytes line)) }
    ensures line { (AskSomething (asked_of over.now) → ⊥)
        → IfOk result (λ line. Says commands.now (asked_of over.now) wrong (string_bytes line)) }
{
    let words = over.asked();
    match wrong {
        Some(Wrong::FileMissing) => file_missing(alloc, words),
        Some(Wrong::WordTooMany(place)) => word_too_many(alloc, commands, over, words, place),
        Some(Wrong::NoVersion) => {
            String::from_str(alloc, "the versions of 'tables' are 1, 2 and 3")
        }
        Some(Wrong::NoForm) => String::from_str(
            alloc,
            "the forms of 'asm' are short and explicit, each alone or with --why after it",
        ),
        None => usage_line(alloc, commands, words),
    }
}

/// What is wrong with words that ask nothing over the shared declarations or a file, in one line, without its line feed. `commands` are the
/// commands, as `listed_tools` lists them, and `wrong` is what `Plan::of` or `Wrong::of` found. If the names of the commands are plain, each
/// byte of the line is plain.
pub fn wrong_line(
    alloc: Global,
    commands: &'static [CommandForm],
    over: &Over<'_>,
    wrong: Option<Wrong>,
) -> Result<String, AllocError>
    requires listed { AskWhatIsListed commands.now }
    requires wrong { IsWrongIfAny over.now wrong }
    ensures plain { ArePlainlyNamed commands.now → IfOk result (λ line. IsPlain (string_bytes line)) }
    ensures line { (AskSomething (asked_of over.now) → ⊥)
        → IfOk result (λ line. IsWrongLine commands.now over.now (string_bytes line)) }
{
    said(alloc, commands, over, wrong)
}
