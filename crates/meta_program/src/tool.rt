ghost use Rattle.std.specs.Prelude.{◌≡◌, ◌≢◌, ◌↔◌, ◌∷◌, [], codes, false, IfSome, IfNone, IsTrue};
ghost use Rattle.std.specs.Option.{option_copied};
ghost use Rattle.meta_run.specs.Run.{never_rejecting, Ran, IsRun, Runs};
ghost use Rattle.meta_asm.specs.declared.form.Form as spec_form;
ghost use Rattle.meta_table_text.specs.declared.version.Version as spec_version;
ghost use Rattle.meta_program.specs.TablesIn.{version_word, version_words};
ghost use Rattle.meta_program.specs.Telling.{rejection_text, about};
ghost use Rattle.meta_program.specs.Tool.{AreToolWords, lone_name, why_word, why_words, asm_words, reads_input, says_counts, texts_of};
ghost use Rattle.meta_program.specs.declared.tool.Tool as spec;
ghost use Rattle.meta_program.specs.declared.tool.Lone as spec_lone;
ghost use Rattle.meta_program.specs.declared.tool.Why as spec_why;

use super::laws::one_tool;
use super::plan::are_for_version;
use super::written::{counted, described, shown_in};
use meta_asm::{ExplainedForm, Form};
use meta_audit::Auditor;
use meta_build::{Built, Declarations, one_first_fault};
use meta_flags::Service;
use meta_query::Command;
use meta_query_lines::Explainer;
use meta_run::{Answer, Answerer, Ending, run_answerer};
use meta_table_text::Version;
use meta_text::{Sink, Source};
use meta_types::Text;
use meta_verify::{Explaining, Verifier};
use std::alloc::{AllocError, Global};

/// What is said of a line of a list that is refused.
#[derive(Clone, Copy, Debug, PartialEq, Eq)]
pub enum Why {
    /// That it is refused.
    Untold,
    /// With `--why`: also which part is the first that fails, what it has, and exactly what it has to be.
    Told,
}

/// What can be asked over declarations.
#[derive(Clone, Copy)]
pub enum Tool {
    /// A command of `run`.
    Run(Command),
    /// `tables --version N`: the text of the tables in a version, if they fit it.
    TablesIn(Version),
    /// `explain`: to answer each line, and to say why types are refused.
    Explain,
    /// `verify`: to check a list of typed lines.
    Verify(Why),
    /// `asm short` and `asm explicit`: to write such a list without types that follow from others, and back.
    Asm(Form, Why),
    /// `flags`: to set and get settings by name.
    Flags,
    /// `audit`: to say whether tables mean what is declared.
    Audit,
    /// `check`: whether the declarations are valid, and how much of each kind there is.
    Check,
    /// `describe`: the declarations as the text of a file.
    Describe,
}

fn version_named(number: &[u8]) -> Option<Version>
    ensures some { IfSome result (λ v. number.now ≡ version_word v) }
    ensures none { IfNone result ((v : spec_version.Version) → number.now ≢ version_word v) }
{
    if number == b"1".as_slice() {
        return Some(Version::One);
    }
    if number == b"2".as_slice() {
        return Some(Version::Two);
    }
    if number == b"3".as_slice() {
        return Some(Version::Three);
    }
    None
}

fn version_of_three(words: &[Text], name: &Text, option: &Text, number: &Text) -> Option<Version>
    requires { words.now ≡ name.now ∷ (option.now ∷ (number.now ∷ [])) }
    ensures some { IfSome result (λ v. words.now ≡ codes "tables" ∷ version_words v) }
    ensures none { IfNone result ((v : spec_version.Version) → words.now ≢ codes "tables" ∷ version_words v) }
{
    if are_for_version(name, option) {
        return version_named(number.as_bytes());
    }
    None
}

/// The version of the text of tables that the words ask for: `tables --version` and its number.
pub(crate) fn version_asked(words: &[Text]) -> Option<Version>
    ensures some { IfSome result (λ v. words.now ≡ codes "tables" ∷ version_words v) }
    ensures none { IfNone result ((v : spec_version.Version) → words.now ≢ codes "tables" ∷ version_words v) }
{
    match words {
        [name, option, number] => version_of_three(words, name, option, number),
        _ => None,
    }
}

/// A tool whose words are its name alone.
#[derive(Clone, Copy)]
enum Lone {
    Explain,
    Flags,
    Audit,
    Check,
    Describe,
}

fn lone_named(name: &[u8]) -> Option<Lone>
    ensures some { IfSome result (λ l. name.now ≡ lone_name l) }
    ensures none { IfNone result ((l : spec_lone.Lone) → name.now ≢ lone_name l) }
{
    if name == b"explain".as_slice() {
        return Some(Lone::Explain);
    }
    if name == b"flags".as_slice() {
        return Some(Lone::Flags);
    }
    if name == b"audit".as_slice() {
        return Some(Lone::Audit);
    }
    if name == b"check".as_slice() {
        return Some(Lone::Check);
    }
    if name == b"describe".as_slice() {
        return Some(Lone::Describe);
    }
    None
}

fn alone(words: &[Text]) -> Option<Lone>
    ensures some { IfSome result (λ l. words.now ≡ lone_name l ∷ []) }
    ensures none { IfNone result ((l : spec_lone.Lone) → words.now ≢ lone_name l ∷ []) }
{
    match words {
        [name] => lone_named(name.as_bytes()),
        _ => None,
    }
}

/// Whether the word is `verify`.
pub(crate) fn is_verify(word: &Text) -> bool
    ensures { IsTrue result ↔ (word.now ≡ codes "verify") }
{
    word.as_bytes() == b"verify".as_slice()
}

/// Whether the word is `asm`.
pub fn is_asm(word: &Text) -> bool
    ensures { IsTrue result ↔ (word.now ≡ codes "asm") }
{
    word.as_bytes() == b"asm".as_slice()
}

/// Whether the word asks why a line is refused: `--why`.
pub fn is_why(word: &Text) -> bool
    ensures { IsTrue result ↔ (word.now ≡ why_word) }
{
    word.as_bytes() == b"--why".as_slice()
}

impl Why {
    /// What the words after `verify`, or after the form of `asm`, ask.
    fn asked(words: &[Text]) -> Option<Why>
        ensures some { IfSome result (λ why. words.now ≡ why_words why) }
        ensures none { IfNone result ((why : spec_why.Why) → words.now ≢ why_words why) }
    {
        match words {
            [] => Some(Why::Untold),
            [word] if is_why(word) => Some(Why::Told),
            _ => None,
        }
    }
}

/// What is said of a refused line, if the words ask for `verify`.
fn verify_asked(words: &[Text]) -> Option<Why>
    ensures some { IfSome result (λ why. words.now ≡ codes "verify" ∷ why_words why) }
    ensures none { IfNone result ((why : spec_why.Why) → words.now ≢ codes "verify" ∷ why_words why) }
{
    match words {
        [name, after @ ..] if is_verify(name) => Why::asked(after),
        _ => None,
    }
}

/// The form, and what is said of a refused line, if the words ask for `asm`.
#[tactic(auto, using(crate::proofs::OneTool::other_form, crate::proofs::OneTool::other_why))]
fn asm_asked(words: &[Text]) -> Option<(Form, Why)>
    ensures some { IfSome result (λ it. words.now ≡ asm_words it.0 it.1) }
    ensures none { IfNone result ((f : spec_form.Form) (why : spec_why.Why) → words.now ≢ asm_words f why) }
{
    match words {
        [name, word, after @ ..] if is_asm(name) => {
            let form = Form::named(word.as_bytes())?;
            let why = Why::asked(after)?;
            Some((form, why))
        }
        _ => None,
    }
}

fn tool_of(lone: Lone) -> Tool
    ensures { AreToolWords result (lone_name lone ∷ []) }
{
    match lone {
        Lone::Explain => Tool::Explain,
        Lone::Flags => Tool::Flags,
        Lone::Audit => Tool::Audit,
        Lone::Check => Tool::Check,
        Lone::Describe => Tool::Describe,
    }
}

impl Tool {
    /// What the words ask. It is `None` exactly if they ask nothing.
    #[tactic(auto, using(crate::proofs::OneTool::asks_none))]
    pub fn parse(words: &[Text]) -> Option<Tool>
        ensures some { IfSome result (λ tool. AreToolWords tool words.now) }
        ensures none { IfNone result ((tool : spec.Tool) → ¬ AreToolWords tool words.now) }
    {
        if let Some(command) = Command::parse(words) {
            return Some(Tool::Run(command));
        }
        if let Some(version) = version_asked(words) {
            return Some(Tool::TablesIn(version));
        }
        if let Some(why) = verify_asked(words) {
            return Some(Tool::Verify(why));
        }
        if let Some((form, why)) = asm_asked(words) {
            return Some(Tool::Asm(form, why));
        }
        match alone(words) {
            Some(lone) => Some(tool_of(lone)),
            None => None,
        }
    }
}

impl Answerer for Tool {
    ghost reads = { reads_input };

    ghost texts = { texts_of };

    /// Whether there is an input: `query`, `recheck`, `explain`, `verify`, `asm`, `flags` and `audit` have one.
    fn has_input(&self) -> bool {
        match self {
            Tool::Run(command) => command.has_input(),
            Tool::Explain | Tool::Verify(_) | Tool::Asm(..) | Tool::Flags | Tool::Audit => true,
            Tool::TablesIn(_) | Tool::Check | Tool::Describe => false,
        }
    }

    fn answer(&self, alloc: Global, built: &Built<'_>, input: &[u8]) -> Result<Answer, AllocError> {
        match self {
            Tool::Run(command) => command.answer(alloc, built, input),
            Tool::TablesIn(version) => shown_in(alloc, *version, built),
            Tool::Explain => Explainer.answer(alloc, built, input),
            Tool::Verify(Why::Untold) => Verifier.answer(alloc, built, input),
            Tool::Verify(Why::Told) => Explaining.answer(alloc, built, input),
            Tool::Asm(form, Why::Untold) => form.answer(alloc, built, input),
            Tool::Asm(form, Why::Told) => ExplainedForm { form: *form }.answer(alloc, built, input),
            Tool::Flags => Service.answer(alloc, built, input),
            Tool::Audit => Auditor.answer(alloc, built, input),
            Tool::Check => Ok(Answer {
                text: counted(alloc, built)?,
                is_rejection: false,
            }),
            Tool::Describe => described(alloc, built),
        }
    }
}

/// Says how much of each kind there is in declarations, as `run_words` does for `check`. Declarations with a fault are refused.
pub fn run_check<S: Source, K: Sink>(
    alloc: Global,
    declarations: &Declarations,
    source: &mut S,
    sink: &mut K,
) -> Ending
    ensures { Ran S.left S.faults K.taken K.faults declarations.now source.old source.new sink.old sink.new
        false (never_rejecting says_counts) result }
{
    run_answerer(alloc, &Tool::Check, declarations, source, sink)
}

fn attempt<S: Source, K: Sink>(
    alloc: Global,
    words: &[Text],
    declarations: &Declarations,
    source: &mut S,
    sink: &mut K,
) -> Ending
    ensures { IsRun S.left S.faults K.taken K.faults declarations.now source.old source.new sink.old sink.new
        (λ tool. AreToolWords tool words.now) reads_input texts_of result }
{
    match Tool::parse(words) {
        Some(tool) => run_answerer(alloc, &tool, declarations, source, sink),
        None => Ending::Usage,
    }
}

/// Runs what the words ask over declarations. `verify`, `asm`, `flags` and `audit` answer as the calls of these names do for the words
/// after them, but for `--why`, after which a refused line says why. `explain` answers the lines of `query` and more, and says why types
/// are refused. `check` says how much of each kind is declared, and `describe` writes a file that declares the same. All other words are
/// those of `run`.
///
/// The order is: the words; the declarations, which are refused by their first fault if they have one; the whole input, if there is one;
/// the whole answer, in memory; the writes. `OutOfMemory` may come in any case but `Usage`.
pub fn run_words<S: Source, K: Sink>(
    alloc: Global,
    words: &[Text],
    declarations: &Declarations,
    source: &mut S,
    sink: &mut K,
) -> Ending
    // What was read and written, by how the run ended, and what is done where nothing fails. Each field is a fact of the call.
    ensures runs { Runs S.left S.faults K.taken K.faults declarations.now source.old source.new sink.old sink.new
        (λ tool. AreToolWords tool words.now) reads_input texts_of result }
{
    one_first_fault();
    one_tool();
    attempt(alloc, words, declarations, source, sink)
}

fn rejection(tool: Tool) -> Option<&'static str>
    ensures { option_copied result ≡ rejection_text tool }
{
    match tool {
        Tool::TablesIn(_) => Some("the tables don't fit the version"),
        Tool::Describe => Some("no file of declarations says the same"),
        Tool::Run(_) => meta_command_line::about(Ending::Rejected),
        Tool::Explain => meta_command_line::about(Ending::Rejected),
        Tool::Verify(_) => meta_command_line::about(Ending::Rejected),
        Tool::Asm(..) => meta_command_line::about(Ending::Rejected),
        Tool::Flags => meta_command_line::about(Ending::Rejected),
        Tool::Audit => meta_command_line::about(Ending::Rejected),
        Tool::Check => meta_command_line::about(Ending::Rejected),
    }
}

/// Why the ending of a run of this tool isn't `Done`, for a person. `None` if it is.
pub fn about(tool: Tool, ending: Ending) -> Option<&'static str>
    ensures { option_copied result ≡ about tool ending }
{
    match ending {
        Ending::Rejected => rejection(tool),
        _ => meta_command_line::about(ending),
    }
}
