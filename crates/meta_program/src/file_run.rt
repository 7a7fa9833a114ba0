ghost use Rattle.std.specs.Prelude.{◌≡◌, ◌≢◌, ◌≤◌, [], IfOk, string_bytes};
ghost use Rattle.meta_text.specs.Outside.{longest_input, GaveAtMost};
ghost use Rattle.meta_build.specs.AllDeclared.{AreValid};
ghost use Rattle.meta_run.specs.declared.ending.Ending.TheVariants.{OutOfMemory};
ghost use Rattle.meta_program.specs.Tool.{AreToolWords};
ghost use Rattle.meta_program.specs.File.{Declares};
ghost use Rattle.meta_program.specs.FileRun.{file_code, DidText, DidFile, AnswersFile, RunsFile};
ghost use Rattle.meta_program.specs.ShownPath.{shown_path};
ghost use Rattle.meta_program.specs.Trouble.{trouble_of, trouble_text};
ghost use Rattle.meta_program.specs.Checked.{DidCheckText, DidCheck};
ghost use Rattle.meta_program.specs.CheckAnswers.{AnswersCheck, RunsCheck};
ghost use Rattle.meta_program.specs.declared.file_run.FileEnding.TheVariants.{Ran, FileFault, FileTooLong};

use super::laws::{a_text_declares_one_thing, one_tool};
use super::loading::{LoadError, load};
use super::paths::shown_path;
use super::plan::Names;
use super::told::names_told;
use super::tool::{Tool, run_check};
use meta_build::{Declarations, one_first_fault};
use meta_file_syntax::Bytes;
use meta_run::{Ending, run_answerer};
use meta_text::{ReadError, Sink, Source, read_whole};
use meta_types::Text;
use std::alloc::{AllocError, Global};
use std::io::ErrorKind;

/// How a run over the declarations of a file, or a check of it, ended.
#[derive(Drop)]
pub enum FileEnding {
    /// The words ask nothing, or memory ran out, or the file makes valid declarations and the run over them ended so.
    Ran(Ending),
    /// The file is refused for its names, which a check of it does.
    NamesRefused,
    /// The file is refused. The message says why: `PATH:LINE: WHY`, without a line feed.
    Refused(Bytes),
    /// The file can't be read.
    FileFault,
    /// The file has more than 1,048,576 bytes.
    FileTooLong,
}

impl FileEnding {
    /// The exit status of the process: that of `Ending::code`; 1 if the file or its names are refused, 6 if it is too long, and 8 if it
    /// can't be read.
    pub fn code(&self) -> u8
        ensures { result ≡ file_code self.now }
    {
        match self {
            FileEnding::Ran(ending) => ending.code(),
            FileEnding::NamesRefused | FileEnding::Refused(_) => Ending::Refused.code(),
            FileEnding::FileFault => 8,
            FileEnding::FileTooLong => Ending::TooLong.code(),
        }
    }
}

/// Why a file wasn't read whole.
#[derive(Clone, Copy, Debug, PartialEq, Eq)]
pub enum FileTrouble {
    /// There is no such file.
    Missing,
    /// The file may not be read.
    Forbidden,
    /// It is a folder.
    Folder,
    /// The file can't be read, for another reason.
    Unread,
    /// The file has more than 1,048,576 bytes.
    TooLong,
}

impl FileTrouble {
    /// Why a file can't be opened, by the kind of the system's error.
    pub fn of_open(kind: ErrorKind) -> FileTrouble
        ensures missing { kind ≡ ErrorKind.NotFound → result ≡ FileTrouble.Missing }
        ensures forbidden { kind ≡ ErrorKind.PermissionDenied → result ≡ FileTrouble.Forbidden }
        ensures other { kind ≢ ErrorKind.NotFound → kind ≢ ErrorKind.PermissionDenied → result ≡ FileTrouble.Unread }
    {
        match kind {
            ErrorKind::NotFound => FileTrouble::Missing,
            ErrorKind::PermissionDenied => FileTrouble::Forbidden,
            _ => FileTrouble::Unread,
        }
    }

    /// Why the file wasn't read whole, if a run over it or a check of it ended for that. `None` for any other ending.
    pub fn of(ending: &FileEnding) -> Option<FileTrouble>
        ensures { result ≡ trouble_of ending.now }
    {
        match ending {
            FileEnding::Ran(_) | FileEnding::NamesRefused | FileEnding::Refused(_) => None,
            FileEnding::FileFault => Some(FileTrouble::Unread),
            FileEnding::FileTooLong => Some(FileTrouble::TooLong),
        }
    }

    /// The line on it: the path, as `shown_path` shows it, and why.
    pub fn line(self, alloc: Global, path: &str) -> Result<String, AllocError>
        ensures { IfOk result (λ line. string_bytes line ≡ trouble_text self (shown_path path.now)) }
    {
        let shown = shown_path(alloc, path)?;
        self.line_after(alloc, &shown)
    }

    /// The line on it after this path, as it is shown.
    fn line_after(self, alloc: Global, path: &str) -> Result<String, AllocError>
        ensures { IfOk result (λ line. string_bytes line ≡ trouble_text self path.now) }
    {
        match self {
            FileTrouble::Missing => format!(in alloc; "{path} is missing"),
            FileTrouble::Forbidden => format!(in alloc; "{path} may not be read"),
            FileTrouble::Folder => format!(in alloc; "{path} is a folder"),
            FileTrouble::Unread => format!(in alloc; "{path} could not be read"),
            FileTrouble::TooLong => format!(in alloc; "{path} is longer than 1048576 bytes"),
        }
    }
}

fn run_over<S: Source, K: Sink>(
    alloc: Global,
    tool: Tool,
    path: &str,
    text: &[u8],
    source: &mut S,
    sink: &mut K,
) -> FileEnding
    ensures { DidText S.left S.faults K.taken K.faults (λ asked. asked ≡ tool) path.now text.now source.old source.new
        sink.old sink.new result }
{
    match load(alloc, path, text) {
        Ok(declarations) => {
            FileEnding::Ran(run_answerer(alloc, &tool, &declarations, source, sink))
        }
        Err(LoadError::Refused(message)) => FileEnding::Refused(message),
        Err(LoadError::Memory) => FileEnding::Ran(Ending::OutOfMemory),
    }
}

fn run_read<F: Source, S: Source, K: Sink>(
    alloc: Global,
    tool: Tool,
    path: &str,
    file: &mut F,
    source: &mut S,
    sink: &mut K,
) -> FileEnding
    ensures did { DidFile F.left F.faults S.left S.faults K.taken K.faults (λ asked. asked ≡ tool) path.now file.old file.new
        source.old source.new sink.old sink.new result }
    ensures file_within { result ≢ FileTooLong → GaveAtMost longest_input (F.left file.old) (F.left file.new) }
    ensures file_else_no_fault { result ≢ FileFault → F.faults file.new ≡ F.faults file.old }
    ensures file_counted { F.faults file.old ≤ F.faults file.new }
{
    match read_whole(alloc, file) {
        Ok(text) => run_over(alloc, tool, path, &text, source, sink),
        Err(ReadError::ReadFault) => FileEnding::FileFault,
        Err(ReadError::TooLong) => FileEnding::FileTooLong,
        Err(ReadError::OutOfMemory) => FileEnding::Ran(Ending::OutOfMemory),
    }
}

/// Runs a tool over the declarations that a file makes. The path is for messages alone.
///
/// The order is: the whole file; its items and declarations, which are refused by what is wrong first, in the order of `load`; then the run
/// of the tool. `OutOfMemory` may come in any case.
pub fn run_tool<F: Source, S: Source, K: Sink>(
    alloc: Global,
    tool: Tool,
    path: &str,
    file: &mut F,
    source: &mut S,
    sink: &mut K,
) -> FileEnding
    // What was read and written, by how the run ended, and what is done where nothing fails. Each field is a fact of the call.
    ensures runs { RunsFile F.left F.faults S.left S.faults K.taken K.faults (λ asked. asked ≡ tool) path.now file.old file.new
        source.old source.new sink.old sink.new result }
{
    one_first_fault();
    a_text_declares_one_thing();
    run_read(alloc, tool, path, file, source, sink)
}

/// Reads the file if the words ask something, and runs that over what it declares.
fn attempt<F: Source, S: Source, K: Sink>(
    alloc: Global,
    words: &[Text],
    path: &str,
    file: &mut F,
    source: &mut S,
    sink: &mut K,
) -> FileEnding
    ensures did { DidFile F.left F.faults S.left S.faults K.taken K.faults (λ tool. AreToolWords tool words.now) path.now
        file.old file.new source.old source.new sink.old sink.new result }
    ensures file_within { result ≢ FileTooLong → GaveAtMost longest_input (F.left file.old) (F.left file.new) }
    ensures file_else_no_fault { result ≢ FileFault → F.faults file.new ≡ F.faults file.old }
    ensures file_counted { F.faults file.old ≤ F.faults file.new }
{
    match Tool::parse(words) {
        Some(tool) => run_read(alloc, tool, path, file, source, sink),
        None => FileEnding::Ran(Ending::Usage),
    }
}

/// Runs what the words ask over the declarations that a file makes. The path is for messages alone.
///
/// The order is: the words; then that of `run_tool`. `OutOfMemory` may come in any case but `Usage`.
pub fn run_file<F: Source, S: Source, K: Sink>(
    alloc: Global,
    words: &[Text],
    path: &str,
    file: &mut F,
    source: &mut S,
    sink: &mut K,
) -> FileEnding
    // If a file makes valid declarations, the words are answered over them.
    ensures headline { AnswersFile F.left F.faults S.left S.faults K.taken K.faults (λ tool. AreToolWords tool words.now) path.now
        file.old file.new source.old source.new sink.old sink.new result }

    // What was read and written, by how the run ended, and what is done where nothing fails. Each field is a fact of the call.
    ensures runs { RunsFile F.left F.faults S.left S.faults K.taken K.faults (λ tool. AreToolWords tool words.now) path.now
        file.old file.new source.old source.new sink.old sink.new result }
{
    one_first_fault();
    one_tool();
    a_text_declares_one_thing();
    attempt(alloc, words, path, file, source, sink)
}

/// How a check of a file ended, and what it found. Each message is `PATH:LINE: WHY`, without a line feed.
#[derive(Drop)]
pub struct Checked {
    /// How the check ended.
    pub ending: FileEnding,
    /// A message for each name that Rust refuses. If the file isn't read whole or is refused by `Refused`, there are none.
    pub names: Vec<Bytes>,
}

impl Checked {
    fn without_names(alloc: Global, ending: FileEnding) -> Checked
        ensures ending { result.ending ≡ ending }
        ensures names { result.names.items ≡ [] }
    {
        Checked {
            ending,
            names: Vec::new(alloc),
        }
    }

    fn out_of_memory(alloc: Global) -> Checked
        ensures ending { result.ending ≡ Ran OutOfMemory }
        ensures names { result.names.items ≡ [] }
    {
        Checked::without_names(alloc, FileEnding::Ran(Ending::OutOfMemory))
    }
}

/// Checks valid declarations that a text makes: counts them, unless their names have the file refused.
fn check_declared<S: Source, K: Sink>(
    alloc: Global,
    path: &str,
    names: Names,
    text: &[u8],
    declarations: &Declarations,
    source: &mut S,
    sink: &mut K,
) -> Checked
    requires declares { Declares text.now declarations.now }
    requires valid { AreValid declarations.now }
    ensures { DidCheckText S.left S.faults K.taken K.faults path.now names text.now source.old source.new sink.old sink.new
        result.ending result.names.items }
{
    let Ok(messages) = names_told(alloc, path, names, text, declarations) else {
        return Checked::out_of_memory(alloc);
    };
    if names.are_refused() && !messages.is_empty() {
        return Checked {
            ending: FileEnding::NamesRefused,
            names: messages,
        };
    }
    let ending = run_check(alloc, declarations, source, sink);
    Checked {
        ending: FileEnding::Ran(ending),
        names: messages,
    }
}

fn check_text<S: Source, K: Sink>(
    alloc: Global,
    path: &str,
    names: Names,
    text: &[u8],
    source: &mut S,
    sink: &mut K,
) -> Checked
    ensures { DidCheckText S.left S.faults K.taken K.faults path.now names text.now source.old source.new sink.old sink.new
        result.ending result.names.items }
{
    match load(alloc, path, text) {
        Ok(declarations) => check_declared(alloc, path, names, text, &declarations, source, sink),
        Err(LoadError::Refused(message)) => {
            Checked::without_names(alloc, FileEnding::Refused(message))
        }
        Err(LoadError::Memory) => Checked::out_of_memory(alloc),
    }
}

fn check_read<F: Source, S: Source, K: Sink>(
    alloc: Global,
    path: &str,
    names: Names,
    file: &mut F,
    source: &mut S,
    sink: &mut K,
) -> Checked
    ensures did { DidCheck F.left F.faults S.left S.faults K.taken K.faults path.now names file.old file.new
        source.old source.new sink.old sink.new result.ending result.names.items }
    ensures file_within { result.ending ≢ FileTooLong → GaveAtMost longest_input (F.left file.old) (F.left file.new) }
    ensures file_else_no_fault { result.ending ≢ FileFault → F.faults file.new ≡ F.faults file.old }
    ensures file_counted { F.faults file.old ≤ F.faults file.new }
{
    match read_whole(alloc, file) {
        Ok(text) => check_text(alloc, path, names, &text, source, sink),
        Err(ReadError::ReadFault) => Checked::without_names(alloc, FileEnding::FileFault),
        Err(ReadError::TooLong) => Checked::without_names(alloc, FileEnding::FileTooLong),
        Err(ReadError::OutOfMemory) => Checked::out_of_memory(alloc),
    }
}

/// Reads a file, and counts what it declares, as `run_file` does for `check`. There is a message for each name that Rust refuses. If these
/// names are to be refused and there are some, nothing is written. The path is for messages alone, and the source isn't read.
///
/// The order is: the whole file; its items and declarations, which are refused by what is wrong first, in the order of `load`; its names;
/// the count, which is written. Memory may run out at any point. `FileTooLong` comes exactly if the file gave more than 1,048,576 bytes.
pub fn check_file<F: Source, S: Source, K: Sink>(
    alloc: Global,
    path: &str,
    names: Names,
    file: &mut F,
    source: &mut S,
    sink: &mut K,
) -> Checked
    // If a file makes valid declarations, they are counted, and there is a message for each name that Rust refuses. If that is asked, the
    // file is refused for these names.
    ensures headline { AnswersCheck F.left F.faults S.left S.faults K.taken K.faults path.now names file.old file.new
        source.old source.new sink.old sink.new result.ending result.names.items }

    // What was read and written, and which messages there are, by how the check ended, and what is done where nothing fails. Each field is
    // a fact of the call.
    ensures runs { RunsCheck F.left F.faults S.left S.faults K.taken K.faults path.now names file.old file.new
        source.old source.new sink.old sink.new result.ending result.names.items }
{
    one_first_fault();
    a_text_declares_one_thing();
    check_read(alloc, path, names, file, source, sink)
}
