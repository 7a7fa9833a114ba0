// Answers commands over the shared declarations or those of a file.
#![tactic(auto)]

ghost use Rattle.std.specs.Prelude.{◌<ℤ◌, IfOk, pos};
ghost use Rattle.std.specs.Fd.{file_raw_fd};

mod manual;

use manual::MANUAL;
use meta_command_line::{print_help, print_version, tell, tell_line, words};
use meta_program::{
    Checked, FileEnding, FileTrouble, Names, Plan, Tool, about, check_file, listed_tools, run_tool,
    wrong_line,
};
use meta_run::{Ending, run_answerer};
use meta_shared::define;
use meta_text::{StdSink, StdSource};
use meta_types::Text;
use std::alloc::AllocError;
use std::fs::File;
use std::io::{self, ErrorKind, Read, Write};
use std::os::fd::AsRawFd;
use std::process::ExitCode;

/// The path of standard input in messages.
const INPUT: &str = "<stdin>";

/// Says a line that was made. If memory ran out for it, says what this ending is about.
fn tell_made(rt: &HostRuntime, line: Result<String, AllocError>, instead: Ending) {
    match line {
        Ok(line) => tell_line(rt, &MANUAL, &line),
        Err(_) => tell(rt, &MANUAL, instead),
    }
}

/// Says a message, which may have any bytes.
fn tell_message(rt: &HostRuntime, message: &[u8]) {
    let mut out = rt.stderr();
    if out.write_all(message).is_ok() {
        let _ = out.write_all(b"\n");
    }
}

/// Says what is wrong with words that ask nothing. The status is that of a usage error.
fn tell_wrong(rt: &HostRuntime, line: Result<String, AllocError>) -> u8 {
    tell_made(rt, line, Ending::Usage);
    Ending::Usage.code()
}

fn tell_ending(rt: &HostRuntime, tool: Tool, ending: Ending) {
    if let Some(about) = about(tool, ending) {
        tell_line(rt, &MANUAL, about);
    }
}

fn tell_trouble(rt: &HostRuntime, trouble: FileTrouble, path: &str) {
    tell_made(rt, trouble.line(rt.alloc(), path), Ending::OutOfMemory);
}

fn tell_file_ending(rt: &HostRuntime, tool: Tool, ending: &FileEnding, path: &str) {
    if let Some(trouble) = FileTrouble::of(ending) {
        tell_trouble(rt, trouble, path);
    }
    match ending {
        FileEnding::Ran(ending) => tell_ending(rt, tool, *ending),
        FileEnding::Refused(message) => tell_message(rt, message.as_slice()),
        FileEnding::NamesRefused | FileEnding::FileFault | FileEnding::FileTooLong => {}
    }
}

fn tell_check(rt: &HostRuntime, checked: &Checked, path: &str) {
    for message in &checked.names {
        tell_message(rt, message.as_slice());
    }
    tell_file_ending(rt, Tool::Check, &checked.ending, path);
}

/// The status of this ending, after saying why it isn't `Done`.
fn status_of(rt: &HostRuntime, ending: Ending) -> u8 {
    tell(rt, &MANUAL, ending);
    ending.code()
}

fn run_shared(rt: &HostRuntime, tool: Tool) -> Ending {
    let mut source = StdSource::new(rt.reader());
    let mut sink = StdSink::new(io::writer(rt));
    match define(rt.alloc()) {
        Ok(declarations) => run_answerer(rt.alloc(), &tool, &declarations, &mut source, &mut sink),
        Err(_) => Ending::OutOfMemory,
    }
}

/// Opens the file at a path to read it. If a standard stream is closed, the system gives the file its number, and the stream would read the
/// file. So the file then gets another number, and a read or write of the stream fails.
fn opened_apart(rt: &HostRuntime, path: &str) -> io::Result<File>
    ensures apart { IfOk result (λ file. pos 2 <ℤ file_raw_fd file) }
{
    let file = File::open(rt, path)?;
    if file.as_raw_fd() > 2 {
        return Ok(file);
    }
    let other = file.try_clone()?;
    if other.as_raw_fd() > 2 {
        return Ok(other);
    }
    Err(io::Error::from(ErrorKind::Other))
}

/// The file at a path, which isn't a folder.
fn opened(rt: &HostRuntime, path: &str) -> Result<File, FileTrouble>
    ensures apart { IfOk result (λ file. pos 2 <ℤ file_raw_fd file) }
{
    let file = match opened_apart(rt, path) {
        Ok(file) => file,
        Err(error) => return Err(FileTrouble::of_open(error.kind())),
    };
    match file.metadata() {
        Ok(found) if found.is_dir() => Err(FileTrouble::Folder),
        _ => Ok(file),
    }
}

fn run_over(rt: &HostRuntime, file: File, path: &str, tool: Tool) -> FileEnding {
    let mut file = StdSource::new(file);
    let mut source = StdSource::new(rt.reader());
    let mut sink = StdSink::new(io::writer(rt));
    run_tool(rt.alloc(), tool, path, &mut file, &mut source, &mut sink)
}

/// Checks what a reader gives, and says what is told of it, with this path. Names that Rust refuses are reported, or the file is refused for
/// them.
fn checked<R: Read>(rt: &HostRuntime, reader: R, path: &str, names: Names) -> u8
where
    R: Drop,
{
    let mut file = StdSource::new(reader);
    let mut source = StdSource::new(io::empty());
    let mut sink = StdSink::new(io::writer(rt));
    let checked = check_file(rt.alloc(), path, names, &mut file, &mut source, &mut sink);
    tell_check(rt, &checked, path);
    checked.ending.code()
}

fn answer_shared(rt: &HostRuntime, tool: Tool) -> u8 {
    let ending = run_shared(rt, tool);
    tell_ending(rt, tool, ending);
    ending.code()
}

/// The status if the file can't be opened, after saying why.
fn answer_unopened(rt: &HostRuntime, trouble: FileTrouble, path: &str) -> u8 {
    tell_trouble(rt, trouble, path);
    FileEnding::FileFault.code()
}

fn answer_over(rt: &HostRuntime, path: &str, tool: Tool) -> u8 {
    match opened(rt, path) {
        Ok(file) => {
            let ending = run_over(rt, file, path, tool);
            tell_file_ending(rt, tool, &ending, path);
            ending.code()
        }
        Err(trouble) => answer_unopened(rt, trouble, path),
    }
}

fn answer_check(rt: &HostRuntime, path: &str, names: Names) -> u8 {
    match opened(rt, path) {
        Ok(file) => checked(rt, file, path, names),
        Err(trouble) => answer_unopened(rt, trouble, path),
    }
}

/// Does what the words ask. The status is that of the ending.
fn run(rt: &HostRuntime, words: &[Text]) -> u8 {
    match Plan::of(words) {
        Plan::Help => status_of(rt, print_help(rt, &MANUAL)),
        Plan::Version => status_of(rt, print_version(rt, &MANUAL)),
        Plan::Shared(tool) => answer_shared(rt, tool),
        Plan::File(path, tool) => answer_over(rt, path, tool),
        Plan::Check(path, names) => answer_check(rt, path, names),
        Plan::CheckInput(names) => checked(rt, rt.reader(), INPUT, names),
        Plan::Nothing(over, wrong) => {
            let line = wrong_line(rt.alloc(), listed_tools(), &over, wrong);
            tell_wrong(rt, line)
        }
    }
}

fn main(rt: HostRuntime) -> ExitCode {
    let status = match words(&rt) {
        Ok(words) => run(&rt, &words),
        Err(ending) => status_of(&rt, ending),
    };
    ExitCode::from(status)
}
