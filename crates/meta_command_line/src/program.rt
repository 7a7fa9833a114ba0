ghost use Rattle.std.specs.Prelude.{◌≡◌, ◌⊎◌, IfErr};
ghost use Rattle.meta_command_line.specs.OwnAnswer.{IsOwnAnswer, WasPrinted};
ghost use Rattle.meta_run.specs.declared.ending.Ending.TheVariants.{OutOfMemory, Usage};

use super::asked::Asked;
use super::manual::Manual;
use super::telling::about;
use super::usage::usage_line;
use meta_run::Ending;
use meta_text::{Sink, Source, StdSink, StdSource};
use meta_types::Text;
use std::alloc::Global;
use std::io::{self, ErrorKind};
use std::process::ExitCode;

/// What a program does.
pub trait Program {
    /// Does what the words ask for: reads its input from the source, and writes its answer, and nothing else, to the sink. `Usage` means
    /// that the words are no command.
    fn run<S: Source, K: Sink>(
        &self,
        alloc: Global,
        words: &[Text],
        source: &mut S,
        sink: &mut K,
    ) -> Ending;
}

/// The words after the program's name. `OutOfMemory` means that memory ran out, and `Usage` that a word isn't text.
pub fn words(rt: &HostRuntime) -> Result<Vec<Text>, Ending>
    ensures had_or_told { IfErr result (λ ending. (ending ≡ OutOfMemory) ⊎ (ending ≡ Usage)) }
{
    let alloc = rt.alloc();
    let args = match std::env::args(rt) {
        Ok(args) => args,
        Err(error) => match error.kind() {
            ErrorKind::OutOfMemory => return Err(Ending::OutOfMemory),
            _ => return Err(Ending::Usage),
        },
    };
    let mut words = Vec::new(alloc);
    for arg in args.skip(1) {
        let word = Text::new(alloc, arg.as_str()).map_err(|_| Ending::OutOfMemory)?;
        words.push(word).map_err(|_| Ending::OutOfMemory)?;
    }
    Ok(words)
}

fn printed(outcome: io::Result<()>) -> Ending
    ensures { WasPrinted result }
{
    match outcome {
        Ok(()) => Ending::Done,
        Err(_) => Ending::WriteFault,
    }
}

/// Prints the help on standard output, and answers how that ended: `Done`, or `WriteFault`.
pub fn print_help(rt: &HostRuntime, manual: &Manual) -> Ending
    ensures { WasPrinted result }
{
    let help = manual.help;
    printed(println!(rt; "{help}"))
}

/// Prints the name of the program and its version in one line, and answers how that ended: `Done`, or `WriteFault`.
pub fn print_version(rt: &HostRuntime, manual: &Manual) -> Ending
    ensures { WasPrinted result }
{
    let (name, version) = (manual.name, manual.version);
    printed(println!(rt; "{name} {version}"))
}

/// Prints the help or the version, if the words ask for it, and answers how that ended: `Done`, or `WriteFault`.
pub fn answer_of_itself(rt: &HostRuntime, manual: &Manual, words: &[Text]) -> Option<Ending>
    ensures asked { IsOwnAnswer words.now result }
{
    match Asked::of(words) {
        Asked::Help => Some(print_help(rt, manual)),
        Asked::Version => Some(print_version(rt, manual)),
        Asked::Work => None,
    }
}

/// Says a line on standard error, after the name of the program. If standard error fails, nothing else tells it.
pub fn tell_line(rt: &HostRuntime, manual: &Manual, line: &str) {
    let name = manual.name;
    let _ = eprintln!(rt; "{name}: {line}");
}

/// Says in one line on standard error why an ending isn't `Done`. If standard error fails too, the exit status still says it.
pub fn tell(rt: &HostRuntime, manual: &Manual, ending: Ending) {
    if let Some(about) = about(ending) {
        tell_line(rt, manual, about);
    }
}

/// Says in one line on standard error which word is wrong, and which commands there are if the first word is none. The words are no command.
pub fn tell_wrong(rt: &HostRuntime, manual: &Manual, words: &[Text]) {
    match usage_line(rt.alloc(), manual.commands, words) {
        Ok(line) => tell_line(rt, manual, &line),
        Err(_) => tell(rt, manual, Ending::Usage),
    }
}

/// Does what the words ask for, and says why if the ending isn't `Done`.
fn run<P: Program>(rt: &HostRuntime, manual: &Manual, program: &P, words: &[Text]) -> Ending {
    let ending = match answer_of_itself(rt, manual, words) {
        Some(ending) => ending,
        None => {
            let mut source = StdSource::new(rt.reader());
            let mut sink = StdSink::new(io::writer(rt));
            program.run(rt.alloc(), words, &mut source, &mut sink)
        }
    };
    match ending {
        Ending::Usage => tell_wrong(rt, manual, words),
        _ => tell(rt, manual, ending),
    }
    ending
}

/// Runs a program as a process. `--help`, `-h`, `help` alone, `--version` and `-V` are answered from the manual, and all other words are
/// handed to the program. Standard output has answers alone. If the ending isn't `Done`, one line on standard error says why; if the words
/// are no command, it names the wrong word. The exit status is that of the ending.
pub fn start<P: Program>(rt: &HostRuntime, manual: &Manual, program: &P) -> ExitCode {
    let ending = match words(rt) {
        Ok(words) => run(rt, manual, program, &words),
        Err(ending) => {
            tell(rt, manual, ending);
            ending
        }
    };
    ExitCode::from(ending.code())
}
