//! Answers the lines of standard input by the shared settings.
#![tactic(auto)]

use meta_command_line::{Manual, Program, start};
use meta_flags::flags;
use meta_run::Ending;
use meta_shared::define;
use meta_text::{Sink, Source};
use meta_types::Text;
use std::alloc::Global;
use std::process::ExitCode;

const HELP: &str = "\
Sets and tells the shared settings of Cranelift by name, as `ciderlater flags` does.

Usage: flags < FILE    the answer to each line of standard input

Options:
  -h, --help     prints this
  -V, --version  prints the version

Status: 0 done, 1 declarations refused, 2 usage, 3 read fault, 4 write fault, 5 out of memory, 6 input too long";

const MANUAL: Manual = Manual {
    name: "flags",
    version: "0.1.0",
    help: HELP,
    commands: &[],
};

/// Answers the lines by the settings of the shared declarations.
#[derive(Clone, Copy)]
struct Shared;

impl Program for Shared {
    fn run<S: Source, K: Sink>(
        &self,
        alloc: Global,
        words: &[Text],
        source: &mut S,
        sink: &mut K,
    ) -> Ending {
        match define(alloc) {
            Ok(declarations) => flags(alloc, words, &declarations, source, sink),
            Err(_) => Ending::OutOfMemory,
        }
    }
}

fn main(rt: HostRuntime) -> ExitCode {
    start(&rt, &MANUAL, &Shared)
}
