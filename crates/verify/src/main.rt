//! Checks the list of typed lines in standard input over the shared declarations.
#![tactic(auto)]

use meta_command_line::{Manual, Program, start};
use meta_run::Ending;
use meta_shared::define;
use meta_text::{Sink, Source};
use meta_types::Text;
use meta_verify::verify;
use std::alloc::Global;
use std::process::ExitCode;

const HELP: &str = "\
Checks a list of typed lines over the shared instructions of Cranelift, as `ciderlater verify` does.

Usage: verify < FILE    ok, or which line is the first wrong one, and why

Options:
  -h, --help     prints this
  -V, --version  prints the version

Status: 0 done, 1 declarations refused, 2 usage, 3 read fault, 4 write fault, 5 out of memory, 6 input too long,
        7 a line is wrong";

const MANUAL: Manual = Manual {
    name: "verify",
    version: "0.1.0",
    help: HELP,
    commands: &[],
};

/// Checks the lines over the shared declarations.
#[derive(Clone, Copy)]
struct Shared;

impl Program for Shared {
    fn run<S: Source, K: Sink>(
        &self,
        alloc: Global,
        words: &[Text],
        source: &mut S,
        sink: &mut K,
    ) -> Ending {
        match define(alloc) {
            Ok(declarations) => verify(alloc, words, &declarations, source, sink),
            Err(_) => Ending::OutOfMemory,
        }
    }
}

fn main(rt: HostRuntime) -> ExitCode {
    start(&rt, &MANUAL, &Shared)
}
