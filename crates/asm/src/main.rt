//! Writes the list of typed lines in standard input in the other form, over the shared declarations.
#![tactic(auto)]

use meta_asm::asm;
use meta_command_line::{CommandForm, Manual, Program, start};
use meta_run::Ending;
use meta_shared::define;
use meta_text::{Sink, Source};
use meta_types::Text;
use std::alloc::Global;
use std::process::ExitCode;

const HELP: &str = "\
Writes a list of typed lines over the shared instructions of Cranelift in another form, as `ciderlater asm` does.

Usage: asm short < FILE       the list with the types left out that the others tell
       asm explicit < FILE    such a list with all types

Options:
  -h, --help     prints this
  -V, --version  prints the version

Status: 0 done, 1 declarations refused, 2 usage, 3 read fault, 4 write fault, 5 out of memory, 6 input too long,
        7 a line is wrong";

const MANUAL: Manual = Manual {
    name: "asm",
    version: "0.1.0",
    help: HELP,
    commands: &[
        CommandForm {
            name: "short",
            numbers: &[],
        },
        CommandForm {
            name: "explicit",
            numbers: &[],
        },
    ],
};

/// Writes lists over the shared declarations.
#[derive(Clone, Copy)]
struct Shared;

impl Program for Shared {
    fn run<S: Source, K: Sink>(
        &self,
        alloc: Global,
        words: &[Text],
        source: &mut S,
        sink: &mut K,
    ) -> Ending {
        match define(alloc) {
            Ok(declarations) => asm(alloc, words, &declarations, source, sink),
            Err(_) => Ending::OutOfMemory,
        }
    }
}

fn main(rt: HostRuntime) -> ExitCode {
    start(&rt, &MANUAL, &Shared)
}
