//! Compares the text of tables in standard input with the shared declarations.
#![tactic(auto)]

use meta_audit::audit_run;
use meta_command_line::{Manual, Program, start};
use meta_run::Ending;
use meta_shared::define;
use meta_text::{Sink, Source};
use meta_types::Text;
use std::alloc::Global;
use std::process::ExitCode;

const HELP: &str = "\
Says whether the tables in a text mean the shared instructions and settings of Cranelift, as `ciderlater audit` does.

Usage: audit < FILE    yes, refused, or what is the first that differs

Options:
  -h, --help     prints this
  -V, --version  prints the version

Status: 0 done, 1 declarations refused, 2 usage, 3 read fault, 4 write fault, 5 out of memory, 6 input too long";

const MANUAL: Manual = Manual {
    name: "audit",
    version: "0.1.0",
    help: HELP,
    commands: &[],
};

/// Audits the text for the shared declarations.
#[derive(Clone, Copy)]
struct Shared;

impl Program for Shared {
    fn run<S: Source, K: Sink>(
        &self,
        alloc: Global,
        words: &[Text],
        source: &mut S,
        sink: &mut K,
    ) -> Ending {
        match define(alloc) {
            Ok(declarations) => audit_run(alloc, words, &declarations, source, sink),
            Err(_) => Ending::OutOfMemory,
        }
    }
}

fn main(rt: HostRuntime) -> ExitCode {
    start(&rt, &MANUAL, &Shared)
}
