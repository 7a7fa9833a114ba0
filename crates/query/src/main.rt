//! Answers commands over the shared declarations: the queries of standard input, or a text.
#![tactic(auto)]

use meta_command_line::{CommandForm, Manual, Program, Range, start};
use meta_query::run;
use meta_run::Ending;
use meta_shared::define;
use meta_text::{Sink, Source};
use meta_types::Text;
use std::alloc::Global;
use std::process::ExitCode;

const HELP: &str = "\
Answers over the shared instructions and settings of Cranelift, as `ciderlater` does.

Usage: query query < FILE      an answer to each line of standard input
       query recheck < FILE    how the text of tables in standard input reads
       query tables            the tables as text
       query types             or settings, instructions, builder: Rust source
       query synth N           a line on the tables of declarations that are made from a number

Options:
  -h, --help     prints this
  -V, --version  prints the version

Status: 0 done, 1 declarations refused, 2 usage, 3 read fault, 4 write fault, 5 out of memory, 6 input too long";

const MANUAL: Manual = Manual {
    name: "query",
    version: "0.1.0",
    help: HELP,
    commands: &[
        CommandForm {
            name: "tables",
            numbers: &[],
        },
        CommandForm {
            name: "types",
            numbers: &[],
        },
        CommandForm {
            name: "settings",
            numbers: &[],
        },
        CommandForm {
            name: "instructions",
            numbers: &[],
        },
        CommandForm {
            name: "builder",
            numbers: &[],
        },
        CommandForm {
            name: "query",
            numbers: &[],
        },
        CommandForm {
            name: "recheck",
            numbers: &[],
        },
        CommandForm {
            name: "synth",
            numbers: &[Range {
                least: 0,
                most: u32::MAX,
            }],
        },
    ],
};

/// Runs the words over the shared declarations.
#[derive(Clone, Copy)]
struct Shared;

impl Program for Shared {
    fn run<S: Source, K: Sink>(
        &self,
        alloc: Global,
        words: &[Text],
        source: &mut S,
        sink: &mut K,
    ) -> Ending {
        match define(alloc) {
            Ok(declarations) => run(alloc, words, &declarations, source, sink),
            Err(_) => Ending::OutOfMemory,
        }
    }
}

fn main(rt: HostRuntime) -> ExitCode {
    start(&rt, &MANUAL, &Shared)
}
