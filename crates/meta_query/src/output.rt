ghost use Rattle.std.specs.Prelude.{◌≡◌, false, [], IfOk, string_bytes};
ghost use Rattle.meta_query_lines.specs.Answer.{IsOutput};
ghost use Rattle.meta_run.specs.Run.{never_rejecting};
ghost use Rattle.meta_query.specs.Run.{has_input, IsOutputOf};

use super::command::Command;
use super::recheck::recheck;
use super::synthesis::synth_line;
use meta_gen::{Built, tables_of};
use meta_query_lines::{answers_mean, push_answers};
use meta_run::{Answer, Answerer};
use meta_rust_text::{builder_text, instructions_text, settings_text, types_text};
use meta_table_text::{Version, table_text};
use std::alloc::{AllocError, Global};

fn answers(alloc: Global, built: &Built<'_>, input: &[u8]) -> Result<String, AllocError>
    ensures { IfOk result (λ output. IsOutput built.now.declared input.now (string_bytes output)) }
{
    answers_mean();
    let tables = tables_of(alloc, built)?;
    let mut output = String::new(alloc);
    push_answers(alloc, &mut output, &tables, input)?;
    Ok(output)
}

fn output_of(
    alloc: Global,
    command: Command,
    built: &Built<'_>,
    input: &[u8],
) -> Result<String, AllocError>
    requires { has_input command ≡ false → input.now ≡ [] }
    ensures { IfOk result (λ output. IsOutputOf command built.now.declared input.now (string_bytes output)) }
{
    let _declarations = built.declarations();
    match command {
        Command::Query => answers(alloc, built, input),
        Command::Recheck => recheck(alloc, &tables_of(alloc, built)?, input),
        Command::Tables => table_text(alloc, Version::Three, &tables_of(alloc, built)?),
        Command::Types => types_text(alloc),
        Command::Settings => settings_text(alloc, built.groups()),
        Command::Instructions => instructions_text(alloc, built),
        Command::Builder => builder_text(alloc, built),
        Command::Synth(n) => synth_line(alloc, n),
    }
}

impl Answerer for Command {
    ghost reads = { has_input };

    ghost texts = { λ command. never_rejecting (IsOutputOf command) };

    /// Whether the command has an input: `query` and `recheck` have one.
    fn has_input(&self) -> bool {
        match self {
            Command::Query | Command::Recheck => true,
            Command::Tables
            | Command::Types
            | Command::Settings
            | Command::Instructions
            | Command::Builder
            | Command::Synth(_) => false,
        }
    }

    fn answer(&self, alloc: Global, built: &Built<'_>, input: &[u8]) -> Result<Answer, AllocError> {
        Ok(Answer {
            text: output_of(alloc, *self, built, input)?,
            is_rejection: false,
        })
    }
}
