ghost use Rattle.std.specs.Prelude.{◌≡◌, ◌++◌, ℕ, List, IfOk, OnOk, string_bytes};
ghost use Rattle.meta_lines.specs.Lines.{lines_of};
ghost use Rattle.meta_flags.specs.Served.{served_in};
ghost use Rattle.meta_flags.specs.Held.{got, value_of, served_by, state_of};
ghost use Rattle.meta_flags.specs.Request.{request_of};
ghost use Rattle.meta_flags.specs.Toml.{setting_value_text};
ghost use Rattle.meta_flags.specs.Replies.{change_line, got_line};
ghost use Rattle.meta_flags.specs.FlagAnswers.{none_text, IsServed, IsAnswered, AreFlagAnswers};

use super::flag_error::FlagError;
use super::flag_value::FlagValue;
use super::held::Flags;
use super::request::Request;
use meta_lines::Lines;
use std::alloc::{AllocError, Global};

fn push_outcome(out: &mut String, outcome: Result<(), FlagError>) -> Result<(), AllocError>
    ensures { OnOk result (string_bytes out.new ≡ string_bytes out.old ++ change_line outcome) }
{
    let text = match outcome {
        Ok(()) => "ok",
        Err(error) => error.text(),
    };
    write!(out, "{text}\n")
}

fn push_value(out: &mut String, value: FlagValue<'_>) -> Result<(), AllocError>
    ensures { OnOk result (string_bytes out.new ≡ string_bytes out.old ++ setting_value_text (value_of value.entry)) }
{
    match value {
        FlagValue::Bool(truth) => write!(out, "{truth}"),
        FlagValue::Num(number) => write!(out, "{number}"),
        FlagValue::Enum(text) => out.push_str(text.as_str()),
    }
}

/// Adds the line with a value, or with the error.
fn push_got(out: &mut String, outcome: Result<FlagValue<'_>, FlagError>) -> Result<(), AllocError>
    ensures { OnOk result (string_bytes out.new ≡ string_bytes out.old ++ got_line (got outcome.entry)) }
{
    match outcome {
        Ok(value) => push_value(out, value)?,
        Err(error) => out.push_str(error.text())?,
    }
    out.push_str("\n")
}

/// Does what is asked, and adds the lines that answer it.
fn push_served(
    out: &mut String,
    flags: &mut Flags<'_>,
    request: Request<'_>,
) -> Result<(), AllocError>
    ensures served { OnOk result ((text : List ℕ) × IsServed (served_in flags.old.group)
        (request_of request.entry) flags.old.state flags.new.state text × (string_bytes out.new ≡ string_bytes out.old ++ text)) }
    ensures group { flags.new.group ≡ flags.old.group }
{
    match request {
        Request::Set { name, value } => push_outcome(out, flags.set(name, value)),
        Request::Enable(name) => push_outcome(out, flags.enable(name)),
        Request::Get(name) => push_got(out, flags.get(name)),
        Request::Toml => flags.push_toml(out),
    }
}

/// Adds the lines that answer what is asked if there is no group: no entry has a name, and there is no value.
fn push_unserved(out: &mut String, request: Request<'_>) -> Result<(), AllocError>
    ensures { OnOk result (string_bytes out.new ≡ string_bytes out.old ++ none_text (request_of request.entry)) }
{
    match request {
        Request::Set { .. } => push_outcome(out, Err(FlagError::Unknown)),
        Request::Enable(_) => push_outcome(out, Err(FlagError::Unknown)),
        Request::Get(_) => push_outcome(out, Err(FlagError::Unknown)),
        Request::Toml => Ok(()),
    }
}

/// Does what a line asks, and adds the lines that answer it. An empty line has no answer.
fn push_answer(
    out: &mut String,
    flags: &mut Option<Flags<'_>>,
    line: &[u8],
) -> Result<(), AllocError>
    ensures answered { OnOk result ((text : List ℕ) × IsAnswered (served_by flags.old) line.now (state_of flags.old)
        (state_of flags.new) text × (string_bytes out.new ≡ string_bytes out.old ++ text)) }
    ensures served { served_by flags.new ≡ served_by flags.old }
{
    if line.is_empty() {
        return Ok(());
    }
    let Some(request) = Request::parse(line) else {
        return out.push_str("bad\n");
    };
    match flags {
        Some(flags) => push_served(out, flags, request),
        None => push_unserved(out, request),
    }
}

pub(crate) fn answers(
    alloc: Global,
    mut flags: Option<Flags<'_>>,
    input: &[u8],
) -> Result<String, AllocError>
    ensures { IfOk result (λ out. AreFlagAnswers (served_by flags.entry) (state_of flags.entry) (lines_of input.now) (string_bytes out)) }
{
    let mut out = String::new(alloc);
    for line in Lines::new(input) {
        push_answer(&mut out, &mut flags, line)?;
    }
    Ok(out)
}
