ghost use Rattle.std.specs.Prelude.{◌≡◌, [], ◌∷◌, ◌++◌, IfOk, OnOk, string_bytes};
ghost use Rattle.meta_gen.specs.WholeTables.{AreWholeTablesOf};
ghost use Rattle.meta_audit.specs.AuditLine.{verdict_text, IsAuditLine};

use super::auditing::verdict_beside;
use super::verdict::Verdict;
use meta_gen::{Built, Declarations, Tables, tables_of};
use meta_run::{Answer, Answerer};
use meta_table_reader::{TextError, read_tables, refused};
use std::alloc::{AllocError, Global};

fn push_verdict(out: &mut String, verdict: Verdict) -> Result<(), AllocError>
    ensures { OnOk result (string_bytes out.new ≡ string_bytes out.old ++ verdict_text verdict) }
{
    match verdict {
        Verdict::Yes => out.push_str("yes"),
        Verdict::Opcodes => out.push_str("opcodes"),
        Verdict::Opcode(n) => write!(out, "opcode {n}"),
        Verdict::Group(g) => write!(out, "group {g}"),
    }
}

fn line_of(alloc: Global, verdict: Verdict) -> Result<String, AllocError>
    ensures { IfOk result (λ out. string_bytes out ≡ verdict_text verdict ++ 10 ∷ []) }
{
    let mut out = String::new(alloc);
    push_verdict(&mut out, verdict)?;
    out.push_str("\n")?;
    Ok(out)
}

/// The line for a text that is compared with declarations. `own` are the tables of these.
fn audit_line(
    alloc: Global,
    declarations: &Declarations,
    own: &Tables,
    text: &[u8],
) -> Result<String, AllocError>
    requires { AreWholeTablesOf declarations.now own.now }
    ensures { IfOk result (λ out. IsAuditLine declarations.now text.now (string_bytes out)) }
{
    match read_tables(alloc, text) {
        Ok(tables) => line_of(alloc, verdict_beside(declarations, own, &tables)),
        Err(TextError::Refused) => refused(alloc),
        Err(TextError::OutOfMemory) => Err(AllocError),
    }
}

/// The answerer of `audit_run`: it answers the text of tables by its line.
#[derive(Clone, Copy)]
pub struct Auditor;

impl Answerer for Auditor {
    ghost use Rattle.std.specs.Prelude.{true};
    ghost use Rattle.meta_run.specs.Run.{never_rejecting};
    ghost use Rattle.meta_audit.specs.AuditLine.{IsAuditLine};

    ghost reads = { λ _. true };

    ghost texts = { λ _. never_rejecting IsAuditLine };

    /// There is always an input.
    fn has_input(&self) -> bool {
        true
    }

    fn answer(&self, alloc: Global, built: &Built<'_>, input: &[u8]) -> Result<Answer, AllocError> {
        let own = tables_of(alloc, built)?;
        Ok(Answer {
            text: audit_line(alloc, built.declarations(), &own, input)?,
            is_rejection: false,
        })
    }
}
