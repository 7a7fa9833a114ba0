ghost use Rattle.std.specs.Prelude.{◌≡◌, ◌≢◌, ◌<◌, ◌^◌, ℕ, IfOk, IfSome, IfNone, string_bytes};
ghost use Rattle.std.specs.Fmt.{decimal};
ghost use Rattle.meta_build.specs.AllDeclared.{AreValid};
ghost use Rattle.meta_query.specs.Synth.{IsSynth};
ghost use Rattle.meta_query.specs.Synthesis.{IsSynthOutput};

use super::generator::synth;
use super::report::summary;
use meta_build::one_first_fault;
use meta_gen::{Declarations, generate};
use meta_lines::number_u32;
use meta_types::{DefinitionError, Text};
use std::alloc::{AllocError, Global};

/// The number that a word writes: decimal, with no zero before it, at most 4,294,967,295. `None` if it writes no such number.
pub(crate) fn number_in(word: &Text) -> Option<u32>
    ensures some { IfSome result (λ n. word.now ≡ decimal n) }
    ensures none { IfNone result ((n : ℕ) → n < 2 ^ 32 → word.now ≢ decimal n) }
{
    number_u32(word.as_bytes())
}

/// The summary of the tables of these declarations, with LF. They are made from the number `n`.
fn summary_line(alloc: Global, n: u32, declarations: &Declarations) -> Result<String, AllocError>
    requires synth { IsSynth n declarations.now }
    requires valid { AreValid declarations.now }
    ensures { IfOk result (λ out. IsSynthOutput n (string_bytes out)) }
{
    let _variables = declarations.vars();
    one_first_fault();
    let tables = match generate(alloc, declarations) {
        Ok(tables) => tables,
        Err(DefinitionError::OutOfMemory) => return Err(AllocError),
        Err(_) => unreachable!(),
    };
    let mut line = summary(alloc, n, &tables)?;
    line.push_str("\n")?;
    Ok(line)
}

/// The summary of the tables of the declarations that are made from a number, with LF.
pub(crate) fn synth_line(alloc: Global, n: u32) -> Result<String, AllocError>
    ensures { IfOk result (λ out. IsSynthOutput n (string_bytes out)) }
{
    let declarations = synth(alloc, n)?;
    summary_line(alloc, n, &declarations)
}
