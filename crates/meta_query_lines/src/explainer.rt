ghost use Rattle.std.specs.Prelude.{◌≡◌, IfOk, string_bytes};
ghost use Rattle.meta_query_lines.specs.Explained.{IsExplainedOutput};

use super::explanation::push_explained;
use meta_build::Built;
use meta_gen::tables_of;
use meta_run::{Answer, Answerer};
use std::alloc::{AllocError, Global};

/// The answerer of `explain`: it answers each line of an input by the tables of the declarations, and by their names of operands and their
/// marks.
#[derive(Clone, Copy)]
pub struct Explainer;

fn explained(alloc: Global, built: &Built<'_>, input: &[u8]) -> Result<String, AllocError>
    ensures { IfOk result (λ output. IsExplainedOutput built.now.declared input.now (string_bytes output)) }
{
    let _declarations = built.declarations();
    let tables = tables_of(alloc, built)?;
    let mut output = String::new(alloc);
    push_explained(
        alloc,
        &mut output,
        &tables,
        Some(built.instructions()),
        input,
    )?;
    Ok(output)
}

impl Answerer for Explainer {
    ghost use Rattle.std.specs.Prelude.{true};
    ghost use Rattle.meta_run.specs.Run.{never_rejecting};
    ghost use Rattle.meta_query_lines.specs.Explained.{IsExplainedOutput};

    ghost reads = { λ _. true };

    ghost texts = { λ _. never_rejecting IsExplainedOutput };

    fn has_input(&self) -> bool {
        true
    }

    fn answer(&self, alloc: Global, built: &Built<'_>, input: &[u8]) -> Result<Answer, AllocError> {
        Ok(Answer {
            text: explained(alloc, built, input)?,
            is_rejection: false,
        })
    }
}
