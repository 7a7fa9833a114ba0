ghost use Rattle.std.specs.Prelude.{◌≡◌, ◌<◌, map, length, IfOk};
ghost use Rattle.meta_verify.specs.Statement as spec;
ghost use Rattle.meta_verify.specs.Statement.{CanApply, value_text, list_text};
ghost use Rattle.meta_asm.specs.Short.{Manner};
ghost use Rattle.meta_asm.specs.PlainNames.{IsPlain};
ghost use Rattle.meta_asm.specs.Parts.{HasShortParts};
ghost use Rattle.meta_asm.specs.Written.{IsWritten};

use super::parts::ShortParts;
use super::words::{Words, line_of};
use meta_verify::Statement;
use std::alloc::{AllocError, Global};

/// What a text writes of an application apart from the results: the numbers of the controlling types, and the values.
#[derive(Drop)]
pub(crate) struct Written {
    pub(crate) control: Option<u16>,
    pub(crate) second: Option<u16>,
    pub(crate) values: Vec<u32>,
}

/// What the parts of a text write. `values` is the word for the values. `None` if the parts are those of no application.
pub(crate) fn written_of(
    alloc: Global,
    parts: ShortParts<'_>,
    values: &[u8],
) -> Result<Option<Written>, AllocError>
    ensures { IfOk result (λ written. (m : Manner) (a : spec.Application) → CanApply a → IsPlain a.name → 0 < length a.name
        → HasShortParts m a parts.entry → values.now ≡ list_text (map value_text a.values) → IsWritten m a written) }
{
    let control = parts.control.unwrap_or(b"-");
    let words = Words {
        name: parts.name,
        control,
        results: b"-",
        values,
    };
    let line = line_of(alloc, words)?;
    match Statement::parse(alloc, &line)? {
        Some(Statement::Applied(application)) => Ok(Some(Written {
            control: application.control,
            second: application.second,
            values: application.values,
        })),
        Some(Statement::Parameter(_parameter)) => Ok(None),
        None => Ok(None),
    }
}
