ghost use Rattle.std.specs.Prelude.{◌≡◌, ◌++◌, OnOk, string_bytes};
ghost use Rattle.meta_text.specs.Ends.{gap_text, item_end};

use super::pushed::push_text;
use std::alloc::AllocError;

/// Adds an empty line, as it stands between two items.
#[tactic(auto, unfolding(crate::specs::Ends::gap_text))]
pub fn push_gap(out: &mut String) -> Result<(), AllocError>
    ensures { OnOk result (string_bytes out.new ≡ string_bytes out.old ++ gap_text) }
{
    push_text(out, "\n")
}

/// Adds the last line of an item: `}`.
#[tactic(auto, unfolding(crate::specs::Ends::item_end))]
pub fn push_item_end(out: &mut String) -> Result<(), AllocError>
    ensures { OnOk result (string_bytes out.new ≡ string_bytes out.old ++ item_end) }
{
    push_text(out, "}\n")
}
