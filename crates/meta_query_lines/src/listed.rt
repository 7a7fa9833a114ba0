ghost use Rattle.std.specs.Prelude.{◌≡◌, ◌++◌, OnOk, string_bytes};
ghost use Rattle.meta_gen.specs.Reply.{reply_text};
ghost use Rattle.meta_query_lines.specs.Listed.{comma_before, dash_for};

use meta_gen::Reply;
use std::alloc::AllocError;

/// Adds the text of a reply.
pub(crate) fn push_text(out: &mut String, reply: &Reply) -> Result<(), AllocError>
    ensures { OnOk result (string_bytes out.new ≡ string_bytes out.old ++ reply_text reply.now) }
{
    out.push_str(reply.text())
}

/// Adds the comma before the `k`-th item of a list, from 0. There is none before the first.
pub(crate) fn push_comma(out: &mut String, k: usize) -> Result<(), AllocError>
    ensures { OnOk result (string_bytes out.new ≡ string_bytes out.old ++ comma_before k) }
{
    if k == 0 {
        return Ok(());
    }
    out.push_str(",")
}

/// Adds the `-` that stands for a list of `count` items if that is none.
pub(crate) fn push_dash(out: &mut String, count: usize) -> Result<(), AllocError>
    ensures { OnOk result (string_bytes out.new ≡ string_bytes out.old ++ dash_for count) }
{
    if count > 0 {
        return Ok(());
    }
    out.push_str("-")
}
