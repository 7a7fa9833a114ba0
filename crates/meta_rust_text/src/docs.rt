ghost use Rattle.std.specs.Prelude.{◌≡◌, ◌++◌, OnOk, string_bytes};
ghost use Rattle.meta_rust_text.specs.Docs.{first_line, doc_line_text, doc_heading_text, doc_item_text};

use std::alloc::AllocError;

/// The first line of a documentation that isn't blank, without the white space at its ends. It is empty if each line is blank. Only this
/// line of a documentation is printed; `doc_comment` of the crate `cranelift_srcgen` prints each line.
#[tactic(auto, unfolding(crate::specs::Docs::first_line))]
pub fn first_line(doc: &str) -> &str
    ensures { result.now ≡ first_line doc.now }
{
    doc.lines()
        .map(|line| line.trim())
        .find(|line| !line.is_empty())
        .unwrap_or("")
}

#[tactic(auto, unfolding(crate::specs::Docs::doc_line_text))]
pub(crate) fn push_doc_line(out: &mut String, doc: &str) -> Result<(), AllocError>
    ensures { OnOk result (string_bytes out.new ≡ string_bytes out.old ++ doc_line_text doc.now) }
{
    write!(out, "    /// {doc}\n")
}

/// Adds a heading, `Inputs` or `Outputs`, to the doc comment of a method, between two empty lines of the comment.
#[tactic(auto, unfolding(crate::specs::Docs::doc_heading_text))]
pub(crate) fn push_doc_heading(out: &mut String, heading: &str) -> Result<(), AllocError>
    ensures { OnOk result (string_bytes out.new ≡ string_bytes out.old ++ doc_heading_text heading.now) }
{
    write!(
        out,
        "    ///
    /// {heading}:
    ///
"
    )
}

#[tactic(auto, unfolding(crate::specs::Docs::doc_item_text))]
pub(crate) fn push_doc_item(out: &mut String, name: &str, doc: &str) -> Result<(), AllocError>
    ensures { OnOk result (string_bytes out.new ≡ string_bytes out.old ++ doc_item_text name.now doc.now) }
{
    write!(out, "    /// - {name}: {doc}\n")
}
