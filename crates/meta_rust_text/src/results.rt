ghost use Rattle.std.specs.Prelude.{◌≡◌, ◌-◌, ◌++◌, IfOk, OnOk, codes, string_bytes};
ghost use Rattle.meta_rust_text.specs.MethodBody.{parted_to, numbered_result, several_text, results_lines, result_type};

use meta_text::push_text;
use std::alloc::{AllocError, Global};

#[tactic(auto, unfolding(crate::specs::MethodBody::numbered_result))]
fn push_numbered(out: &mut String, number: usize) -> Result<(), AllocError>
    ensures { OnOk result (string_bytes out.new ≡ string_bytes out.old ++ numbered_result number) }
{
    write!(out, "results[{number}]")
}

/// The results from the first to the last, separated by a comma and a space.
fn numbered_results(alloc: Global, last: usize) -> Result<String, AllocError>
    ensures { IfOk result (λ text. string_bytes text ≡ parted_to numbered_result last) }
{
    let mut text = String::new(alloc);
    push_numbered(&mut text, 0)?;
    for before in 0..last {
        text.push_str(", ")?;
        push_numbered(&mut text, before + 1)?;
    }
    Ok(text)
}

/// Adds the lines that give `count` results, which have this text.
#[tactic(auto, unfolding(crate::specs::MethodBody::several_text))]
fn push_several(out: &mut String, count: usize, results: &str) -> Result<(), AllocError>
    ensures { OnOk result (string_bytes out.new ≡ string_bytes out.old ++ several_text count results.now) }
{
    write!(
        out,
        "        let results = &dfg.inst_results(inst)[0..{count}];
        ({results})
"
    )
}

/// Adds the lines that give `count` results, or the instruction if there is no result.
#[tactic(auto, unfolding(crate::specs::MethodBody::results_lines))]
pub(crate) fn push_results(alloc: Global, out: &mut String, count: usize) -> Result<(), AllocError>
    ensures { OnOk result (string_bytes out.new ≡ string_bytes out.old ++ results_lines count) }
{
    if count == 0 {
        return push_text(out, "        inst\n");
    }
    if count == 1 {
        return push_text(out, "        dfg.first_result(inst)\n");
    }
    let results = numbered_results(alloc, count - 1)?;
    push_several(out, count, results.as_str())
}

/// The types of the results from the first to the last, separated by a comma and a space.
fn value_types(alloc: Global, last: usize) -> Result<String, AllocError>
    ensures { IfOk result (λ text. string_bytes text ≡ parted_to (λ number. codes "Value") last) }
{
    let mut text = String::from_str(alloc, "Value")?;
    for _before in 0..last {
        text.push_str(", Value")?;
    }
    Ok(text)
}

#[tactic(auto, unfolding(crate::specs::MethodBody::result_type))]
pub(crate) fn result_type(alloc: Global, count: usize) -> Result<String, AllocError>
    ensures { IfOk result (λ text. string_bytes text ≡ result_type count) }
{
    if count == 0 {
        return String::from_str(alloc, "Inst");
    }
    if count == 1 {
        return String::from_str(alloc, "Value");
    }
    let types = value_types(alloc, count - 1)?;
    format!(in alloc; "({types})")
}
