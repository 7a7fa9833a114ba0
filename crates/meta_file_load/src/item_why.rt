ghost use Rattle.std.specs.Prelude.{◌≡◌, ◌++◌, IfOk, OnOk};
ghost use Rattle.std.specs.Fmt.{decimal};
ghost use Rattle.meta_file_reader.specs.Reason.{back_quoted};
ghost use Rattle.meta_file_load.specs.ItemWhy.{quoted_text, written_name, shown_name, opened, closed, line_at_place};
ghost use Rattle.meta_file_load.specs.ItemWhy.{no_derivation, too_deep, numbers_text, none_of, no_number, empty_range, twice, value_twice, no_entry};
ghost use Rattle.meta_file_load.specs.ItemWhy.{about, declared_in, declare_why};

use meta_file_reader::write_back_quoted;
use meta_file_syntax::{Dimension, Name, write_escaped};
use meta_file_types::Reason;
use meta_types::DerivedFunc;
use std::alloc::{AllocError, Global};

fn write_quoted(out: &mut Vec<u8>, text: &[u8]) -> Result<(), AllocError>
    ensures { OnOk result (out.new.items ≡ out.old.items ++ quoted_text text.now) }
{
    out.extend_from_slice(b"\"")?;
    write_escaped(out, text)?;
    out.extend_from_slice(b"\"")
}

#[tactic(auto, unfolding(crate::specs::ItemWhy::written_name))]
fn write_name(out: &mut Vec<u8>, name: &Name) -> Result<(), AllocError>
    ensures { OnOk result (out.new.items ≡ out.old.items ++ written_name name.now) }
{
    match name {
        Name::Plain(word) => out.extend_from_slice(word.as_slice()),
        Name::Quoted(text) => write_quoted(out, text.as_slice()),
    }
}

fn write_shown(out: &mut Vec<u8>, name: &Name) -> Result<(), AllocError>
    ensures { OnOk result (out.new.items ≡ out.old.items ++ shown_name name.now) }
{
    match name {
        Name::Plain(word) => write_back_quoted(out, word.as_slice()),
        Name::Quoted(text) => write_quoted(out, text.as_slice()),
    }
}

fn write_number(out: &mut Vec<u8>, number: usize) -> Result<(), AllocError>
    ensures { OnOk result (out.new.items ≡ out.old.items ++ decimal number) }
{
    let text = format!(in *out.allocator(); "{number}")?;
    out.extend_from_slice(text.as_bytes())
}

fn write_line(out: &mut Vec<u8>, lines: &[usize], place: usize) -> Result<(), AllocError>
    ensures { OnOk result (out.new.items ≡ out.old.items ++ line_at_place lines.now place) }
{
    match lines.get(place) {
        Some(line) => write_number(out, *line),
        None => Ok(()),
    }
}

fn write_opened(out: &mut Vec<u8>, functions: &[DerivedFunc]) -> Result<(), AllocError>
    ensures { OnOk result (out.new.items ≡ out.old.items ++ opened functions.now) }
{
    for function in functions {
        out.extend_from_slice(function.name().as_bytes())?;
        out.extend_from_slice(b"(")?;
    }
    Ok(())
}

fn write_closed(out: &mut Vec<u8>, functions: &[DerivedFunc]) -> Result<(), AllocError>
    ensures { OnOk result (out.new.items ≡ out.old.items ++ closed functions.now) }
{
    for _function in functions {
        out.extend_from_slice(b")")?;
    }
    Ok(())
}

#[tactic(auto, unfolding(crate::specs::ItemWhy::written_type))]
fn write_no_derivation(
    out: &mut Vec<u8>,
    function: DerivedFunc,
    after: &[DerivedFunc],
    word: &[u8],
) -> Result<(), AllocError>
    ensures { OnOk result (out.new.items ≡ out.old.items ++ no_derivation function after.now word.now) }
{
    out.extend_from_slice(function.name().as_bytes())?;
    out.extend_from_slice(b" cannot be derived from ")?;
    write_opened(out, after)?;
    out.extend_from_slice(word)?;
    write_closed(out, after)
}

fn write_too_deep(out: &mut Vec<u8>, word: &[u8], function: DerivedFunc) -> Result<(), AllocError>
    ensures { OnOk result (out.new.items ≡ out.old.items ++ too_deep word.now function) }
{
    out.extend_from_slice(function.name().as_bytes())?;
    out.extend_from_slice(b" is the 65th function after the root of ")?;
    write_back_quoted(out, word)
}

#[tactic(auto, using(crate::proofs::Numbers::of_lanes, crate::proofs::Numbers::of_dynamic, crate::proofs::Numbers::of_ints, crate::proofs::Numbers::of_floats))]
fn numbers_text(dimension: Dimension) -> &'static [u8]
    ensures { result.now ≡ numbers_text dimension }
{
    match dimension {
        Dimension::Lanes => b"1, 2, 4, 8, 16, 32, 64, 128, 256",
        Dimension::Dynamic => b"2, 4, 8, 16, 32, 64, 128, 256",
        Dimension::Ints => b"8, 16, 32, 64, 128",
        Dimension::Floats => b"16, 32, 64, 128",
    }
}

fn write_none_of(out: &mut Vec<u8>, numbers: &[u8]) -> Result<(), AllocError>
    ensures { OnOk result (out.new.items ≡ out.old.items ++ none_of numbers.now) }
{
    write_both(out, b" is none of ", numbers)
}

fn write_no_number(out: &mut Vec<u8>, dimension: Dimension, number: u16) -> Result<(), AllocError>
    ensures { OnOk result (out.new.items ≡ out.old.items ++ no_number dimension number) }
{
    write_number(out, usize::from(number))?;
    write_none_of(out, numbers_text(dimension))
}

fn write_empty_range(out: &mut Vec<u8>, low: u16, high: u16) -> Result<(), AllocError>
    ensures { OnOk result (out.new.items ≡ out.old.items ++ empty_range low high) }
{
    write_number(out, usize::from(low))?;
    out.extend_from_slice(b"..")?;
    write_number(out, usize::from(high))?;
    out.extend_from_slice(b" has no member")
}

fn write_twice(out: &mut Vec<u8>, name: &Name) -> Result<(), AllocError>
    ensures { OnOk result (out.new.items ≡ out.old.items ++ twice name.now) }
{
    write_name(out, name)?;
    out.extend_from_slice(b" stands twice")
}

fn write_value_twice(out: &mut Vec<u8>, name: &Name) -> Result<(), AllocError>
    ensures { OnOk result (out.new.items ≡ out.old.items ++ value_twice name.now) }
{
    out.extend_from_slice(b"the value ")?;
    write_twice(out, name)
}

fn write_no_entry(out: &mut Vec<u8>, name: &Name) -> Result<(), AllocError>
    ensures { OnOk result (out.new.items ≡ out.old.items ++ no_entry name.now) }
{
    out.extend_from_slice(b"no boolean or preset of the group is named ")?;
    write_shown(out, name)?;
    out.extend_from_slice(b" above")
}

fn write_both(out: &mut Vec<u8>, first: &[u8], second: &[u8]) -> Result<(), AllocError>
    ensures { OnOk result (out.new.items ≡ out.old.items ++ (first.now ++ second.now)) }
{
    out.extend_from_slice(first)?;
    out.extend_from_slice(second)
}

fn write_about(
    out: &mut Vec<u8>,
    before: &[u8],
    word: &[u8],
    after: &[u8],
) -> Result<(), AllocError>
    ensures { OnOk result (out.new.items ≡ out.old.items ++ about before.now word.now after.now) }
{
    out.extend_from_slice(before)?;
    write_back_quoted(out, word)?;
    out.extend_from_slice(after)
}

fn write_declared(
    out: &mut Vec<u8>,
    lines: &[usize],
    word: &[u8],
    place: usize,
) -> Result<(), AllocError>
    ensures { OnOk result (out.new.items ≡ out.old.items ++ declared_in lines.now word.now place) }
{
    write_back_quoted(out, word)?;
    out.extend_from_slice(b" is declared in line ")?;
    write_line(out, lines, place)
}

fn write_why(out: &mut Vec<u8>, lines: &[usize], reason: Reason<'_>) -> Result<(), AllocError>
    ensures { OnOk result (out.new.items ≡ out.old.items ++ declare_why lines.now reason.entry) }
{
    match reason {
        Reason::NotText => out.extend_from_slice(b"the line is not UTF-8"),
        Reason::DocumentedAlias(word) => {
            let why = b" is another word for a type, and has no documentation of its own";
            write_about(out, b"", word.as_slice(), why)
        }
        Reason::PartTwice(dimension) => write_both(out, dimension.as_slice(), b" stands twice"),
        Reason::NoNumber(dimension, number) => write_no_number(out, dimension, number),
        Reason::EmptyRange(low, high) => write_empty_range(out, low, high),
        Reason::DynamicAlone => out.extend_from_slice(
            b"dynamic stands without lanes: lanes none is for dynamic vectors alone, lanes 1 for scalars besides",
        ),
        Reason::LikeDerived(word) => write_about(out, b"", word.as_slice(), b" is derived"),
        Reason::Unknown(word) => {
            write_about(out, b"nothing is named ", word.as_slice(), b" above")
        }
        Reason::NoType(word) => {
            write_about(out, b"", word.as_slice(), b" is a kind and no type")
        }
        Reason::NoKind(word) => {
            write_about(out, b"", word.as_slice(), b" is a type: a format has value")
        }
        Reason::CannotDerive(function, after, word) => {
            write_no_derivation(out, function, after.as_slice(), word.as_slice())
        }
        Reason::TooDeep(function, word) => write_too_deep(out, word.as_slice(), function),
        Reason::LongName(word) => {
            let why = b": the name of its root has more than 4,096 bytes";
            write_about(out, b"nothing can be derived from ", word.as_slice(), why)
        }
        Reason::ValueTwice(name) => write_value_twice(out, name.name()),
        Reason::OwnMeaning(word) => {
            write_about(out, b"", word.as_slice(), b" has a meaning of its own")
        }
        Reason::Declared(word, place) => write_declared(out, lines, word.as_slice(), place),
        Reason::FormatDeclared(word, place) => {
            out.extend_from_slice(b"format ")?;
            write_declared(out, lines, word.as_slice(), place)
        }
        Reason::TwoDesignated(_) => out.extend_from_slice(b"two values are designated"),
        Reason::UnknownFormat(word) => {
            write_about(out, b"no format is named ", word.as_slice(), b" above")
        }
        Reason::SecondTwice(_) => out.extend_from_slice(b"a second control is named twice"),
        Reason::NoGroup => out.extend_from_slice(b"a setting stands after its group"),
        Reason::NoEntry(name) => write_no_entry(out, name.name()),
    }
}

/// Why an item can't be declared, in words. `lines` has the lines of all items.
pub fn declare_why(
    alloc: Global,
    lines: &[usize],
    reason: Reason<'_>,
) -> Result<Vec<u8>, AllocError>
    ensures { IfOk result (λ v. v.items ≡ declare_why lines.now reason.entry) }
{
    let mut out = Vec::new(alloc);
    write_why(&mut out, lines, reason)?;
    Ok(out)
}
