ghost use Rattle.std.specs.Prelude.{◌≡◌, ◌∷◌, [], ◌++◌, map, IsTrue, IfOk, OnOk, string_bytes};
ghost use Rattle.std.specs.List.{flat_map};
ghost use Rattle.meta_types.specs.CamelCase.{camel_case_of};
ghost use Rattle.meta_text.specs.Filled.{filled, fits};
ghost use Rattle.meta_rust_text.specs.EnumText.{enum_text, enum_of};

use meta_settings::{Setting, SpecificSetting};
use meta_text::fill;
use meta_types::{Text, camel_case};
use std::alloc::{AllocError, Global};

/// The enum of a setting: its variants, the list of all values, and how it is shown and read (`gen_enum_types`).
const ENUM: &str = "/// Values for `$group$.$name$`.
#[derive(Debug, Copy, Clone, PartialEq, Eq, Hash)]
pub enum $Type$ {
$variants$}
impl $Type$ {
    /// Returns a slice with all possible [$Type$] values.
    pub fn all() -> &'static [$Type$] {
        &[
$members$        ]
    }
}
impl fmt::Display for $Type$ {
    fn fmt(&self, f: &mut fmt::Formatter) -> fmt::Result {
        f.write_str(match *self {
$shown$        }
        )
    }
}
impl core::str::FromStr for $Type$ {
    type Err = ();
    fn from_str(s: &str) -> Result<Self, Self::Err> {
        match s {
$read$            _ => Err(()),
        }
    }
}
";

const ENUM_HOLES: [&str; 7] = [
    "group", "name", "Type", "variants", "members", "shown", "read",
];

/// The lines of a value: its variant, its place in the list of all values, and the arms by which it is shown and read.
const VARIANT: &str = "    /// `$value$`.\n    $Value$,\n";

const MEMBER: &str = "            Self::$Value$,\n";

const SHOWN: &str = "            Self::$Value$ => \"$value$\",\n";

const READ: &str = "            \"$value$\" => Ok(Self::$Value$),\n";

const VALUE_HOLES: [&str; 2] = ["value", "Value"];

fn for_each_value(alloc: Global, lines: &str, values: &[Text]) -> Result<String, AllocError>
    requires { IsTrue (fits lines.now (map (λ h. h.now) VALUE_HOLES)) }
    ensures { IfOk result (λ text. string_bytes text
        ≡ flat_map (λ v. filled lines.now (map (λ h. h.now) VALUE_HOLES) (v ∷ camel_case_of v ∷ [])) values.now) }
{
    let mut text = String::new(alloc);
    for value in values {
        let camel = camel_case(alloc, value)?;
        fill(
            &mut text,
            lines,
            &VALUE_HOLES,
            &[value.as_str(), camel.as_str()],
        )?;
    }
    Ok(text)
}

fn push_enum(
    alloc: Global,
    out: &mut String,
    group: &str,
    name: &Text,
    values: &[Text],
) -> Result<(), AllocError>
    ensures { OnOk result (string_bytes out.new ≡ string_bytes out.old ++ enum_text group.now name.now values.now) }
{
    let ty = camel_case(alloc, name)?;
    let variants = for_each_value(alloc, VARIANT, values)?;
    let members = for_each_value(alloc, MEMBER, values)?;
    let shown = for_each_value(alloc, SHOWN, values)?;
    let read = for_each_value(alloc, READ, values)?;
    fill(
        out,
        ENUM,
        &ENUM_HOLES,
        &[
            group,
            name.as_str(),
            ty.as_str(),
            variants.as_str(),
            members.as_str(),
            shown.as_str(),
            read.as_str(),
        ],
    )
}

fn push_enum_type(
    alloc: Global,
    out: &mut String,
    group: &str,
    setting: &Setting,
) -> Result<(), AllocError>
    ensures { OnOk result (string_bytes out.new ≡ string_bytes out.old ++ enum_of group.now setting.now.name setting.now.specific) }
{
    match setting.specific() {
        SpecificSetting::Enum(values) => {
            push_enum(alloc, out, group, setting.name(), values.as_slice())
        }
        SpecificSetting::Bool(_) | SpecificSetting::Num(_) => Ok(()),
    }
}

pub(crate) fn push_enum_types(
    alloc: Global,
    out: &mut String,
    group: &str,
    settings: &[Setting],
) -> Result<(), AllocError>
    ensures { OnOk result (string_bytes out.new ≡ string_bytes out.old
        ++ flat_map (λ s. enum_of group.now s.name s.specific) settings.now) }
{
    for setting in settings {
        push_enum_type(alloc, out, group, setting)?;
    }
    Ok(())
}
