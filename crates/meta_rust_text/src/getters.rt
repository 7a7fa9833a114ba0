ghost use Rattle.std.specs.Prelude.{◌≡◌, ◌++◌, IfOk, OnOk, string_bytes};
ghost use Rattle.std.specs.List.{flat_map};
ghost use Rattle.meta_rust_text.specs.GetterText.{arms_text, getter_text, predicate_of, getters_text};

use meta_settings::{Setting, SettingGroup, SpecificSetting};
use meta_text::fill;
use meta_types::{Text, camel_case};
use std::alloc::{AllocError, Global};

/// The getters of the settings of a group (`gen_getters`).
const GETTERS: &str = "/// User-defined settings.
#[allow(dead_code, reason = \"generated code\")]
impl Flags {
$predicate$$getters$}
";

const GETTERS_HOLES: [&str; 2] = ["predicate", "getters"];

/// The getter of booleans by their numbers. It has the byte of the first boolean.
const PREDICATE: &str = "    /// Dynamic numbered predicate getter.
    fn numbered_predicate(&self, p: usize) -> bool {
        self.bytes[$start$ + p / 8] & (1 << (p % 8)) != 0
    }
";

const PREDICATE_HOLES: [&str; 1] = ["start"];

/// The getter of a boolean (`gen_getter`).
const BOOL_GETTER: &str = "    /// $doc$
    pub fn $name$(&self) -> bool {
        self.numbered_predicate($number$)
    }
";

const BOOL_GETTER_HOLES: [&str; 3] = ["doc", "name", "number"];

const NUMBER_GETTER: &str = "    /// $doc$
    pub fn $name$(&self) -> u8 {
        self.bytes[$byte$]
    }
";

const NUMBER_GETTER_HOLES: [&str; 3] = ["doc", "name", "byte"];

const ENUM_GETTER: &str = "    /// $doc$
    pub fn $name$(&self) -> $Type$ {
        match self.bytes[$byte$] {
$arms$            _ => panic!(\"Invalid enum value\"),
        }
    }
";

const ENUM_GETTER_HOLES: [&str; 5] = ["doc", "name", "Type", "byte", "arms"];

const ARM: &str = "            $byte$ => $Type$::$Value$,\n";

const ARM_HOLES: [&str; 3] = ["byte", "Type", "Value"];

/// The arms by which the bytes from 0 on give the values, in order.
#[tactic(auto, using(crate::proofs::SettingTemplates::arm_steps))]
fn enum_arms(alloc: Global, ty: &str, values: &[Text]) -> Result<String, AllocError>
    ensures { IfOk result (λ arms. string_bytes arms ≡ arms_text ty.now 0 values.now) }
{
    let mut arms = String::new(alloc);
    for (byte, value) in values.iter().enumerate() {
        let byte = byte.to_string(alloc)?;
        let camel = camel_case(alloc, value)?;
        fill(
            &mut arms,
            ARM,
            &ARM_HOLES,
            &[byte.as_str(), ty, camel.as_str()],
        )?;
    }
    Ok(arms)
}

#[tactic(auto, using(crate::proofs::SettingTemplates::getter_steps), unfolding(crate::specs::GetterText::getter_text))]
fn push_getter(alloc: Global, out: &mut String, setting: &Setting) -> Result<(), AllocError>
    ensures { OnOk result (string_bytes out.new ≡ string_bytes out.old ++ getter_text setting.now) }
{
    let doc = setting.description().as_str().trim();
    let name = setting.name();
    let byte = setting.byte_offset().to_string(alloc)?;
    match setting.specific() {
        SpecificSetting::Bool(b) => {
            let number = b.predicate_number.to_string(alloc)?;
            fill(
                out,
                BOOL_GETTER,
                &BOOL_GETTER_HOLES,
                &[doc, name.as_str(), number.as_str()],
            )
        }
        SpecificSetting::Enum(values) => {
            let ty = camel_case(alloc, name)?;
            let arms = enum_arms(alloc, ty.as_str(), values.as_slice())?;
            fill(
                out,
                ENUM_GETTER,
                &ENUM_GETTER_HOLES,
                &[
                    doc,
                    name.as_str(),
                    ty.as_str(),
                    byte.as_str(),
                    arms.as_str(),
                ],
            )
        }
        SpecificSetting::Num(_) => {
            fill(
                out,
                NUMBER_GETTER,
                &NUMBER_GETTER_HOLES,
                &[doc, name.as_str(), byte.as_str()],
            )
        }
    }
}

fn each_getter(alloc: Global, settings: &[Setting]) -> Result<String, AllocError>
    ensures { IfOk result (λ getters. string_bytes getters ≡ flat_map getter_text settings.now) }
{
    let mut getters = String::new(alloc);
    for setting in settings {
        push_getter(alloc, &mut getters, setting)?;
    }
    Ok(getters)
}

/// The getter of booleans by their numbers, and no text if the group has no setting.
#[tactic(auto, using(crate::proofs::SettingTemplates::predicate_same))]
fn predicate(alloc: Global, group: &SettingGroup) -> Result<String, AllocError>
    ensures { IfOk result (λ text. string_bytes text ≡ predicate_of group.now.bool_start_byte_offset group.now.settings) }
{
    let mut text = String::new(alloc);
    if group.settings().is_empty() {
        return Ok(text);
    }
    let start = group.bool_start_byte_offset().to_string(alloc)?;
    fill(&mut text, PREDICATE, &PREDICATE_HOLES, &[start.as_str()])?;
    Ok(text)
}

#[tactic(auto, using(crate::proofs::SettingTemplates::getters_same))]
pub(crate) fn push_getters(
    alloc: Global,
    out: &mut String,
    group: &SettingGroup,
) -> Result<(), AllocError>
    ensures { OnOk result (string_bytes out.new ≡ string_bytes out.old ++ getters_text group.now) }
{
    let predicate = predicate(alloc, group)?;
    let getters = each_getter(alloc, group.settings())?;
    fill(
        out,
        GETTERS,
        &GETTERS_HOLES,
        &[predicate.as_str(), getters.as_str()],
    )
}
