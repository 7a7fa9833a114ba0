ghost use Rattle.std.specs.Prelude.{◌≡◌, ◌++◌, OnOk, string_bytes};
ghost use Rattle.meta_rust_text.specs.FlagsText.{flags_text, flags_used_text};

use meta_settings::SettingGroup;
use meta_text::fill;
use std::alloc::{AllocError, Global};

/// The flags of a group, whose settings take a given count of bytes, with their constructor and the function `iter` (`gen_group`,
/// `gen_constructor` and `gen_iterator`).
const FLAGS: &str = "#[derive(Clone, PartialEq, Hash)]
/// Flags group `$group$`.
pub struct Flags {
    bytes: [u8; $size$],
}
impl Flags {
    /// Create flags $group$ settings group.
    #[allow(unused_variables, reason = \"generated code\")]
    pub fn new($arguments$) -> Self {
        let bvec = builder.state_for(\"$group$\");
        let mut $group$ = Self { bytes: [0; $size$] };
        debug_assert_eq!(bvec.len(), $size$);
        $group$.bytes[0..$size$].copy_from_slice(&bvec);
        $group$
    }
}
impl Flags {
    /// Iterates the setting values.
    pub fn iter(&self) -> impl Iterator<Item = Value> + use<> {
        let mut bytes = [0; $size$];
        bytes.copy_from_slice(&self.bytes[0..$size$]);
        DESCRIPTORS.iter().filter_map(move |d| {
            let values = match &d.detail {
                detail::Detail::Preset => return None,
                detail::Detail::Enum { last, enumerators } => Some(TEMPLATE.enums(*last, *enumerators)),
                _ => None
            }
            ;
            Some(Value { name: d.name, detail: d.detail, values, value: bytes[d.offset as usize] })
        }
        )
    }
}
";

const FLAGS_HOLES: [&str; 3] = ["group", "arguments", "size"];

/// How the flags of a group are built, shown and hashed (the function `builder` of `gen_template`, `gen_display` and
/// `gen_hash_key`).
const FLAGS_USED: &str = "/// Create a `settings::Builder` for the $group$ settings group.
pub fn builder() -> Builder {
    Builder::new(&TEMPLATE)
}
impl fmt::Display for Flags {
    fn fmt(&self, f: &mut fmt::Formatter) -> fmt::Result {
        writeln!(f, \"[$group$]\")?;
        for d in &DESCRIPTORS {
            if !d.detail.is_preset() {
                write!(f, \"{} = \", d.name)?;
                TEMPLATE.format_toml_value(d.detail, self.bytes[d.offset as usize], f)?;
                writeln!(f)?;
            }
        }
        Ok(())
    }
}
impl Flags {
    /// Get the flag values as raw bytes for hashing.
    pub fn hash_key(&self) -> &[u8] {
        &self.bytes
    }
}
";

const FLAGS_USED_HOLES: [&str; 1] = ["group"];

#[tactic(auto, using(crate::proofs::SettingTemplates::flags_same))]
pub(crate) fn push_flags(
    alloc: Global,
    out: &mut String,
    group: &SettingGroup,
    arguments: &str,
) -> Result<(), AllocError>
    ensures { OnOk result (string_bytes out.new ≡ string_bytes out.old
        ++ flags_text group.now.name arguments.now group.now.settings_size) }
{
    let size = group.settings_size().to_string(alloc)?;
    fill(
        out,
        FLAGS,
        &FLAGS_HOLES,
        &[group.name().as_str(), arguments, size.as_str()],
    )
}

#[tactic(auto, using(crate::proofs::SettingTemplates::flags_used_same))]
pub(crate) fn push_flags_used(out: &mut String, group: &str) -> Result<(), AllocError>
    ensures { OnOk result (string_bytes out.new ≡ string_bytes out.old ++ flags_used_text group.now) }
{
    fill(out, FLAGS_USED, &FLAGS_USED_HOLES, &[group])
}
