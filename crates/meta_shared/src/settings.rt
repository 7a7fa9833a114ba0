//! The group of settings that all targets share.
ghost use Rattle.std.specs.Prelude.{◌≡◌, ◌+◌, ◌<◌, ◌^◌, IfOk, OnOk, length, map, take, drop};
ghost use Rattle.meta_settings.specs.GroupDeclaration.{entry_count};
ghost use Rattle.meta_settings.specs.Declaring.{with_setting};
ghost use Rattle.meta_shared.specs.Settings.{texts_of, setting_of, setting_name, setting_names, with_settings};
ghost use Rattle.meta_shared.specs.Settings.{IsSharedGroup};

use meta_settings::SettingGroupBuilder;
use meta_types::Text;
use std::alloc::{AllocError, Global};

/// The kind of a setting: a boolean with its default, an enum with its values, the first of which is the default, or a number with its
/// default.
#[derive(Clone, Copy)]
enum Choice {
    Bool(bool),
    Enum(&'static [&'static str]),
    Num(u8),
}

#[derive(Clone, Copy)]
struct SettingRow {
    name: &'static str,
    choice: Choice,
    description: &'static str,
}

macro_rules! choice {
    (bool $default:literal) => { Choice::Bool($default) };
    (enum $($value:ident)+) => { Choice::Enum(&[$(stringify!($value)),+]) };
    (num $default:literal) => { Choice::Num($default) };
}

/// A table of settings. Each row has the name, the kind with its default or values, and the description.
macro_rules! settings {
    ($($name:ident: $kind:ident($($value:tt)+) $description:literal;)*) => {
        [$(SettingRow { name: stringify!($name), choice: choice!($kind $($value)+), description: $description }),*]
    };
}

/// The first 13 settings, in order of declaration.
static FIRST_SETTINGS: [SettingRow; 13] = settings! {
    regalloc_checker: bool(false) "Enable the symbolic checker for register allocation.";
    regalloc_verbose_logs: bool(false) "Enable verbose debug logs for regalloc2.";
    regalloc_algorithm: enum(backtracking single_pass) "Algorithm to use in register allocator.";
    opt_level: enum(none speed speed_and_size) "Optimization level for generated code.";
    enable_alias_analysis: bool(true) "Do redundant-load optimizations with alias analysis.";
    enable_verifier: bool(true) "Run the Cranelift IR verifier at strategic times during compilation.";
    is_pic: bool(false) "Enable Position-Independent Code generation.";
    use_colocated_libcalls: bool(false) "Use colocated libcalls.";
    enable_nan_canonicalization: bool(false) "Enable NaN canonicalization.";
    enable_pinned_reg: bool(false) "Enable the use of the pinned register.";
    tls_model: enum(none elf_gd macho coff) "Defines the model used to perform TLS accesses.";
    stack_switch_model: enum(none basic update_windows_tib) "Defines the model used to performing stack switching.";
    libcall_call_conv: enum(isa_default fast system_v windows_fastcall apple_aarch64 probestack preserve_all)
        "Defines the calling convention to use for LibCalls call expansion.";
};

fn first_rows() -> &'static [SettingRow]
    ensures { map setting_name result.now ≡ take 13 setting_names }
{
    &FIRST_SETTINGS
}

/// The other 14 settings.
static LAST_SETTINGS: [SettingRow; 14] = settings! {
    enable_llvm_abi_extensions: bool(false) "Enable various ABI extensions defined by LLVM's behavior.";
    enable_multi_ret_implicit_sret: bool(false) "Enable support for sret arg introduction when there are too many ret vals.";
    unwind_info: bool(true) "Generate unwind information.";
    preserve_frame_pointers: bool(false) "Preserve frame pointers";
    machine_code_cfg_info: bool(false) "Generate CFG metadata for machine code.";
    enable_probestack: bool(false) "Enable the use of stack probes for supported calling conventions.";
    probestack_size_log2: num(12) "The log2 of the size of the stack guard region.";
    probestack_strategy: enum(outline inline) "Controls what kinds of stack probes are emitted.";
    enable_heap_access_spectre_mitigation: bool(true) "Enable Spectre mitigation on heap bounds checks.";
    enable_table_access_spectre_mitigation: bool(true) "Enable Spectre mitigation on table bounds checks.";
    enable_incremental_compilation_cache_checks: bool(false) "Enable additional checks for debugging the incremental compilation cache.";
    bb_padding_log2_minus_one: num(0) "The log2 of the size to insert dummy padding between basic blocks";
    log2_min_function_alignment: num(0) "The log2 of the minimum alignment of functions";
    enable_compact_unwind_abi: bool(false) "Enable Mach-O compact unwind compatible code emission.";
};

fn last_rows() -> &'static [SettingRow]
    ensures { map setting_name result.now ≡ drop 13 setting_names }
{
    &LAST_SETTINGS
}

fn texts(alloc: Global, values: &[&str]) -> Result<Vec<Text>, AllocError>
    ensures { IfOk result (λ v. v.items ≡ texts_of values.now) }
{
    let mut texts = Vec::new(alloc);
    for value in values {
        texts.push(Text::new(alloc, value)?)?;
    }
    Ok(texts)
}

fn add_setting(
    alloc: Global,
    group: &mut SettingGroupBuilder,
    row: &SettingRow,
) -> Result<(), AllocError>
    requires { entry_count group.old + 1 < 2 ^ 32 }
    ensures { OnOk result (group.new ≡ with_setting group.old (setting_of row.now)) }
{
    let name = Text::new(alloc, row.name)?;
    let description = Text::new(alloc, row.description)?;
    let comment = Text::new(alloc, "")?;
    match row.choice {
        Choice::Bool(default) => {
            group.add_bool(name, description, comment, default)?;
            Ok(())
        }
        Choice::Enum(values) => {
            group.add_enum(name, description, comment, texts(alloc, values)?)
        }
        Choice::Num(default) => group.add_num(name, description, comment, default),
    }
}

fn add_settings(
    alloc: Global,
    group: &mut SettingGroupBuilder,
    rows: &[SettingRow],
) -> Result<(), AllocError>
    requires { entry_count group.old + length rows.now < 2 ^ 32 }
    ensures { OnOk result (group.new ≡ with_settings group.old (map setting_of rows.now)) }
{
    for row in rows {
        add_setting(alloc, group, row)?;
    }
    Ok(())
}

/// Declares the group `shared` with its 27 settings.
pub fn define(alloc: Global) -> Result<SettingGroupBuilder, AllocError>
    ensures { IfOk result IsSharedGroup }
{
    let mut group = SettingGroupBuilder::new(alloc, Text::new(alloc, "shared")?);
    add_settings(alloc, &mut group, first_rows())?;
    add_settings(alloc, &mut group, last_rows())?;
    Ok(group)
}
