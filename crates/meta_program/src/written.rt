ghost use Rattle.std.specs.Prelude.{◌≡◌, IfOk, length, string_bytes};
ghost use Rattle.meta_program.specs.TablesIn.{version_word, limits_of, unfit_line, AreShownIn, IsShownIn};
ghost use Rattle.meta_program.specs.Counts.{entries_in, laid_entries_in, check_line, IsCheckLine};
ghost use Rattle.meta_program.specs.Described.{undescribed_line, AreDescribed};

use meta_build::Built;
use meta_file_describe::write_description;
use meta_gen::{Tables, tables_of};
use meta_run::Answer;
use meta_settings::SettingGroup;
use meta_table_text::{Version, fits, table_text};
use std::alloc::{AllocError, Global};

fn word_of(version: Version) -> &'static str
    ensures { result.now ≡ version_word version }
{
    match version {
        Version::One => "1",
        Version::Two => "2",
        Version::Three => "3",
    }
}

fn limits_of(version: Version) -> &'static str
    ensures { result.now ≡ limits_of version }
{
    match version {
        Version::One => "at most 255 opcodes and 255 type sets, and no second control",
        Version::Two => "at most 255 opcodes and 255 type sets",
        Version::Three => "all tables",
    }
}

fn unfit(alloc: Global, version: Version) -> Result<String, AllocError>
    ensures { IfOk result (λ out. string_bytes out ≡ unfit_line version) }
{
    let (number, limits) = (word_of(version), limits_of(version));
    format!(in alloc; "unfit: version {number} holds {limits}\n")
}

/// The text of the tables in the version if they fit it, and else, as a rejection, that they don't.
fn shown(alloc: Global, version: Version, tables: &Tables) -> Result<Answer, AllocError>
    ensures { IfOk result (λ answer. AreShownIn version tables.now answer.is_rejection (string_bytes answer.text)) }
{
    if !fits(version, tables) {
        return Ok(Answer {
            text: unfit(alloc, version)?,
            is_rejection: true,
        });
    }
    Ok(Answer {
        text: table_text(alloc, version, tables)?,
        is_rejection: false,
    })
}

/// The same for the tables of what was built of declarations.
pub(crate) fn shown_in(
    alloc: Global,
    version: Version,
    built: &Built<'_>,
) -> Result<Answer, AllocError>
    ensures { IfOk result (λ answer. IsShownIn version built.now.declared answer.is_rejection (string_bytes answer.text)) }
{
    shown(alloc, version, &tables_of(alloc, built)?)
}

#[derive(Clone, Copy)]
struct Counts {
    instructions: usize,
    formats: usize,
    type_sets: usize,
    constraints: usize,
    entries: u128,
}

/// How many settings and presets the groups have together. A group has fewer than 2^64 of them, and there are fewer than 2^64 groups.
fn entry_count(groups: &[SettingGroup]) -> u128
    ensures { result ≡ laid_entries_in groups.now }
{
    let mut count = 0;
    for group in groups {
        let entries = group.settings().len() + group.presets().len();
        count += entries as u128;
    }
    count
}

impl Counts {
    #[tactic(auto, unfolding(crate::specs::Counts::check_line))]
    fn line(&self, alloc: Global) -> Result<String, AllocError>
        ensures { IfOk result (λ text. string_bytes text ≡ check_line self.now.instructions self.now.formats
            self.now.type_sets self.now.constraints self.now.entries) }
    {
        let instructions = self.instructions;
        let formats = self.formats;
        let type_sets = self.type_sets;
        let constraints = self.constraints;
        let entries = self.entries;
        format!(in alloc;
            "ok: {instructions} instructions, {formats} formats, {type_sets} type sets, {constraints} constraints, \
            {entries} settings and presets\n"
        )
    }
}

#[tactic(auto, using(crate::proofs::Counted::entries_built))]
fn counts_of(built: &Built<'_>, tables: &Tables) -> Counts
    ensures instructions { result.instructions ≡ length built.now.declared.set.instructions }
    ensures formats { result.formats ≡ length built.now.declared.set.formats }
    ensures type_sets { result.type_sets ≡ length tables.now.opcodes.type_sets }
    ensures constraints { result.constraints ≡ length tables.now.opcodes.operand_constraints }
    ensures entries { result.entries ≡ entries_in built.now.declared.groups }
{
    let declarations = built.declarations();
    Counts {
        instructions: declarations.instructions().len(),
        formats: declarations.formats().len(),
        type_sets: tables.type_sets().len(),
        constraints: tables.operand_constraints().len(),
        entries: entry_count(built.groups()),
    }
}

/// How much of each kind there is in what was built of declarations, as `check` writes it.
#[tactic(auto, using(crate::proofs::Counted::counted))]
pub(crate) fn counted(alloc: Global, built: &Built<'_>) -> Result<String, AllocError>
    ensures { IfOk result (λ line. IsCheckLine built.now.declared (string_bytes line)) }
{
    let tables = tables_of(alloc, built)?;
    let counts = counts_of(built, &tables);
    counts.line(alloc)
}

/// The line that no file of the form describes the declarations.
fn undescribed(alloc: Global) -> Result<String, AllocError>
    ensures { IfOk result (λ line. string_bytes line ≡ undescribed_line) }
{
    String::from_str(
        alloc,
        "undescribed: no file of this form declares the same\n",
    )
}

/// The declarations as the text of a file, and a rejection if there is no such text.
pub(crate) fn described(alloc: Global, built: &Built<'_>) -> Result<Answer, AllocError>
    ensures { IfOk result (λ answer. AreDescribed built.now.declared answer.is_rejection (string_bytes answer.text)) }
{
    match write_description(alloc, built)? {
        Some(text) => Ok(Answer {
            text,
            is_rejection: false,
        }),
        None => Ok(Answer {
            text: undescribed(alloc)?,
            is_rejection: true,
        }),
    }
}
