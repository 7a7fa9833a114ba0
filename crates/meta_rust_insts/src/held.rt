ghost use Rattle.std.specs.Prelude.{◌≡◌};
ghost use Rattle.std.specs.Option.{option_copied};
ghost use Rattle.meta_rust_insts.specs.Held.{values_of, blocks_of, has_raw_block, values_member, blocks_member};
ghost use Rattle.meta_rust_insts.specs.Held.{raw_block_member, by_values, by_blocks};

use meta_operands::InstructionFormat;

/// How `InstructionData` holds the value inputs of a format.
#[derive(Clone, Copy)]
pub enum Values {
    /// There is no value input.
    Absent,
    /// There is one, which stands alone.
    One,
    /// There are this many, which stand in an array.
    Several(u32),
    /// More may follow, and all stand in a list.
    Listed,
}

/// How `InstructionData` holds the blocks of a format, of which there are at most two.
#[derive(Clone, Copy)]
pub(crate) enum Blocks {
    Absent,
    /// There is one, which stands alone.
    One,
    /// There are two, which stand in an array.
    Two,
}

impl Values {
    /// The name of the member that holds them, if there is one.
    pub(crate) fn member(self) -> Option<&'static str>
        ensures { option_copied result ≡ values_member self }
    {
        match self {
            Values::Absent => None,
            Values::One => Some("arg"),
            Values::Several(_) | Values::Listed => Some("args"),
        }
    }

    /// One of these texts: for one value, for an array of them, or for a list. There is no text if there is no value.
    pub(crate) fn text<'t>(self, one: &'t str, several: &'t str, listed: &'t str) -> &'t str
        ensures { result.now ≡ by_values self one.now several.now listed.now }
    {
        match self {
            Values::Absent => "",
            Values::One => one,
            Values::Several(_) => several,
            Values::Listed => listed,
        }
    }
}

impl Blocks {
    /// The name of the member that holds them, if there is one.
    pub(crate) fn member(self) -> Option<&'static str>
        ensures { option_copied result ≡ blocks_member self }
    {
        match self {
            Blocks::Absent => None,
            Blocks::One => Some("destination"),
            Blocks::Two => Some("blocks"),
        }
    }

    /// One of these texts: for one block, or for two. There is no text if there is no block.
    pub(crate) fn text<'t>(self, one: &'t str, two: &'t str) -> &'t str
        ensures { result.now ≡ by_blocks self one.now two.now }
    {
        match self {
            Blocks::Absent => "",
            Blocks::One => one,
            Blocks::Two => two,
        }
    }
}

/// How the value inputs of a format are held.
pub fn values_of(format: &InstructionFormat) -> Values
    ensures { result ≡ values_of format.now }
{
    if format.has_value_list {
        return Values::Listed;
    }
    match format.num_value_operands {
        0 => Values::Absent,
        1 => Values::One,
        count => Values::Several(count),
    }
}

pub(crate) fn blocks_of(format: &InstructionFormat) -> Blocks
    ensures { result ≡ blocks_of format.now }
{
    match format.num_block_operands {
        0 => Blocks::Absent,
        1 => Blocks::One,
        _ => Blocks::Two,
    }
}

/// The name of the member that holds a block without arguments, if the format has one.
pub(crate) fn raw_block_member(format: &InstructionFormat) -> Option<&'static str>
    ensures { option_copied result ≡ raw_block_member (has_raw_block format.now) }
{
    match format.num_raw_block_operands {
        0 => None,
        _ => Some("block"),
    }
}
