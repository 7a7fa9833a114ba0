ghost use Rattle.std.specs.Prelude.{◌≡◌, ◌≤◌, length};
ghost use Rattle.meta_setting_tables.specs.WellFormed.{own_byte_count, described_boolean_count};
ghost use Rattle.meta_setting_tables.specs.Shape.{IsShapeOf};

use super::descriptor::Descriptor;

/// How many entries of each kind a group has.
#[derive(Drop)]
pub(crate) struct Shape {
    /// The count of enums and numbers, which have a byte each.
    pub own_bytes: usize,
    /// The count of booleans.
    pub booleans: usize,
    /// The count of presets.
    pub presets: usize,
    /// The count of bytes that the settings take. Eight booleans share a byte.
    pub bytes: usize,
}

fn own_bytes_in(entries: &[Descriptor]) -> usize
    ensures { result ≡ own_byte_count entries.now }
{
    entries
        .iter()
        .filter(|entry| entry.detail.has_own_byte())
        .count()
}

fn booleans_in(entries: &[Descriptor]) -> usize
    ensures { result ≡ described_boolean_count entries.now }
{
    entries
        .iter()
        .filter(|entry| entry.detail.is_boolean())
        .count()
}

impl Shape {
    #[tactic(auto, using(crate::proofs::Inside::all_kinds))]
    pub(crate) fn of(entries: &[Descriptor]) -> Shape
        requires { length entries.now ≤ 65535 }
        ensures { IsShapeOf entries.now result }
    {
        let own_bytes = own_bytes_in(entries);
        let booleans = booleans_in(entries);
        Shape {
            own_bytes,
            booleans,
            presets: entries.len() - own_bytes - booleans,
            bytes: own_bytes + (booleans + 7) / 8,
        }
    }
}
