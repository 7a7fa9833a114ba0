ghost use Rattle.std.specs.Prelude.{◌≡◌, ◌↔◌, IsTrue};

use meta_setting_tables::GroupTables;

pub(crate) fn same_groups(one: &[GroupTables], other: &[GroupTables]) -> bool
    ensures { IsTrue result ↔ (one.now ≡ other.now) }
{
    if one.len() != other.len() {
        return false;
    }
    for k in 0..one.len() {
        if !one[k].same(&other[k]) {
            return false;
        }
    }
    true
}
