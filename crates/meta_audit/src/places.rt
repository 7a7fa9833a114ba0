ghost use Rattle.std.specs.Prelude.{◌≡◌, ◌↔◌, ℕ, Option, IsTrue, IfSome};
ghost use Rattle.meta_inst.specs.Which.{both};
ghost use Rattle.meta_inst.specs.Tables.{ControlNumberFits};
ghost use Rattle.meta_inst.specs.Controls.{which_of};
ghost use Rattle.meta_types.specs.TypeNumber.{IsTypeNumber};
ghost use Rattle.meta_gen.specs.WellFormedOpcodes.{IsWellFormedOpcodes};
ghost use Rattle.meta_audit.specs.Comparison.{SameNumbers, SamePlace, paired};

use super::controls::{END, LEAST, some_control};
use super::forms::{have_one_form, reads_at};
use meta_gen::{OpcodeTables, Which};

/// Two tables, and a place of an operand constraint in each.
#[derive(Clone, Copy)]
pub(crate) struct Places<'t> {
    pub(crate) own: &'t OpcodeTables,
    pub(crate) other: &'t OpcodeTables,
    pub(crate) at: usize,
    pub(crate) other_at: usize,
}

impl<'t> Places<'t> {
    /// Whether under these numbers of the controls, which are those of types, the same numbers pass at both places.
    fn same_numbers(self, ctrl: Option<u16>, second: Option<u16>) -> bool
        requires own { IsWellFormedOpcodes self.own.now }
        requires other { IsWellFormedOpcodes self.other.now }
        requires ctrl { IfSome ctrl IsTypeNumber }
        requires second { IfSome second IsTypeNumber }
        ensures { IsTrue result ↔ SameNumbers self.entry.own.now self.entry.other.now (both ctrl second) self.entry.at self.entry.other_at }
    {
        for n in LEAST..END {
            if self.own.operand_passes(ctrl, second, self.at, n)
                != self.other.operand_passes(ctrl, second, self.other_at, n)
            {
                return false;
            }
        }
        true
    }

    /// The same under this number of the control `which`, and the number `beside` of the other control.
    fn same_beside(self, which: Which, number: Option<u16>, beside: Option<u16>) -> bool
        requires own { IsWellFormedOpcodes self.own.now }
        requires other { IsWellFormedOpcodes self.other.now }
        requires number { IfSome number IsTypeNumber }
        requires beside { IfSome beside IsTypeNumber }
        ensures { IsTrue result ↔ SameNumbers self.entry.own.now self.entry.other.now
            (paired (which_of which) number beside) self.entry.at self.entry.other_at }
    {
        match which {
            Which::First => self.same_numbers(number, beside),
            Which::Second => self.same_numbers(beside, number),
        }
    }

    /// The same under each number of the control `which`. `offset` is its offset in the own tables.
    fn same_under_each(self, which: Which, offset: u16, beside: Option<u16>) -> bool
        requires own { IsWellFormedOpcodes self.own.now }
        requires other { IsWellFormedOpcodes self.other.now }
        requires beside { IfSome beside IsTypeNumber }
        ensures { IsTrue result ↔ ((c : Option ℕ) → ControlNumberFits self.entry.own.now offset c
            → SameNumbers self.entry.own.now self.entry.other.now (paired (which_of which) c beside) self.entry.at self.entry.other_at) }
    {
        if self.own.control_fits(offset, None) {
            return self.same_beside(which, None, beside);
        }
        for n in LEAST..END {
            if self.own.control_fits(offset, Some(n)) && !self.same_beside(which, Some(n), beside) {
                return false;
            }
        }
        true
    }

    /// The same, where `number` is one of these numbers. It is enough if neither constraint depends on them.
    fn same_under(self, which: Which, offset: u16, number: Option<u16>, beside: Option<u16>) -> bool
        requires own { IsWellFormedOpcodes self.own.now }
        requires other { IsWellFormedOpcodes self.other.now }
        requires fits { ControlNumberFits self.own.now offset number }
        requires beside { IfSome beside IsTypeNumber }
        ensures { IsTrue result ↔ ((c : Option ℕ) → ControlNumberFits self.entry.own.now offset c
            → SameNumbers self.entry.own.now self.entry.other.now (paired (which_of which) c beside) self.entry.at self.entry.other_at) }
    {
        if reads_at(self.own, which, self.at) || reads_at(self.other, which, self.other_at) {
            return self.same_under_each(which, offset, beside);
        }
        self.same_beside(which, number, beside)
    }

    /// Whether the same numbers pass at both places under all numbers of the two controls, which have these offsets in the own tables. A
    /// constraint depends on at most one control, so each control is tried beside one number of the other. If the constraints have one
    /// form, no number is tested.
    pub(crate) fn same(self, first: u16, second: u16) -> bool
        requires own { IsWellFormedOpcodes self.own.now }
        requires other { IsWellFormedOpcodes self.other.now }
        ensures { IsTrue result ↔ SamePlace self.entry.own.now self.entry.other.now first second self.entry.at self.entry.other_at }
    {
        if have_one_form(self.own, self.other, self.at, self.other_at) {
            return true;
        }
        let Some(ctrl) = some_control(self.own, first) else {
            return true;
        };
        let Some(beside) = some_control(self.own, second) else {
            return true;
        };
        if !self.same_under(Which::First, first, ctrl, beside) {
            return false;
        }
        self.same_under(Which::Second, second, beside, ctrl)
    }
}
