ghost use Rattle.std.specs.Prelude.{◌≡◌, ◌↔◌, IsTrue, IfSome, IfNone, Some};
ghost use Rattle.meta_inst.specs.Which.{First, Second, both};
ghost use Rattle.meta_inst.specs.Controls.{which_of, IsOneOf};

use meta_typevar::TypeVar;
use std::marker::Model;

/// One of the two controls that an instruction can have.
#[derive(Clone, Copy, Debug, PartialEq, Eq)]
pub enum Which {
    /// The control. Its type is the controlling type.
    First,
    /// The second control. Its type is the second controlling type.
    Second,
}

/// The control and the second control of an instruction, if it has them.
#[derive(Clone, Copy)]
pub struct Controls {
    first: Option<TypeVar>,
    second: Option<TypeVar>,
}

impl Model for Controls {
    ghost use Rattle.std.specs.Prelude.{ℕ, Option};
    ghost use Rattle.meta_inst.specs.Which.{Which, First, Second, both, controls_code};

    ghost Value = { Which → Option ℕ };

    ghost coded = { controls_code };

    ghost view = { λ c. both c.first c.second };

    ghost inverse = { λ f. record { first = f First; second = f Second } };
}

fn is_named(control: &Option<TypeVar>, tv: TypeVar) -> bool
    ensures { IsTrue result ↔ (control.now ≡ Some tv) }
{
    match control {
        Some(v) => *v == tv,
        None => false,
    }
}

impl Controls {
    pub(crate) fn new(first: Option<TypeVar>, second: Option<TypeVar>) -> Controls
        ensures { result ≡ both first second }
    {
        Controls { first, second }
    }

    /// The control that `which` names, if the instruction has it.
    pub fn get(&self, which: Which) -> &Option<TypeVar>
        ensures { result.now ≡ self.now (which_of which) }
    {
        match which {
            Which::First => &self.first,
            Which::Second => &self.second,
        }
    }

    /// Whether the variable is the control.
    pub fn is_first(&self, tv: TypeVar) -> bool
        ensures { IsTrue result ↔ (self.now First ≡ Some tv) }
    {
        is_named(self.get(Which::First), tv)
    }

    /// Whether the variable is the second control.
    pub fn is_second(&self, tv: TypeVar) -> bool
        ensures { IsTrue result ↔ (self.now Second ≡ Some tv) }
    {
        is_named(self.get(Which::Second), tv)
    }

    /// Which of the controls the variable is, the first if it is both. `None` exactly if it is neither.
    pub fn find(&self, tv: TypeVar) -> Option<Which>
        ensures found { IfSome result (λ a. self.now (which_of a) ≡ Some tv) }
        ensures first { self.now First ≡ Some tv → result ≡ Some Which.First }
        ensures none { IfNone result (¬ IsOneOf self.now tv) }
    {
        if self.is_first(tv) {
            return Some(Which::First);
        }
        if self.is_second(tv) {
            return Some(Which::Second);
        }
        None
    }

    /// Whether the variable is one of them.
    pub fn is_control(&self, tv: TypeVar) -> bool
        ensures { IsTrue result ↔ IsOneOf self.now tv }
    {
        self.find(tv).is_some()
    }

    /// Which of the controls the variable is, the first if it is both. It must be one of them.
    pub fn which(&self, tv: TypeVar) -> Which
        requires { IsOneOf self.now tv }
        ensures is { self.now (which_of result) ≡ Some tv }
        ensures first { self.now First ≡ Some tv → result ≡ Which.First }
    {
        if self.is_first(tv) {
            return Which::First;
        }
        Which::Second
    }
}
