ghost use Rattle.std.specs.Prelude.{◌≡◌, ◌↔◌, ◌≤◌, ℕ, IsTrue, IfSome, IfNone, take, drop};
ghost use Rattle.meta_types.specs.DerivedFunc.{function_of};
ghost use Rattle.meta_inst.specs.Which.{First, Second, both};
ghost use Rattle.meta_inst.specs.Controls.{which_of};
ghost use Rattle.meta_inst.specs.Inference.{GivesBy, GivesNumber};
ghost use Rattle.meta_inst.specs.Tables.{ByNumber, result_count, value_count, SaysDesignated, SaysDiffers};
ghost use Rattle.meta_gen.specs.Constraint.{number_constraint_of};
ghost use Rattle.meta_gen.specs.Demand.{number_constraint_demanded};

use meta_inst::Which;
use meta_types::DerivedFunc;

/// The type set offset that says that an opcode has no control, or no second control.
pub const NO_TYPE_SET: u16 = 65535;

/// The constraints from `place` on, `count` of them, or all that are left if there are fewer.
pub fn constraints_from(constraints: &[Constraint], place: usize, count: usize) -> &[Constraint]
    ensures { result.now ≡ take count (drop place constraints.now) }
{
    let after = &constraints[constraints.len().min(place)..];
    &after[..after.len().min(count)]
}

/// What the type of an operand has to be, by the number of the type (in the crate `OperandConstraint` of the code that it writes).
#[derive(Clone, Copy, Debug, PartialEq, Eq)]
pub enum Constraint {
    /// The type with this number.
    Concrete(u16),
    /// Any type of the type set at this place.
    Free(u16),
    /// The controlling type.
    Same,
    /// The lane of the controlling type.
    LaneOf,
    /// What a comparison of values of the controlling type gives.
    AsTruthy,
    /// The controlling type with lanes of half the width.
    HalfWidth,
    /// The controlling type with lanes of twice the width.
    DoubleWidth,
    /// The controlling type with twice the lanes, each of half the width.
    SplitLanes,
    /// The controlling type with half the lanes, each of twice the width.
    MergeLanes,
    /// The fixed vector of the controlling type.
    DynamicToVector,
    /// A scalar of the controlling type's kind, with fewer bits.
    Narrower,
    /// A scalar of the controlling type's kind, with more bits.
    Wider,
    /// The second controlling type.
    Same2,
    /// The lane of the second controlling type.
    LaneOf2,
    /// What a comparison of values of the second controlling type gives.
    AsTruthy2,
    /// The second controlling type with lanes of half the width.
    HalfWidth2,
    /// The second controlling type with lanes of twice the width.
    DoubleWidth2,
    /// The second controlling type with twice the lanes, each of half the width.
    SplitLanes2,
    /// The second controlling type with half the lanes, each of twice the width.
    MergeLanes2,
    /// The fixed vector of the second controlling type.
    DynamicToVector2,
    /// A scalar of the second controlling type's kind, with fewer bits.
    Narrower2,
    /// A scalar of the second controlling type's kind, with more bits.
    Wider2,
}

/// The two constraints that ask for what the function gives: of the controlling type, and of the second one.
fn by_function(derived_func: DerivedFunc) -> (Constraint, Constraint)
    ensures first { number_constraint_of result.0 ≡ ByNumber First (function_of derived_func) }
    ensures second { number_constraint_of result.1 ≡ ByNumber Second (function_of derived_func) }
{
    match derived_func {
        DerivedFunc::LaneOf => (Constraint::LaneOf, Constraint::LaneOf2),
        DerivedFunc::AsTruthy => (Constraint::AsTruthy, Constraint::AsTruthy2),
        DerivedFunc::HalfWidth => (Constraint::HalfWidth, Constraint::HalfWidth2),
        DerivedFunc::DoubleWidth => (Constraint::DoubleWidth, Constraint::DoubleWidth2),
        DerivedFunc::SplitLanes => (Constraint::SplitLanes, Constraint::SplitLanes2),
        DerivedFunc::MergeLanes => (Constraint::MergeLanes, Constraint::MergeLanes2),
        DerivedFunc::DynamicToVector => (Constraint::DynamicToVector, Constraint::DynamicToVector2),
        DerivedFunc::Narrower => (Constraint::Narrower, Constraint::Narrower2),
        DerivedFunc::Wider => (Constraint::Wider, Constraint::Wider2),
    }
}

impl From<Demand> for Constraint {
    ghost use Rattle.std.specs.Prelude.{◌≡◌};
    ghost use Rattle.meta_gen.specs.Constraint.{number_constraint_of};
    ghost use Rattle.meta_gen.specs.Demand.{number_constraint_demanded};

    ghost from_gives = { λ demand result. number_constraint_of result ≡ number_constraint_demanded demand };

    /// The constraint that makes this demand. There is one for each demand, and `demanded` leads back.
    fn from(demand: Demand) -> Constraint {
        match demand {
            Demand::Number(number) => Constraint::Concrete(number),
            Demand::OfSet(set) => Constraint::Free(set),
            Demand::Controlling(Which::First) => Constraint::Same,
            Demand::Controlling(Which::Second) => Constraint::Same2,
            Demand::By(Which::First, derived_func) => by_function(derived_func).0,
            Demand::By(Which::Second, derived_func) => by_function(derived_func).1,
        }
    }
}

impl Constraint {
    /// What the constraint demands of the number of a type.
    pub fn demanded(self) -> Demand
        ensures { number_constraint_demanded result ≡ number_constraint_of self }
    {
        match self {
            Constraint::Concrete(number) => Demand::Number(number),
            Constraint::Free(set) => Demand::OfSet(set),
            Constraint::Same => Demand::Controlling(Which::First),
            Constraint::Same2 => Demand::Controlling(Which::Second),
            Constraint::LaneOf => Demand::By(Which::First, DerivedFunc::LaneOf),
            Constraint::AsTruthy => Demand::By(Which::First, DerivedFunc::AsTruthy),
            Constraint::HalfWidth => Demand::By(Which::First, DerivedFunc::HalfWidth),
            Constraint::DoubleWidth => Demand::By(Which::First, DerivedFunc::DoubleWidth),
            Constraint::SplitLanes => Demand::By(Which::First, DerivedFunc::SplitLanes),
            Constraint::MergeLanes => Demand::By(Which::First, DerivedFunc::MergeLanes),
            Constraint::DynamicToVector => Demand::By(Which::First, DerivedFunc::DynamicToVector),
            Constraint::Narrower => Demand::By(Which::First, DerivedFunc::Narrower),
            Constraint::Wider => Demand::By(Which::First, DerivedFunc::Wider),
            Constraint::LaneOf2 => Demand::By(Which::Second, DerivedFunc::LaneOf),
            Constraint::AsTruthy2 => Demand::By(Which::Second, DerivedFunc::AsTruthy),
            Constraint::HalfWidth2 => Demand::By(Which::Second, DerivedFunc::HalfWidth),
            Constraint::DoubleWidth2 => Demand::By(Which::Second, DerivedFunc::DoubleWidth),
            Constraint::SplitLanes2 => Demand::By(Which::Second, DerivedFunc::SplitLanes),
            Constraint::MergeLanes2 => Demand::By(Which::Second, DerivedFunc::MergeLanes),
            Constraint::DynamicToVector2 => Demand::By(Which::Second, DerivedFunc::DynamicToVector),
            Constraint::Narrower2 => Demand::By(Which::Second, DerivedFunc::Narrower),
            Constraint::Wider2 => Demand::By(Which::Second, DerivedFunc::Wider),
        }
    }
}

/// The number that the function gives of the number of a control: 0 for a relation. `None` if there is no such control, or the function
/// doesn't lead to a type.
fn given_by(from: Option<u16>, derived_func: DerivedFunc) -> Option<u16>
    ensures some { IfSome result (λ n. GivesBy from (function_of derived_func) n) }
    ensures none { IfNone result ((n : ℕ) → ¬ GivesBy from (function_of derived_func) n) }
{
    if derived_func.is_relation() {
        return Some(0);
    }
    derived_func.apply_number(from?)
}

/// The number that a constraint gives for a result under these controlling numbers: 0 if several types are left, and `None` if no type
/// meets it.
pub(crate) fn given(controls: ControlNumbers, constraint: Constraint) -> Option<u16>
    ensures some { IfSome result (λ n. GivesNumber (both controls.ctrl controls.second) (number_constraint_of constraint) n) }
    ensures none { IfNone result ((n : ℕ) → ¬ GivesNumber (both controls.ctrl controls.second) (number_constraint_of constraint) n) }
{
    match constraint.demanded() {
        Demand::Number(number) => Some(number),
        Demand::OfSet(_) => Some(0),
        Demand::Controlling(which) => controls.of(which),
        Demand::By(which, derived_func) => given_by(controls.of(which), derived_func),
    }
}

/// What a constraint demands of the number of a type.
#[derive(Clone, Copy, Debug, PartialEq, Eq)]
pub enum Demand {
    /// The type has this number.
    Number(u16),
    /// The type set at this place contains the type.
    OfSet(u16),
    /// The type is this controlling type.
    Controlling(Which),
    /// The function leads to the type from this controlling type.
    By(Which, DerivedFunc),
}

#[derive(Clone, Copy)]
pub(crate) struct ControlNumbers {
    /// The number of the controlling type.
    pub(crate) ctrl: Option<u16>,
    /// The number of the second controlling type.
    pub(crate) second: Option<u16>,
}

impl ControlNumbers {
    pub(crate) fn of(self, which: Which) -> Option<u16>
        ensures { result ≡ both self.ctrl self.second (which_of which) }
    {
        match which {
            Which::First => self.ctrl,
            Which::Second => self.second,
        }
    }
}

/// The four numbers that tables hold for an opcode (in the crate `OpcodeConstraints` of the code that it writes).
#[derive(Clone, Copy, Debug, PartialEq, Eq)]
pub struct OpcodeConstraints {
    /// Bits 0 to 2: the count of value results. Bit 3: the designated value's variable is the control. Bit 4: it is, and the first result
    /// doesn't have the same variable. Bits 5 to 7: the count of value inputs.
    pub flags: u8,
    /// The place of the control's type set, or 65,535 if there is no control.
    pub typeset_offset: u16,
    /// The place of the second control's type set, or 65,535 if there is no second control.
    pub second_offset: u16,
    /// The place of the opcode's first operand constraint in the one list. Those of the results stand before those of the inputs.
    pub constraint_offset: u16,
}

impl OpcodeConstraints {
    /// How many value results there are, at most 7.
    pub fn result_count(self) -> usize
        ensures count { result ≡ result_count self.flags }
        ensures few { result ≤ 7 }
    {
        (self.flags % 8) as usize
    }

    /// Whether the designated value's variable is the control.
    pub fn designated_controls(self) -> bool
        ensures { IsTrue result ↔ SaysDesignated self.flags }
    {
        self.flags / 8 % 2 == 1
    }

    /// Whether the designated value's variable is the control, and the first result doesn't have that variable.
    pub fn first_result_differs(self) -> bool
        ensures { IsTrue result ↔ SaysDiffers self.flags }
    {
        self.flags / 16 % 2 == 1
    }

    /// How many value inputs there are, at most 7.
    pub fn value_count(self) -> usize
        ensures count { result ≡ value_count self.flags }
        ensures few { result ≤ 7 }
    {
        (self.flags / 32 % 8) as usize
    }
}
