ghost use Rattle.std.specs.Prelude.{◌≡◌, ◌≢◌, Some};
ghost use Rattle.meta_types.specs.declared.derived_func.DerivedFunc.{DerivedFunc};
ghost use Rattle.meta_typevar.specs.Children.{child_of, no_children};

use meta_types::DerivedFunc;

/// The numbers of the variables that are derived from one variable, by their functions.
#[derive(Drop)]
pub(crate) struct Children {
    lane_of: Option<u32>,
    as_truthy: Option<u32>,
    half_width: Option<u32>,
    double_width: Option<u32>,
    split_lanes: Option<u32>,
    merge_lanes: Option<u32>,
    dynamic_to_vector: Option<u32>,
    narrower: Option<u32>,
    wider: Option<u32>,
}

impl Children {
    pub(crate) fn new() -> Children
        ensures { result ≡ no_children }
    {
        Children {
            lane_of: None,
            as_truthy: None,
            half_width: None,
            double_width: None,
            split_lanes: None,
            merge_lanes: None,
            dynamic_to_vector: None,
            narrower: None,
            wider: None,
        }
    }

    pub(crate) fn get(&self, derived_func: DerivedFunc) -> Option<u32>
        ensures { result ≡ child_of self.now derived_func }
    {
        match derived_func {
            DerivedFunc::LaneOf => self.lane_of,
            DerivedFunc::AsTruthy => self.as_truthy,
            DerivedFunc::HalfWidth => self.half_width,
            DerivedFunc::DoubleWidth => self.double_width,
            DerivedFunc::SplitLanes => self.split_lanes,
            DerivedFunc::MergeLanes => self.merge_lanes,
            DerivedFunc::DynamicToVector => self.dynamic_to_vector,
            DerivedFunc::Narrower => self.narrower,
            DerivedFunc::Wider => self.wider,
        }
    }

    pub(crate) fn set(&mut self, derived_func: DerivedFunc, number: u32)
        ensures this { child_of self.new derived_func ≡ Some number }
        ensures others { (f : DerivedFunc) → f ≢ derived_func → child_of self.new f ≡ child_of self.old f }
    {
        let child = Some(number);
        match derived_func {
            DerivedFunc::LaneOf => self.lane_of = child,
            DerivedFunc::AsTruthy => self.as_truthy = child,
            DerivedFunc::HalfWidth => self.half_width = child,
            DerivedFunc::DoubleWidth => self.double_width = child,
            DerivedFunc::SplitLanes => self.split_lanes = child,
            DerivedFunc::MergeLanes => self.merge_lanes = child,
            DerivedFunc::DynamicToVector => self.dynamic_to_vector = child,
            DerivedFunc::Narrower => self.narrower = child,
            DerivedFunc::Wider => self.wider = child,
        }
    }
}
