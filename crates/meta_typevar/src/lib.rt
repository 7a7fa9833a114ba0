//! Type sets and type variables.
//!
//! A contract sees a type set as four sets of numbers: lane counts, dynamic lane counts, integer widths and float widths. It sees a
//! registry as the list of what is kept of each variable.
#![tactic(auto)]

mod builder;
mod chain;
mod children;
mod content;
mod fixed;
mod interval;
mod laws;
mod listing;
mod masks;
mod part_numbers;
mod registry;
mod type_set;
mod typevar;

pub use builder::TypeSetBuilder;
pub use content::{TypeVarContent, TypeVarParent};
pub use interval::{Interval, Part};
pub use laws::{equal_sets, equal_variables};
pub use masks::Masks;
pub use registry::TypeVars;
pub use type_set::TypeSet;
pub use typevar::TypeVar;
