//! Declarations, their first fault, and what is built of them.
//!
//! `build_all` refuses `Declarations` by their first fault, or answers what is built of them.
#![tactic(auto)]

mod built;
mod declarations;
mod declared_set;
mod formats;
mod formats_in_use;
mod instructions;
mod laws;
mod needed;

pub use built::{Built, MAX_OPCODES, MAX_TYPE_SETS, build_all};
pub use declarations::Declarations;
pub use laws::{one_built, one_first_fault};
