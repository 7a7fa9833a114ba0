//! A checker of lists of typed lines: each line is a parameter, or an instruction applied to values.
//!
//! `Checker` keeps which values are defined, and of which types, and says of each line whether it is right by tables, or why it is wrong.
//! `verify` says the same for a whole input, over declarations.
#![tactic(auto)]

mod answers;
mod checker;
mod defined;
mod known;
mod laws;
mod lists;
mod mistake;
mod reason;
mod refusal;
mod statement;
mod verdict;
mod verifier;

pub use answers::{accepted, rejection};
pub use checker::Checker;
pub use laws::{
    explained_verdicts_are_verdicts, mistakes_mean, one_answer, one_mistake, one_statement,
    one_verdict, types_stay_named, verdicts_mean,
};
pub use meta_run::Ending as VerifyStatus;
pub use reason::Reason;
pub use statement::{Application, Statement, TypedNumber};
pub use verdict::{WrongLine, explained_line, told_line, wrong_line};
pub use verifier::{Explaining, Verifier, verify};
