//! Query lines: the lines of an input, what a line asks, and what tables answer. The tables of declarations answer what the declarations
//! mean.
//!
//! `push_explained` answers lines that ask more: why types are refused, which types an instruction takes, which instructions take given
//! types. `Explainer` does so over declarations.
#![tactic(auto)]

mod answer;
mod explainer;
mod explanation;
mod finding;
mod form;
mod inference;
mod laws;
mod listed;
mod naming;
mod query;
mod question;
mod request;
mod results;
mod setting_line;
mod sought;
mod told;
mod type_lists;
mod why;

pub use answer::{answer_line, push_answers};
pub use explainer::Explainer;
pub use explanation::push_explained;
pub use inference::Inference;
pub use laws::{accepted_as_query, answers_mean, one_explained_output, one_output, one_request};
pub use meta_gen::Reply;
pub use meta_lines::Lines;
pub use query::{Query, asks_one_query};
pub use question::{Question, asks_one_question};
