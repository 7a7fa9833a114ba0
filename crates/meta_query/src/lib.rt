//! The commands over declarations: `run` reads the input of a command and writes its output.
//!
//! `query` answers each line of the input. `recheck` reads the text of tables and answers by them. `synth` sums up the tables of
//! declarations that are made from a number: the call `synth` makes them, which are valid, and `summary` says in one line what their tables
//! hold. The others write a text. What tables answer is in `meta_query_lines`; all its names but `answers_mean` are also here.
#![tactic(auto)]

mod command;
mod counting;
mod formats;
mod generator;
mod instructions;
mod laws;
mod output;
mod queries;
mod recheck;
mod report;
mod running;
mod seed;
mod shape;
mod synthesis;
mod values;

pub use command::Command;
pub use generator::synth;
pub use laws::{
    one_command, one_cut, one_output_of_a_command, one_summary, one_synth, synth_is_valid,
    text_of_tables_stays_whole,
};
pub use meta_query_lines::{
    Inference, Lines, Query, Question, Reply, answer_line, asks_one_query, asks_one_question,
    one_output, push_answers,
};
pub use meta_run::Ending as Status;
pub use report::summary;
pub use running::run;
pub use shape::Shape;
