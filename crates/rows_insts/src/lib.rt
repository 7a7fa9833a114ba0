//! Reads groups of settings, type sets, type variables, kinds of operands, formats and instructions line by line, and writes what each
//! shows: its text, its parts, whether something may be asked of it, or its first fault. These lines show what only calls can: what a file
//! of declarations can say is a row of the program `rows`. A line that begins with `#` is copied, and each other line has its answer.
#![tactic(auto)]

mod formats;
mod groups;
mod instructions;
mod kinds;
mod named;
mod sets;
mod variables;
mod words;

use groups::Groups;
use instructions::Instructions;
use meta_build::Declarations;
use rows_base::{Trouble, answer_lines};
use std::alloc::{AllocError, Global};

/// Adds the answers to the lines of a subject: `settings` is groups of settings, `sets` is type sets and type variables, and `instructions`
/// is kinds of operands, formats and instructions.
pub fn add_answers(
    alloc: Global,
    subject: &str,
    lines: &str,
    answers: &mut String,
) -> Result<(), AllocError> {
    match subject {
        "settings" => answer_lines(&mut Groups::new(alloc)?, lines, answers),
        "sets" | "instructions" => answer_lines(&mut Instructions::new(alloc), lines, answers),
        _ => answers.push_str("no subject\n"),
    }
}

/// What the lines of a subject declare: `settings` one group, and any other subject instructions with their formats and type variables.
/// `NoCase` if these don't belong together.
pub fn declared(alloc: Global, subject: &str, lines: &str) -> Result<Declarations, Trouble> {
    let mut answers = String::new(alloc);
    if subject == "settings" {
        let mut groups = Groups::new(alloc)?;
        answer_lines(&mut groups, lines, &mut answers)?;
        return groups.declared();
    }
    let mut instructions = Instructions::new(alloc);
    answer_lines(&mut instructions, lines, &mut answers)?;
    instructions.declared()
}
