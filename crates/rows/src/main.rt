//! Answers the rows of files of declarations and of the shared declarations. Lines make the text of a file and an input, and ask what words
//! do with them; `Session` has their words. After these rows stand those that only calls of a library can show: a line `%% SUBJECT` begins
//! the lines of a subject. That line, and one that begins with `#`, are copied.
#![tactic(auto)]

mod asking;
mod calls;
mod declared;
mod describing;
mod each;
mod patched;
mod session;
mod unfailing;

use meta_shared::define;
use session::Session;
use std::io::{self, Write};

fn answer_lines(rt: &HostRuntime, lines: &str) -> io::Result<()> {
    let shared = define(rt.alloc())?;
    let mut session = Session::new(rt.alloc(), &shared);
    for line in lines.lines() {
        session.answer_line(rt, line)?;
    }
    Ok(())
}

/// Answers subjects, whose lines show what only calls of a library can. The line `%% SUBJECT` that begins each goes through unchanged.
fn answer_subjects(rt: &HostRuntime, subjects: &str) -> io::Result<()> {
    for part in subjects.split("\n%% ") {
        let (subject, lines) = part.split_once('\n').unwrap_or((part, ""));
        let mut answers = String::new(rt.alloc());
        match subject {
            "base" => rows_base::add_answers(rt.alloc(), lines, &mut answers),
            _ => rows_insts::add_answers(rt.alloc(), subject, lines, &mut answers),
        }?;
        println!(rt; "%% {subject}")?;
        io::writer(rt).write_all(answers.as_bytes())?;
    }
    Ok(())
}

/// Answers the lines of the standard input on the standard output, and then its subjects.
fn main(rt: HostRuntime) -> io::Result<()> {
    let input = io::read_to_string(rt.alloc(), rt.reader())?;
    let Some((lines, subjects)) = input.split_once("\n%% ") else {
        return answer_lines(&rt, &input);
    };
    answer_lines(&rt, lines)?;
    answer_subjects(&rt, subjects)
}
