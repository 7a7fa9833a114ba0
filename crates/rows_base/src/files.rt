ghost use Rattle.std.specs.Prelude.{◌≡◌, ◌↔◌, None};

use std::alloc::AllocError;
use std::fs;

/// The first line in which a text and that of a file differ: its number, from 1, and the line in each, if there is one.
#[derive(Clone, Copy)]
struct Other<'t> {
    number: usize,
    line: Option<&'t str>,
    wanted: Option<&'t str>,
}

fn first_other<'t>(text: &'t str, file: &'t str) -> Option<Other<'t>>
    ensures { (result ≡ None) ↔ (text.now ≡ file.now) }
{
    if text == file {
        return None;
    }
    let mut wanted = file.split('\n');
    let mut number: usize = 1;
    for line in text.split('\n') {
        match wanted.next() {
            Some(same) if same == line => number = number.saturating_add(1),
            wanted => {
                return Some(Other {
                    number,
                    line: Some(line),
                    wanted,
                });
            }
        }
    }
    Some(Other {
        number,
        line: None,
        wanted: wanted.next(),
    })
}

fn push_line(line: Option<&str>, answers: &mut String) -> Result<(), AllocError> {
    match line {
        Some(line) => write!(answers, "{line:?}"),
        None => answers.push_str("none"),
    }
}

/// Adds how a text compares with that of a file: `same`, the first line that differs, or that the file can't be read.
pub fn add_held(
    rt: &HostRuntime,
    file: &str,
    text: &str,
    answers: &mut String,
) -> Result<(), AllocError> {
    let Ok(known) = fs::read_to_string(rt, file) else {
        return answers.push_str("no file\n");
    };
    let Some(other) = first_other(text, known.as_str()) else {
        return answers.push_str("same\n");
    };
    write!(answers, "line {} is ", other.number)?;
    push_line(other.line, answers)?;
    answers.push_str(", in the file ")?;
    push_line(other.wanted, answers)?;
    answers.push('\n')
}
