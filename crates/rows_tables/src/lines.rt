use meta_query::{Inference, Lines, Query, Question, Reply, Status};
use rows_base::{Answer, Case, Trouble, write_bytes};
use std::alloc::Global;

fn write_lines(input: &[u8], is_counted: bool, case: &mut Case<'_>) {
    let mut count: u32 = 0;
    for line in Lines::new(input) {
        count = count.saturating_add(1);
        if !is_counted {
            write_bytes(case, line);
            case.text("\\n");
        }
    }
    if is_counted {
        case.shown(&count);
        case.text(" lines");
    }
}

/// Writes what a question asks: the name of the instruction, or the length of a long one, the controlling number, that of the second
/// control after `/` if there is one, and the numbers of the results and of the values.
fn write_asked(alloc: Global, question: &Question, case: &mut Case<'_>) -> Answer {
    let name = question.name();
    if name.len() > 100 {
        case.shown(&name.len());
        case.text(" bytes");
    } else {
        write_bytes(case, name);
    }
    case.letter(' ');
    case.debugged(&question.control_number());
    if let Some(second) = question.second_number() {
        case.field("/", &second);
    }
    case.letter(' ');
    case.debugged(&question.result_numbers(alloc)?);
    case.letter(' ');
    case.debugged(&question.value_numbers(alloc)?);
    Ok(())
}

fn write_codes(case: &mut Case<'_>) {
    for reply in [Reply::Accept, Reply::Refuse, Reply::Unknown, Reply::Bad] {
        case.text(reply.text());
        case.letter(' ');
    }
    for status in [
        Status::Done,
        Status::Refused,
        Status::Usage,
        Status::ReadFault,
        Status::WriteFault,
        Status::OutOfMemory,
        Status::TooLong,
    ] {
        case.shown(&status.code());
    }
}

fn write_named(name: &[u8], [control, second]: [Option<u16>; 2], case: &mut Case<'_>) {
    write_bytes(case, name);
    case.letter(' ');
    case.number_or_dash(control);
    if let Some(second) = second {
        case.field("/", &second);
    }
}

/// Writes what a line asks, or `none`: `accept` or `infer` with a name and controlling numbers, or `setting` with a name.
fn write_query(alloc: Global, line: &[u8], case: &mut Case<'_>) -> Answer {
    let is_inference = Inference::parse(line).is_some();
    match Query::parse(alloc, line)? {
        Some(Query::Accept(question)) if !is_inference => {
            case.text("accept ");
            let controls = [question.control_number(), question.second_number()];
            write_named(question.name(), controls, case);
        }
        Some(Query::Infer(inference)) if is_inference => {
            case.text("infer ");
            let controls = [inference.control_number(), inference.second_number()];
            write_named(inference.name(), controls, case);
        }
        Some(Query::Setting(name)) if !is_inference => {
            case.text("setting ");
            write_bytes(case, name);
        }
        None if !is_inference => case.text("none"),
        _ => return Err(Trouble::Differ),
    }
    Ok(())
}

/// Writes what a word asks of an input: `lines` its lines, and `count` how many there are; `question` what `Question` finds in a line, and
/// `meant` what `Query` does. `codes` writes the texts of replies and the codes of statuses.
pub fn ask_line(alloc: Global, word: &str, input: &[u8], case: &mut Case<'_>) -> Answer {
    match word {
        "codes" => write_codes(case),
        "lines" | "count" => write_lines(input, word == "count", case),
        "meant" => return write_query(alloc, input, case),
        _ => match Question::parse(alloc, input)? {
            Some(question) => return write_asked(alloc, &question, case),
            None => case.text("none"),
        },
    }
    Ok(())
}
