use super::asking::{Ran, sum_of, write_over, write_path, write_plan};
use super::declared::{Declared, ask_declared, declared_by};
use super::describing::write_synths;
use super::each::{Each, write_loads};
use super::patched::patched;
use super::unfailing::write_unfailing;
use meta_build::Declarations;
use rows_base::{Answer, Case, Outside, Trouble, decoded, edited, number, pair_of, texts_of_words};
use rows_tables::{ask_items, ask_line};
use std::alloc::{AllocError, Global};
use std::io::{self, Write};
use std::{fs, str};

/// The room of a sink, if no line gives another.
const ROOM: usize = 1_048_576;

/// What words are asked over, their input, and how the file, the source and the sink behave. `new` forgets all of it.
///
/// **What they are asked over.** `| LINE` adds a line to the text of the file, `with BYTES` adds bytes, `many COUNT BYTES` adds them COUNT
/// times, with the number of each time for each `%`, and `data NAME` adds what a file holds. After `shared`, words are asked over the
/// shared declarations, and after `made SUBJECT LINES` over what the lines of a subject declare. After `clear file`, they are asked over the
/// file again, whose text is then empty. `apart COUNT` adds instructions whose sets no other has.
///
/// **The input.** `> LINE`, `add BYTES`, `times COUNT BYTES` and `input NAME` add to it in the same ways, and `numbers COUNT FIRST STEP
/// BYTES` does with other numbers for each `%`. `begin WORDS` replaces the input by what the words write, and `clear input` by nothing. The
/// lines of `edited`, which are `drop`, `cut`, `replace` and `all`, edit it, and `patch NAME` makes another input of its lines.
///
/// **Outside.** `file STEP FAIL`, `source STEP FAIL` and `sink ROOM STEP FAIL` say how these behave.
///
/// **What is asked.** `WORDS`, or `WORDS < BYTES` with bytes after the input, writes in one line how a run of the words ends: its status,
/// what it writes, with escapes, and what it writes on standard error. `run WORDS` writes what the run writes, also on standard error, and
/// then the status. `sum WORDS` writes the SHA-256 of what the run writes in place of that, and `against NAME WORDS` how that compares with
/// what a file holds. `over WORDS` writes what words are asked over, and `plan WORDS` what the program does for them, or what it says is wrong
/// with them. `path BYTES` writes a path as messages show it, and `digest` the SHA-256 of the input. `unfailing WORDS` writes the status of a
/// run over the shared declarations whose source and sink never fail. `write` writes the input.
///
/// `fronts` loads each front of the text of the file, and `changes BITS` the text with each byte changed. `synths COUNT` describes the
/// declarations that are made from numbers.
///
/// **What is asked by calls.** `? WORD ..` asks what is declared, even if it has a fault. `? handed WORDS`, `? reads COUNT WORDS` and `?
/// writes COUNT WORDS` are described at `write_runs`, and others at `ask_description`, `write_written`, `ask_line`, `ask_items` and
/// `ask_tables`. `? reread lines FROM TO`, `? reread fronts FROM TO` and `? reread changes FROM TO` read the fronts of the input that end
/// there with a line, all of its fronts there, or the input with each byte there changed. They write how many are no tables, other tables,
/// or those that are declared. `? calls GROUP` makes the calls that the lines of the input name on the settings of a group, `? fed` feeds
/// the lines to a checker, and `? shortened` writes their short forms. `? explained` writes what the tables answer to the lines after their
/// text was read. `? audited TIMES` asks the auditor this many times about the tables in memory, and `? generated TIMES` makes the tables
/// this many times.
#[derive(Drop)]
pub(crate) struct Session<'d> {
    alloc: Global,
    shared: &'d Declarations,
    is_shared: bool,
    /// What calls declare, which stands in place of the text.
    own: Option<Declarations>,
    text: Vec<u8>,
    input: Vec<u8>,
    file: Outside,
    outside: Outside,
}

pub(crate) fn add_line(bytes: &mut Vec<u8>, line: &str) -> Answer {
    bytes.extend_from_slice(line.as_bytes())?;
    Ok(bytes.push(b'\n')?)
}

fn add_decoded(bytes: &mut Vec<u8>, alloc: Global, text: &str) -> Answer {
    Ok(bytes.extend_from_slice(&decoded(alloc, text)?)?)
}

fn add_file(bytes: &mut Vec<u8>, rt: &HostRuntime, name: &str) -> io::Result<()> {
    bytes.extend_from_slice(&fs::read(rt, name)?)?;
    Ok(())
}

/// Adds bytes several times, with a number for each `%`: the first number, and then each time one that is greater by the step.
fn add_many(
    bytes: &mut Vec<u8>,
    alloc: Global,
    [count, first, step]: [u64; 3],
    pattern: &[u8],
) -> Result<(), AllocError> {
    let mut number = first;
    for _ in 0..count {
        let shown = format!(in alloc; "{number}")?;
        for byte in pattern {
            match *byte {
                b'%' => bytes.extend_from_slice(shown.as_bytes())?,
                _ => bytes.push(*byte)?,
            }
        }
        number = number.saturating_add(step);
    }
    Ok(())
}

/// Adds instructions `s0`, `s1` and so on of a format `U`. Each has one value, whose set no other instruction has.
fn add_apart(bytes: &mut Vec<u8>, alloc: Global, count: u16) -> Answer {
    for number in 0..count {
        let lanes: (u16, u16) = (1 << (number / 64 % 4), 16 << (number / 16 % 4));
        let dynamic: (u16, u16) = (2 << (number / 4 % 4), 32 << (number % 4));
        let ints: (u16, u16) = (8 << (number / 256 % 2), 64 << (number / 512 % 2));
        let floats: (u16, u16) = (16 << (number / 1024 % 2), 64 << (number / 2048 % 2));
        let declared = format!(in alloc;
            "type S{number}: lanes {}..{}, dynamic {}..{}, ints {}..{}, floats {}..{}\ninst s{number}: U(x: S{number})\n",
            lanes.0, lanes.1, dynamic.0, dynamic.1, ints.0, ints.1, floats.0, floats.1
        )?;
        bytes.extend_from_slice(declared.as_bytes())?;
    }
    Ok(())
}

/// What the lines of a subject declare: `SUBJECT LINES`, with escapes.
fn made(alloc: Global, words: &str) -> Result<Declarations, Trouble> {
    let (subject, lines) = pair_of(words, ' ')?;
    let lines = decoded(alloc, lines)?;
    match str::from_utf8(&lines) {
        Ok(lines) => rows_insts::declared(alloc, subject, lines),
        Err(_) => Err(Trouble::NoCase),
    }
}

fn number_before(words: &str) -> Result<(u64, &str), Trouble> {
    let (digits, rest) = words.split_once(' ').unwrap_or((words, ""));
    Ok((number(digits)?, rest))
}

impl<'d> Session<'d> {
    pub(crate) fn new(alloc: Global, shared: &'d Declarations) -> Session<'d> {
        Session {
            alloc,
            shared,
            is_shared: false,
            own: None,
            text: Vec::new(alloc),
            input: Vec::new(alloc),
            file: Outside::with_room(0),
            outside: Outside::with_room(ROOM),
        }
    }

    fn add_numbers(&mut self, word: &str, rest: &str) -> Answer {
        let (count, rest) = number_before(rest)?;
        let (first, step, bytes) = if word == "numbers" {
            let (first, rest) = number_before(rest)?;
            let (step, bytes) = number_before(rest)?;
            (first, step, bytes)
        } else {
            (0, 1, rest)
        };
        let pattern = decoded(self.alloc, bytes)?;
        let numbers = [count, first, step];
        match word {
            "many" => Ok(add_many(&mut self.text, self.alloc, numbers, &pattern)?),
            _ => Ok(add_many(&mut self.input, self.alloc, numbers, &pattern)?),
        }
    }

    fn take_outside(&mut self, line: &str) -> Answer {
        let mut case = Case::of(self.alloc, line)?;
        match case.word() {
            "file" => self.file.take_source(&mut case),
            "source" => self.outside.take_source(&mut case),
            _ => self.outside.take_sink(&mut case),
        }
        match case.trouble() {
            Some(trouble) => Err(trouble),
            None => Ok(()),
        }
    }

    fn begin_input(&mut self, words: &str) -> Answer {
        let ran = self.ran(Case::of(self.alloc, words)?.rest(), "")?;
        self.input = ran.done()?.to_vec(self.alloc)?;
        Ok(())
    }

    /// Changes the text or the input, or how what is outside behaves, if the line says so, and answers whether it does.
    fn make(&mut self, line: &str) -> Result<bool, Trouble> {
        let (word, rest) = line.split_once(' ').unwrap_or((line, ""));
        match word {
            "new" => *self = Session::new(self.alloc, self.shared),
            "shared" => self.is_shared = true,
            "clear" if rest == "input" => self.input.clear(),
            "clear" => {
                self.is_shared = false;
                self.own = None;
                self.text.clear();
            }
            "|" => add_line(&mut self.text, rest)?,
            ">" => add_line(&mut self.input, rest)?,
            "with" => add_decoded(&mut self.text, self.alloc, rest)?,
            "add" => add_decoded(&mut self.input, self.alloc, rest)?,
            "apart" => add_apart(&mut self.text, self.alloc, number(rest)?)?,
            "made" => self.own = Some(made(self.alloc, rest)?),
            "many" | "times" | "numbers" => self.add_numbers(word, rest)?,
            "begin" => self.begin_input(rest)?,
            "drop" | "cut" | "replace" | "all" => {
                self.input = edited(self.alloc, &self.input, line)?;
            }
            "file" | "source" | "sink" => self.take_outside(line)?,
            _ => return Ok(false),
        }
        Ok(true)
    }

    fn patch(&mut self, rt: &HostRuntime, name: &str) -> io::Result<()> {
        match patched(self.alloc, &self.input, &fs::read(rt, name)?) {
            Ok(text) => self.input = text,
            Err(_) => println!(rt; "no case")?,
        }
        Ok(())
    }

    fn declared(&self) -> Declared<'_> {
        if self.is_shared {
            return Declared::Made(self.shared);
        }
        if let Some(own) = self.own.as_ref() {
            return Declared::Made(own);
        }
        Declared::File(self.file, &self.text)
    }

    fn input_with(&self, after: &str) -> Result<Vec<u8>, Trouble> {
        let mut input = self.input.to_vec(self.alloc)?;
        add_decoded(&mut input, self.alloc, after)?;
        Ok(input)
    }

    fn ran(&self, words: &[&str], after: &str) -> Result<Ran, Trouble> {
        let words = texts_of_words(self.alloc, words)?;
        let input = self.input_with(after)?;
        Ran::of(self.alloc, &words, self.declared(), self.outside, &input)
    }

    /// Writes in one line how the words that are left end over declarations, also such as have a fault, and the next byte of the source, if
    /// one was left. `reads COUNT WORDS` and `writes COUNT WORDS` make COUNT runs, numbered from 0. In each the read or the write with the
    /// number of the run fails. Calls are numbered from 1, so no call fails in the first run.
    fn write_runs(
        &self,
        declarations: &Declarations,
        word: &str,
        input: &[u8],
        case: &mut Case<'_>,
    ) -> Answer {
        let count: u64 = if word == "handed" { 1 } else { case.number() };
        let words = texts_of_words(self.alloc, case.rest())?;
        let mut outside = self.outside;
        for failing in 0..count {
            match word {
                "reads" => outside.failing_read = failing,
                "writes" => outside.failing_write = failing,
                _ => {}
            }
            if failing > 0 {
                case.text("; ");
            }
            let declared = Declared::Made(declarations);
            let ran = Ran::of(self.alloc, &words, declared, outside, input)?;
            ran.write_line(case);
            ran.write_left(case);
        }
        Ok(())
    }

    fn write_ran(
        &self,
        rt: &HostRuntime,
        word: &str,
        after: &str,
        case: &mut Case<'_>,
    ) -> io::Result<()> {
        let name = if word == "against" { case.word() } else { "" };
        if word == "against" && !case.has_more() {
            return println!(rt; "no case");
        }
        match self.ran(case.rest(), after) {
            Ok(ran) => ran.write(rt, word, name),
            Err(_) => println!(rt; "no case"),
        }
    }

    fn ask_made(
        &self,
        declarations: &Declarations,
        word: &str,
        input: &[u8],
        case: &mut Case<'_>,
    ) -> Answer {
        match word {
            "handed" | "reads" | "writes" => self.write_runs(declarations, word, input, case),
            _ => ask_declared(self.alloc, self.outside, declarations, input, word, case),
        }
    }

    /// Writes what a word asks by calls: of the input, of the text of the file, or of what is declared, even if it has a fault.
    fn ask_calls(&self, word: &str, input: &[u8], case: &mut Case<'_>) -> Answer {
        match word {
            "codes" | "lines" | "count" | "question" | "meant" => {
                ask_line(self.alloc, word, input, case)
            }
            "tokens" | "items" | "declares" | "format" => {
                ask_items(self.alloc, word, &self.text, case)
            }
            _ => match self.declared() {
                Declared::Made(declarations) => self.ask_made(declarations, word, input, case),
                Declared::File(_, text) => {
                    self.ask_made(&declared_by(self.alloc, text)?, word, input, case)
                }
            },
        }
    }

    /// Writes the answer to the words of a line, which read no file, with bytes after the input.
    fn answer(&self, word: &str, after: &str, case: &mut Case<'_>) -> Answer {
        let alloc = self.alloc;
        match word {
            "?" => {
                let asked = self.ask_calls(case.word(), &self.input_with(after)?, case);
                case.close(asked);
            }
            "over" => write_over(alloc, case)?,
            "plan" => write_plan(alloc, case)?,
            "path" => write_path(alloc, case)?,
            "digest" => case.text(sum_of(alloc, &self.input)?.as_str()),
            "unfailing" => write_unfailing(alloc, self.shared, self.input_with(after)?, case)?,
            "fronts" => write_loads(alloc, &self.text, Each::Front, case)?,
            "changes" => {
                let bits = case.number();
                write_loads(alloc, &self.text, Each::Change(bits), case)?;
            }
            "synths" => write_synths(alloc, case),
            _ => {
                case.go_back(0);
                self.ran(case.rest(), after)?.write_line(case);
            }
        }
        Ok(())
    }

    /// Writes the answer to the words of a line, or the word for its trouble, and a line feed.
    fn write_answer(
        &self,
        rt: &HostRuntime,
        word: &str,
        after: &str,
        case: &mut Case<'_>,
    ) -> io::Result<()> {
        if let Err(trouble) = self.answer(word, after, case) {
            case.refuse(trouble);
        }
        let mut answer = String::new(self.alloc);
        case.end(&mut answer)?;
        io::writer(rt).write_all(answer.as_bytes())
    }

    fn ask(&mut self, rt: &HostRuntime, after: &str, case: &mut Case<'_>) -> io::Result<()> {
        match case.word() {
            "data" => add_file(&mut self.text, rt, case.word()),
            "input" => add_file(&mut self.input, rt, case.word()),
            "patch" => self.patch(rt, case.word()),
            "write" => io::writer(rt).write_all(&self.input),
            word @ ("run" | "sum" | "against") => self.write_ran(rt, word, after, case),
            word => self.write_answer(rt, word, after, case),
        }
    }

    /// Does what a line says. A comment is copied, and an empty line does nothing.
    pub(crate) fn answer_line(&mut self, rt: &HostRuntime, line: &str) -> io::Result<()> {
        if line.is_empty() {
            return Ok(());
        }
        if line.starts_with('#') {
            return println!(rt; "{line}");
        }
        match self.make(line) {
            Ok(true) => Ok(()),
            Ok(false) => {
                let (words, after) = line.split_once(" < ").unwrap_or((line, ""));
                let mut case = Case::of(self.alloc, words)?;
                self.ask(rt, after, &mut case)
            }
            Err(_) => println!(rt; "no case"),
        }
    }
}
