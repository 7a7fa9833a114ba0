use super::declared::Declared;
use meta_file_syntax::Bytes;
use meta_program::{
    FileEnding, Names, Over, Plan, check_file, listed_tools, run_file, run_words, shown_path,
    wrong_line,
};
use meta_text::{MemorySink, MemorySource, ReadOutcome, Source};
use meta_types::Text;
use rows_base::{
    Answer, Case, Outside, Trouble, add_held, decoded, texts_of_words, write_bytes, write_ended,
};
use sha2::{Digest, Sha256};
use std::alloc::{AllocError, Global};
use std::io::{self, Write};
use std::{fs, str};

pub(crate) const PATH: &str = "FILE";

/// The SHA-256 of bytes, in hexadecimal digits.
pub(crate) fn sum_of(alloc: Global, bytes: &[u8]) -> Result<String, AllocError> {
    let mut sum = String::new(alloc);
    for byte in Sha256::digest(bytes) {
        write!(sum, "{byte:02x}")?;
    }
    Ok(sum)
}

fn ends_so(rt: &HostRuntime, name: &str, bytes: &[u8]) -> bool {
    match fs::read(rt, name) {
        Ok(wanted) => bytes.len() > wanted.len() && bytes.ends_with(&wanted),
        Err(_) => false,
    }
}

#[derive(Drop)]
pub(crate) struct Ran {
    told: Vec<Bytes>,
    status: u8,
    sink: MemorySink,
    /// The next byte of the source, if one was left.
    left: Option<u8>,
}

impl Ran {
    fn run(
        &mut self,
        alloc: Global,
        words: &[Text],
        declared: Declared<'_>,
        source: &mut MemorySource,
    ) -> Answer {
        match declared {
            Declared::Made(declarations) => {
                let ending = run_words(alloc, words, declarations, source, &mut self.sink);
                self.status = ending.code();
            }
            Declared::File(file, text) => {
                let mut file = file.source(alloc, text)?;
                let ending = match Names::asked(words) {
                    Some(names) => {
                        let sink = &mut self.sink;
                        let checked = check_file(alloc, PATH, names, &mut file, source, sink);
                        self.told = checked.names;
                        checked.ending
                    }
                    None => run_file(alloc, words, PATH, &mut file, source, &mut self.sink),
                };
                self.status = ending.code();
                if let FileEnding::Refused(message) = ending {
                    self.told.push(message)?;
                }
            }
        }
        Ok(())
    }

    pub(crate) fn of(
        alloc: Global,
        words: &[Text],
        declared: Declared<'_>,
        outside: Outside,
        input: &[u8],
    ) -> Result<Ran, Trouble> {
        let mut source = outside.source(alloc, input)?;
        let mut ran = Ran {
            told: Vec::new(alloc),
            status: 0,
            sink: outside.sink(alloc)?,
            left: None,
        };
        ran.run(alloc, words, declared, &mut source)?;
        let mut byte = [0; 1];
        if let ReadOutcome::Got(_) = source.read(&mut byte) {
            ran.left = Some(byte[0]);
        }
        Ok(ran)
    }

    pub(crate) fn done(&self) -> Result<&[u8], Trouble> {
        match self.status {
            0 => Ok(self.sink.bytes()),
            _ => Err(Trouble::NoCase),
        }
    }

    /// Writes the status, what the sink took, with escapes, and what the run wrote on standard error.
    pub(crate) fn write_line(&self, case: &mut Case<'_>) {
        write_ended(case, self.status, self.sink.bytes());
        for message in &self.told {
            case.letter(' ');
            write_bytes(case, message.as_slice());
        }
    }

    pub(crate) fn write_left(&self, case: &mut Case<'_>) {
        if let Some(byte) = self.left {
            case.text(" next ");
            write_bytes(case, &[byte]);
        }
    }

    /// Writes what the sink took, or for `sum` its SHA-256, or for `against` how it compares with what a file holds; what the run wrote on
    /// standard error; and the status.
    pub(crate) fn write(&self, rt: &HostRuntime, word: &str, name: &str) -> io::Result<()> {
        let bytes = self.sink.bytes();
        match word {
            "run" => io::writer(rt).write_all(bytes)?,
            "sum" => println!(rt; "{}", sum_of(rt.alloc(), bytes)?)?,
            _ => write_against(rt, name, bytes)?,
        }
        for message in &self.told {
            io::writer(rt).write_all(message.as_slice())?;
            println!(rt; "")?;
        }
        println!(rt; "status {}", self.status)
    }
}

fn write_against(rt: &HostRuntime, name: &str, bytes: &[u8]) -> io::Result<()> {
    match str::from_utf8(bytes) {
        Err(_) => println!(rt; "no text"),
        Ok(_) if ends_so(rt, name, bytes) => println!(rt; "ends so"),
        Ok(text) => {
            let mut answer = String::new(rt.alloc());
            add_held(rt, name, text, &mut answer)?;
            io::writer(rt).write_all(answer.as_bytes())
        }
    }
}

/// Writes what the words that are left are asked over, and which words are asked.
pub(crate) fn write_over(alloc: Global, case: &mut Case<'_>) -> Answer {
    let words = texts_of_words(alloc, case.rest())?;
    let asked = match Over::of(&words) {
        Over::Shared(asked) => {
            case.text("shared");
            asked
        }
        Over::File(path, asked) => {
            case.field("file ", &path);
            asked
        }
    };
    case.text(" [");
    let start = case.written();
    for word in asked {
        case.item(start, word.as_str());
    }
    case.letter(']');
    Ok(())
}

/// Writes what the words that are left ask for, or the line that says what is wrong with them.
pub(crate) fn write_plan(alloc: Global, case: &mut Case<'_>) -> Answer {
    let words = texts_of_words(alloc, case.rest())?;
    match Plan::of(&words) {
        Plan::Help => case.text("help"),
        Plan::Version => case.text("version"),
        Plan::Shared(_) => case.text("shared"),
        Plan::File(path, _) => case.field("file ", &path),
        Plan::Check(path, names) => {
            case.debugged(&names);
            case.field(" file ", &path);
        }
        Plan::CheckInput(names) => {
            case.debugged(&names);
            case.text(" input");
        }
        Plan::Nothing(over, wrong) => {
            let line = wrong_line(alloc, listed_tools(), &over, wrong)?;
            case.field("wrong: ", &line);
        }
    }
    Ok(())
}

/// Writes a path as a message shows it.
pub(crate) fn write_path(alloc: Global, case: &mut Case<'_>) -> Answer {
    let path = decoded(alloc, case.word())?;
    let Ok(path) = str::from_utf8(&path) else {
        return Err(Trouble::NoCase);
    };
    case.text(&shown_path(alloc, path)?);
    Ok(())
}
