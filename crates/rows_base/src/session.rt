use super::case::{Answering, Case};
use super::lists::Lists;
use super::trouble::Answer;
use super::{lists, lookups, texts, types};
use meta_types::{DefinitionError, Text, is_name};
use meta_unique::simple_hash;
use std::alloc::{AllocError, Global};

#[derive(Drop)]
pub(crate) struct Session<'l> {
    alloc: Global,
    lists: Lists<'l>,
}

impl<'l> Session<'l> {
    pub(crate) fn new(alloc: Global) -> Session<'l> {
        Session {
            alloc,
            lists: Lists::new(alloc),
        }
    }

    /// Writes the answer to a question. A word that isn't listed is the name of a derived function.
    fn answer(&mut self, asked: &str, words: &str, case: &mut Case<'l>) -> Answer {
        let alloc = self.alloc;
        match asked {
            "new" => self.lists.begin(alloc, case),
            "add" => self.lists.add(alloc, case)?,
            "all" => self.lists.write_all(case)?,
            "intern" => lists::write_interned(alloc, case)?,
            "intern_numbers" => lists::write_interned_twice(alloc, case)?,
            "camel_case" => texts::write_camel_case(alloc, words, case)?,
            "is_name" => case.yes_or_no(is_name(&Text::new(alloc, words)?)),
            "earlier_names" => texts::write_earlier(alloc, case)?,
            "texts" => texts::write_pair(alloc, words, case)?,
            "out_of_memory" => case.made(DefinitionError::OutOfMemory.line(alloc)),
            "hash" => case.shown(&simple_hash(words.as_bytes())),
            "slots" | "fill" => lookups::write_slots(alloc, asked == "slots", case)?,
            "size" => lookups::write_size(alloc, case)?,
            "probe" => lookups::write_probed(alloc, case)?,
            "find" => lookups::write_finds(alloc, case)?,
            "collide" => lookups::write_colliding(alloc, case)?,
            "type" => types::write_type(alloc, case)?,
            "number" | "numbers" => types::write_numbers(asked == "numbers", case),
            "debug" => types::write_debug(case)?,
            "int" | "float" => types::write_scalar(alloc, asked, case),
            "by" | "to_dynamic" => types::write_vector(alloc, asked == "to_dynamic", case)?,
            "all_lane_types" | "lane_types" | "ints" | "floats" => types::write_lanes(asked, case),
            "lane_count" | "lane_counts" => types::write_lane_counts(asked, case),
            "apply_number" | "relates_number" => {
                types::write_of_numbers(asked == "relates_number", words, case)?;
            }
            name => types::write_row(alloc, name, words, case)?,
        }
        Ok(())
    }
}

impl<'l> Answering<'l> for Session<'l> {
    /// Adds the answer to a line, whose first word says what is asked.
    fn answer_line(&mut self, line: &'l str, answers: &mut String) -> Result<(), AllocError> {
        let (asked, words) = line.split_once(' ').unwrap_or((line, ""));
        let mut case = Case::of(self.alloc, words)?;
        if let Err(trouble) = self.answer(asked, words, &mut case) {
            case.refuse(trouble);
        }
        case.end(answers)
    }
}
