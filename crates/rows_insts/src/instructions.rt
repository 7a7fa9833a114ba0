use crate::formats::Formats;
use crate::kinds::{Kinds, find_value, insert_value};
use crate::sets::equal_sets;
use crate::variables::Variables;
use crate::words::{text_of, write_prose};
use meta_build::Declarations;
use meta_inst::{
    AllInstructions, InstructionBuilder, InstructionContent, InstructionGroupBuilder, Operands,
};
use meta_operands::{FormatTable, InstructionFormatBuilder, Operand};
use meta_types::Text;
use meta_typevar::TypeVars;
use rows_base::{Answer, Answering, Case, Trouble, number};
use std::alloc::{AllocError, Global};
use std::mem;

/// The names of inputs by their places, and `o` for later places.
const INPUTS: [&str; 8] = ["x", "y", "z", "u", "v", "w", "s", "t"];

/// The names of outputs by their places, and `o` for later places.
const OUTPUTS: [&str; 8] = ["a", "b", "c", "d", "e", "f", "g", "h"];

/// The builder after this call, where `-` is no call.
fn called(builder: InstructionBuilder, call: &str, case: &mut Case<'_>) -> InstructionBuilder {
    match call {
        "-" => builder,
        "terminates_block" => builder.terminates_block(),
        "branches" => builder.branches(),
        "call" => builder.call(),
        "returns" => builder.returns(),
        "can_load" => builder.can_load(),
        "can_store" => builder.can_store(),
        "can_trap" => builder.can_trap(),
        "other_side_effects" => builder.other_side_effects(),
        "side_effects_idempotent" => builder.side_effects_idempotent(),
        "imm_method" => builder.inst_builder_imm_method(true),
        "no_imm_method" => builder.inst_builder_imm_method(false),
        _ => {
            case.refuse(Trouble::NoCase);
            builder
        }
    }
}

fn write_count(case: &mut Case<'_>, is_set: bool, operands: &[Operand]) {
    if is_set {
        case.shown(&operands.len());
    } else {
        case.text("unset");
    }
}

#[derive(Drop)]
pub(crate) struct Instructions<'l> {
    alloc: Global,
    variables: Variables<'l>,
    kinds: Kinds<'l>,
    formats: Formats<'l>,
    /// The instructions that were added to the list, and not built.
    all: AllInstructions,
    /// The instruction that was built last.
    content: Option<InstructionContent>,
}

impl<'l> Instructions<'l> {
    pub(crate) fn new(alloc: Global) -> Instructions<'l> {
        Instructions {
            alloc,
            variables: Variables::new(alloc),
            kinds: Kinds::new(alloc),
            formats: Formats::new(alloc),
            all: AllInstructions::new(alloc),
            content: None,
        }
    }

    /// The format with one more part, which the word gives, such as `imm:KIND` and `designate:PLACE`.
    fn with_part(
        &self,
        builder: InstructionFormatBuilder,
        part: &str,
    ) -> Result<InstructionFormatBuilder, Trouble> {
        if let Some(place) = part.strip_prefix("designate:") {
            return match number(place) {
                Ok(place) if builder.can_designate(place) => Ok(builder.typevar_operand(place)),
                _ => Err(Trouble::NoCase),
            };
        }
        if !builder.has_room() {
            return Err(Trouble::NoCase);
        }
        match part {
            "value" => Ok(builder.value()),
            "block" => Ok(builder.block()),
            "raw_block" => Ok(builder.raw_block()),
            "varargs" => Ok(builder.varargs()),
            _ => {
                let word = part.strip_prefix("imm:").unwrap_or("");
                let kind = self.kinds.kind(&self.variables, word)?;
                Ok(builder.imm(&kind)?)
            }
        }
    }

    /// The operands of a list, with commas between them, named by their places. `''` is the empty list, and `-` no list.
    fn operands_of(&self, list: &str, names: &[&str]) -> Result<Option<Vec<Operand>>, Trouble> {
        if list == "-" {
            return Ok(None);
        }
        let mut operands = Vec::new(self.alloc);
        if list != "''" {
            for word in list.split(',') {
                let name = names.get(operands.len()).copied().unwrap_or("o");
                operands.push(self.kinds.operand(&self.variables, name, word)?)?;
            }
        }
        Ok(Some(operands))
    }

    /// The builder of an instruction by the next words: its name, the name of its format, its inputs and outputs, or `-` if they aren't
    /// set, and the calls of its builder, with commas between them, or `-` for no call; and its documentation.
    fn next_builder(&self, case: &mut Case<'l>) -> Result<InstructionBuilder, Trouble> {
        let name = text_of(case.word());
        let format = self.formats.next_id(case)?;
        let inputs = self.operands_of(case.word(), INPUTS.as_slice())?;
        let outputs = self.operands_of(case.word(), OUTPUTS.as_slice())?;
        let (name, doc) = (
            Text::new(self.alloc, name)?,
            Text::new(self.alloc, case.doc())?,
        );
        let mut builder = InstructionBuilder::new(self.alloc, name, doc, format);
        if let Some(operands) = inputs
            && !builder.has_operands_in()
        {
            builder = builder.operands_in(operands);
        }
        if let Some(operands) = outputs
            && !builder.has_operands_out()
        {
            builder = builder.operands_out(operands);
        }
        for call in case.word().split(',') {
            builder = called(builder, call, case);
        }
        if case.trouble().is_some() {
            return Err(Trouble::NoCase);
        }
        Ok(builder)
    }

    /// `build INSTRUCTION | DOC`: builds an instruction, as the first: its text, or the line of its first fault.
    fn build(&mut self, case: &mut Case<'l>) -> Answer {
        let builder = self.next_builder(case)?;
        if !builder.fits(&self.variables.vars, &self.formats.table) {
            return Err(Trouble::NoCase);
        }
        match builder.build(self.alloc, &self.variables.vars, &self.formats.table, 1) {
            Ok(content) => {
                case.shown(&content);
                self.content = Some(content);
            }
            Err(fault) => case.made(fault.line(self.alloc)),
        }
        Ok(())
    }

    /// `given INSTRUCTION | DOC`: adds an instruction to a list. Writes how many are in the list, what it keeps of this one, and the value
    /// operands that are found of it.
    fn give(&mut self, case: &mut Case<'l>) -> Answer {
        let builder = self.next_builder(case)?;
        let place = self.all.len();
        InstructionGroupBuilder::new(&mut self.all).push(builder)?;
        if place >= self.all.len() {
            return Err(Trouble::NoCase);
        }
        case.shown(&self.all.len());
        let builder = self.all.get(place);
        if !self.formats.table.is_of(builder.format()) {
            return Err(Trouble::NoCase);
        }
        case.field(" ", &builder.name().as_str());
        case.field(" format ", &builder.format().number());
        case.text(" inputs ");
        write_count(case, builder.has_operands_in(), builder.inputs());
        case.text(" outputs ");
        write_count(case, builder.has_operands_out(), builder.outputs());
        let operands = Operands::of(self.alloc, builder, &self.formats.table)?;
        self.write_operands(&operands, case);
        Ok(())
    }

    fn write_operands(&self, operands: &Operands, case: &mut Case<'_>) {
        case.field(" results ", &operands.result_count());
        case.text(" variables ");
        let start = case.written();
        for tv in operands.variables() {
            case.item(start, self.variables.name(Some(*tv)));
        }
        case.end_list(start);
        case.field(" designated ", &self.variables.name(operands.designated()));
        case.field(" first ", &self.variables.name(operands.first_result()));
    }

    /// `second VARIABLE INSTRUCTION`: whether a second control was named, before the variable is and after that; the one that is named; and
    /// whether the instruction then fits.
    fn write_second(&self, case: &mut Case<'l>) -> Answer {
        let second = self.variables.next(case)?;
        let builder = self.next_builder(case)?;
        if builder.has_second_control() {
            return Err(Trouble::Differ);
        }
        let builder = builder.second_control(second);
        case.field("named false ", &builder.has_second_control());
        case.field(" ", &self.variables.name(builder.second()));
        case.field(
            " fits ",
            &builder.fits(&self.variables.vars, &self.formats.table),
        );
        Ok(())
    }

    /// Takes what was declared: the instructions that were given, with the table and the registry, if they belong together.
    pub(crate) fn declared(&mut self) -> Result<Declarations, Trouble> {
        let alloc = self.alloc;
        let vars = mem::replace(&mut self.variables.vars, TypeVars::new(alloc));
        let formats = mem::replace(&mut self.formats.table, FormatTable::new(alloc));
        let all = mem::replace(&mut self.all, AllInstructions::new(alloc));
        if !Declarations::fits(&vars, &formats, &all) {
            return Err(Trouble::NoCase);
        }
        Ok(Declarations::new(vars, formats, all, Vec::new(alloc)))
    }

    /// Writes the answer to a line about instructions, kinds and formats, or about variables and sets. `fits INSTRUCTION` asks whether the
    /// format is of the table, and the variables of the registry, and `declarations` how many instructions were given, if they belong
    /// together with the registry and the table.
    fn answer(&mut self, word: &str, case: &mut Case<'l>) -> Answer {
        match word {
            "equal_sets" => return equal_sets(self.alloc, case),
            "insert" => return insert_value(self.alloc, case),
            "find" => return find_value(self.alloc, case),
            "kind" => return self.kinds.declare(&self.variables, case),
            "operand" => return self.kinds.write_operand(&self.variables, case),
            "given" => return self.give(case),
            "build" => return self.build(case),
            "second" => return self.write_second(case),
            "fits" => {
                let builder = self.next_builder(case)?;
                case.yes_or_no(builder.fits(&self.variables.vars, &self.formats.table));
            }
            "names" | "places" | "marks" | "control" => match &self.content {
                Some(content) => write_part(content, word, &self.variables, case),
                None => return Err(Trouble::NoCase),
            },
            "declarations" => {
                let (vars, table) = (&self.variables.vars, &self.formats.table);
                if !Declarations::fits(vars, table, &self.all) {
                    return Err(Trouble::NoCase);
                }
                case.shown(&self.all.len());
            }
            "formats" => self.formats.begin(case),
            "format" => {
                let name = case.word();
                let text = Text::new(self.alloc, name)?;
                let mut builder = InstructionFormatBuilder::new(self.alloc, text);
                for part in case.rest() {
                    builder = self.with_part(builder, part)?;
                }
                return self.formats.declare(name, builder, case);
            }
            "insert_structure" => return self.formats.insert_structure(case),
            "fields" | "structure" | "alike" | "order" | "has" => {
                return self.formats.write_asked(word, &self.variables, case);
            }
            _ => return self.variables.answer(word, case),
        }
        Ok(())
    }
}

impl<'l> Answering<'l> for Instructions<'l> {
    fn answer_line(&mut self, line: &'l str, answers: &mut String) -> Result<(), AllocError> {
        let mut case = Case::of(self.alloc, line)?;
        let word = case.word();
        let answered = self.answer(word, &mut case);
        case.close(answered);
        case.end(answers)
    }
}

/// Writes the numbers after a word, with commas between them, or `-` if there are none.
fn write_numbers(case: &mut Case<'_>, word: &str, numbers: &[usize]) {
    case.text(word);
    let start = case.written();
    for number in numbers {
        case.item(start, "");
        case.shown(number);
    }
    case.end_list(start);
}

/// Writes the marks that are set, each by its letter, or `-` if none is set.
fn write_marks(content: &InstructionContent, case: &mut Case<'_>) {
    let marks = [
        ('t', content.is_terminator()),
        ('b', content.is_branch()),
        ('c', content.is_call()),
        ('r', content.is_return()),
        ('l', content.can_load()),
        ('s', content.can_store()),
        ('p', content.can_trap()),
        ('o', content.other_side_effects()),
        ('i', content.side_effects_idempotent()),
        ('m', content.inst_builder_imm_method()),
    ];
    for (letter, is_set) in marks {
        if is_set {
            case.letter(letter);
        }
    }
    case.end_list(0);
}

/// Writes a part of what is known of an instruction. `names`: its name as declared, in camel case and in the code that is written, and its
/// documentation. `places`: its format's number, how many operands it has, and the places of values, immediates and results. `marks`.
/// `control`: the variable that controls, and whether it is that of the designated operand, or `none`.
fn write_part(
    content: &InstructionContent,
    part: &str,
    variables: &Variables<'_>,
    case: &mut Case<'_>,
) {
    match part {
        "names" => {
            case.text(content.name().as_str());
            case.field(" ", &content.camel_name().as_str());
            case.field(" ", &content.snake_name());
            write_prose(case, content.doc().as_str());
        }
        "places" => {
            case.field("format ", &content.format().number());
            case.field(" inputs ", &content.operands_in().len());
            case.field(" outputs ", &content.operands_out().len());
            write_numbers(case, " values ", content.value_opnums());
            write_numbers(case, " immediates ", content.imm_opnums());
            write_numbers(case, " results ", content.value_results());
        }
        "marks" => write_marks(content, case),
        _ => match content.polymorphic_info() {
            Some(info) => {
                case.text(variables.name(Some(info.ctrl_typevar)));
                case.field(" designated ", &info.use_typevar_operand);
            }
            None => case.text("none"),
        },
    }
}
