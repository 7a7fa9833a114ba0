ghost use Rattle.std.specs.Prelude.{◌≡◌, ◌↔◌, ◌++◌, ℕ, List, Option, None, IsTrue, IfOk, IfSome, IfNone, OnOk, OnErr, string_bytes};
ghost use Rattle.std.specs.Option.{option_map};
ghost use Rattle.meta_types.specs.TypeParts.{number_of};
ghost use Rattle.meta_gen.specs.Reply.{AllowedReply};
ghost use Rattle.meta_verify.specs.Environment.{nothing_defined, with_values, first_redefined, HasNamedTypes};
ghost use Rattle.meta_verify.specs.Defined.{definitions};
ghost use Rattle.meta_verify.specs.Numbers.{applied, stated, HasNumbers, HasTypeNumbers};
ghost use Rattle.meta_verify.specs.Statement as spec;
ghost use Rattle.meta_verify.specs.Why.{IsRefusedIn, IsTold, IsToldOf};
ghost use Rattle.meta_verify.specs.Wrong.{IsMistake, IsFaultless, IsWrong, AnswersLine, Feeds};
ghost use Rattle.meta_verify.specs.declared.reason.Reason.TheVariants.{Refused};

use super::defined::define_all;
use super::known::KnownTypes;
use super::lists::Lists;
use super::mistake::mistake_of;
use super::reason::Reason;
use super::refusal::push_why_refused;
use super::statement::{Application, Statement};
use meta_gen::Tables;
use std::alloc::{AllocError, Global};
use std::marker::Model;

fn is_refused(reason: Reason) -> bool
    ensures { IsTrue result ↔ (reason ≡ Refused) }
{
    matches!(reason, Reason::Refused)
}

/// The values that the lines so far define, with their types. A contract sees them by `definitions`.
#[derive(Drop)]
pub struct Checker {
    types: KnownTypes,
    lists: Lists,
    alloc: Global,
}

impl Model for Checker {
    ghost use Rattle.std.specs.Prelude.{ℕ, List};
    ghost use Rattle.meta_verify.specs.Defined.{Entries, entries_of, AreTypeNumbers};

    ghost Value = { Entries };

    ghost view = { λ c. entries_of c.types };

    ghost invariant = { λ c. AreTypeNumbers c.types };
}

impl Checker {
    /// Makes a checker that has no value defined.
    pub fn new(alloc: Global) -> Checker
        ensures { definitions result ≡ nothing_defined }
    {
        Checker {
            types: KnownTypes::new(alloc),
            lists: Lists::new(alloc),
            alloc,
        }
    }

    /// The number of the type of the value. It is `None` exactly if the value isn't defined.
    pub fn type_of(&self, value: u32) -> Option<u16>
        ensures value { result ≡ option_map number_of (definitions self.now value) }
        ensures named { HasNamedTypes (definitions self.now) }
    {
        self.types.get(value)
    }

    /// Why what is stated is wrong, by the tables. It is `None` exactly if what is stated is right. As for `type_of`, a clause says too
    /// that the types of all defined values can be named.
    pub fn mistake(
        &self,
        tables: &Tables,
        statement: &Statement<'_>,
    ) -> Result<Option<Reason>, AllocError>
        requires { HasTypeNumbers statement.now }
        ensures mistake { IfOk result (λ o. IfSome o (λ reason.
            IsMistake (AllowedReply tables.now.opcodes) (definitions self.now) (stated statement.now) reason)) }
        ensures none { IfOk result (λ o. IfNone o
            (IsFaultless (AllowedReply tables.now.opcodes) (definitions self.now) (stated statement.now))) }
        ensures named { HasNamedTypes (definitions self.now) }
    {
        let mut lists = Lists::new(self.alloc);
        mistake_of(self.alloc, &self.types, tables, statement, &mut lists)
    }

    /// Adds why the instruction refuses the application, as `push_why` does for a line.
    pub fn push_refusal(
        &self,
        tables: &Tables,
        application: &Application<'_>,
        out: &mut String,
    ) -> Result<(), AllocError>
        requires numbers { HasNumbers application.now }
        requires refused { IsRefusedIn tables.now.opcodes (definitions self.now) (applied application.now) }
        ensures { OnOk result ((more : List ℕ) × IsToldOf tables.now.opcodes (definitions self.now) (applied application.now) more
            × (string_bytes out.new ≡ string_bytes out.old ++ more)) }
    {
        push_why_refused(self.alloc, &self.types, tables, application, out)
    }

    /// Adds what is told of a line after the reason for which it is wrong, by the tables. Of a line that is refused that is, after a space,
    /// the first part that fails, what it has, and exactly what it has to be: ` value 1: v4 has i64, wants i32`. Of another line it is
    /// nothing.
    pub fn push_why(
        &self,
        tables: &Tables,
        line: &[u8],
        reason: Reason,
        out: &mut String,
    ) -> Result<(), AllocError>
        requires { IsWrong (AllowedReply tables.now.opcodes) (definitions self.now) line.now reason }
        ensures { OnOk result ((more : List ℕ) × IsTold tables.now.opcodes (definitions self.now) line.now reason more
            × (string_bytes out.new ≡ string_bytes out.old ++ more)) }
    {
        if !is_refused(reason) {
            return Ok(());
        }
        match Statement::parse(self.alloc, line)? {
            Some(Statement::Applied(application)) => self.push_refusal(tables, &application, out),
            Some(Statement::Parameter(_parameter)) => Ok(()),
            None => Ok(()),
        }
    }

    /// Defines the values of a statement, of which none is defined before. If memory runs out, nothing more is defined.
    fn define(&mut self, statement: &Statement<'_>) -> Result<(), AllocError>
        requires known { HasTypeNumbers statement.now }
        requires fresh { first_redefined (definitions self.old) (spec.defined_by (stated statement.now)) ≡ None }
        ensures defined { OnOk result (definitions self.new ≡ with_values (definitions self.old) (spec.defined_by (stated statement.now))) }
        ensures kept { OnErr result (definitions self.new ≡ definitions self.old) }
    {
        match statement {
            Statement::Parameter(parameter) => define_all(&mut self.types, &[*parameter]),
            Statement::Applied(application) => define_all(&mut self.types, &application.results),
        }
    }

    /// Defines the values of a statement if it is right by the tables, and else answers why it is wrong.
    fn add(
        &mut self,
        tables: &Tables,
        statement: &Statement<'_>,
    ) -> Result<Option<Reason>, AllocError>
        requires { HasTypeNumbers statement.now }
        ensures added { IfOk result (λ answer. (line : List ℕ) → spec.IsStatement line (stated statement.now)
            → AnswersLine (AllowedReply tables.now.opcodes) (definitions self.old) line answer (definitions self.new)) }
        ensures kept { OnErr result (definitions self.new ≡ definitions self.old) }
    {
        let mistake = mistake_of(self.alloc, &self.types, tables, statement, &mut self.lists)?;
        if let Some(reason) = mistake {
            return Ok(Some(reason));
        }
        self.define(statement)?;
        Ok(None)
    }

    /// Checks a line, which comes after those so far, by the tables. The answer is why the line is wrong. It is `None` for a line that is
    /// right or empty, and only then what the line defines is defined from now on. The cost is the length of the line, and a look-up for
    /// each value. If memory runs out, nothing changes.
    pub fn feed(&mut self, tables: &Tables, line: &[u8]) -> Result<Option<Reason>, AllocError>
        ensures fed { IfOk result (λ answer.
            Feeds (AllowedReply tables.now.opcodes) (definitions self.old) line.now answer (definitions self.new)) }
        ensures kept { OnErr result (definitions self.new ≡ definitions self.old) }
    {
        if line.is_empty() {
            return Ok(None);
        }
        let Some(statement) = Statement::parse_in(&mut self.lists, line)? else {
            return Ok(Some(Reason::Bad));
        };
        let answer = self.add(tables, &statement);
        self.lists.keep(statement);
        answer
    }
}
