ghost use Rattle.std.specs.Prelude.{◌≡◌, []};
ghost use Rattle.meta_verify.specs.declared.statement.Application.{Application};
ghost use Rattle.meta_verify.specs.declared.statement.Statement.TheVariants.{Applied};

use super::statement::{Statement, TypedNumber};
use std::alloc::Global;
use std::mem::replace;

/// The lists that the parts of a line are read into. They serve for all lines, one after another.
#[derive(Drop)]
pub(crate) struct Lists {
    pub(crate) results: Vec<TypedNumber>,
    pub(crate) values: Vec<u32>,
    pub(crate) result_numbers: Vec<u16>,
    pub(crate) value_numbers: Vec<u16>,
    alloc: Global,
}

impl Lists {
    pub(crate) fn new(alloc: Global) -> Lists
        ensures results { result.results.items ≡ [] }
        ensures values { result.values.items ≡ [] }
    {
        Lists {
            results: Vec::new(alloc),
            values: Vec::new(alloc),
            result_numbers: Vec::new(alloc),
            value_numbers: Vec::new(alloc),
            alloc,
        }
    }

    pub(crate) fn take_results(&mut self) -> Vec<TypedNumber>
        ensures { result ≡ self.old.results }
    {
        replace(&mut self.results, Vec::new(self.alloc))
    }

    pub(crate) fn take_values(&mut self) -> Vec<u32>
        ensures { result ≡ self.old.values }
    {
        replace(&mut self.values, Vec::new(self.alloc))
    }

    /// Takes back the lists of a statement that isn't needed any more.
    pub(crate) fn keep(&mut self, statement: Statement<'_>)
        ensures results { (a : Application) → statement.entry ≡ Applied a → self.new.results ≡ a.results }
        ensures values { (a : Application) → statement.entry ≡ Applied a → self.new.values ≡ a.values }
    {
        if let Statement::Applied(application) = statement {
            self.results = application.results;
            self.values = application.values;
        }
    }
}
