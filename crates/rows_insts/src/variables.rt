ghost use Rattle.std.specs.Prelude.{◌<◌, length};

use crate::sets::{answer_on_set, set_of, write_masks};
use meta_types::{DerivedFunc, Text};
use meta_typevar::{TypeVar, TypeVarParent, TypeVars};
use rows_base::{Answer, Case, Trouble, found, function_named, hash_of, type_of};
use std::alloc::Global;

/// Writes the masks of a variable's coded image, and those of its stored set, if that is the coded image; the only member of its coded
/// image, and the only type that it can have.
fn write_sets(case: &mut Case<'_>, alloc: Global, vars: &TypeVars, tv: TypeVar) -> Answer
    requires { tv < length vars.now }
{
    let coded = tv.get_typeset(alloc, vars)?.masks();
    case.text(" coded ");
    write_masks(case, coded);
    case.text(" raw ");
    if tv.is_raw(alloc, vars)? {
        write_masks(case, tv.get_raw_typeset(vars).masks());
    } else {
        case.letter('-');
    }
    case.text(" one ");
    match tv.singleton_type(alloc, vars)? {
        Some(value_type) => case.shown(&value_type),
        None => case.letter('-'),
    }
    case.text(" fixed ");
    match tv.fixed_type(vars) {
        Some(value_type) => case.shown(&value_type),
        None => case.letter('-'),
    }
    Ok(())
}

#[derive(Drop)]
pub(crate) struct Variables<'l> {
    alloc: Global,
    pub(crate) vars: TypeVars,
    numbered: Vec<TypeVar>,
    /// Variables by their words. A word outlives its registry.
    named: Vec<(&'l str, TypeVar)>,
}

impl<'l> Variables<'l> {
    pub(crate) fn new(alloc: Global) -> Variables<'l> {
        Variables {
            alloc,
            vars: TypeVars::new(alloc),
            numbered: Vec::new(alloc),
            named: Vec::new(alloc),
        }
    }

    fn write_count(&self, case: &mut Case<'_>) {
        case.field("variables ", &self.vars.len());
        case.field(" roots ", &self.vars.root_count());
    }

    pub(crate) fn named(&self, word: &str) -> Result<TypeVar, Trouble> {
        found(&self.named, word)
    }

    pub(crate) fn next(&self, case: &mut Case<'_>) -> Result<TypeVar, Trouble> {
        self.named(case.word())
    }

    /// The name of a variable, `-` if there is none, and `?` if it is of another registry.
    pub(crate) fn name(&self, tv: Option<TypeVar>) -> &str {
        match tv {
            Some(tv) if self.vars.is_of(tv) => self.vars.content(tv).name.as_str(),
            Some(_) => "?",
            None => "-",
        }
    }

    /// Counts the variable that a call answered, lets the word stand for it, and answers whether the call added it.
    fn keep(&mut self, word: &'l str, tv: TypeVar) -> Result<bool, Trouble> {
        let is_added = self.vars.len() > self.numbered.len();
        if is_added {
            self.numbered.push(tv)?;
        }
        if self.named.push((word, tv)).is_err() {
            return Err(Trouble::OutOfMemory);
        }
        Ok(is_added)
    }

    /// The variable that is derived from one by a function: what `derived` answers, or the call that has the function's name.
    fn derived(
        &mut self,
        tv: TypeVar,
        function: DerivedFunc,
        is_call: bool,
    ) -> Result<TypeVar, Trouble> {
        let vars = &mut self.vars;
        if !vars.has_room() || !vars.is_of(tv) || !tv.can_derive(self.alloc, vars, function)? {
            return Err(Trouble::NoCase);
        }
        Ok(match function {
            _ if !is_call => tv.derived(vars, function),
            DerivedFunc::LaneOf => tv.lane_of(vars),
            DerivedFunc::AsTruthy => tv.as_truthy(vars),
            DerivedFunc::HalfWidth => tv.half_width(vars),
            DerivedFunc::DoubleWidth => tv.double_width(vars),
            DerivedFunc::SplitLanes => tv.split_lanes(vars),
            DerivedFunc::MergeLanes => tv.merge_lanes(vars),
            DerivedFunc::DynamicToVector => tv.dynamic_to_vector(vars),
            DerivedFunc::Narrower => tv.narrower(vars),
            DerivedFunc::Wider => tv.wider(vars),
        }?)
    }

    /// Writes, after a word, the number of a variable by the order in which they were added, `?` if it wasn't added, and `-` if there is
    /// none.
    fn write_number(&self, word: &str, found: Option<TypeVar>, case: &mut Case<'_>) {
        case.text(word);
        let Some(tv) = found else {
            return case.letter('-');
        };
        for (number, known) in self.numbered.iter().enumerate() {
            if *known == tv {
                return case.shown(&number);
            }
        }
        case.letter('?');
    }

    /// Writes what the registry has of a variable, if it is its own: its number, whether it was added, its name, its documentation and its
    /// parent; its sets; and its free variable, its root and its chain.
    fn describe(&self, tv: TypeVar, change: &str, case: &mut Case<'_>) -> Answer {
        if !self.vars.is_of(tv) {
            return Err(Trouble::NoCase);
        }
        let (alloc, vars) = (self.alloc, &self.vars);
        let content = vars.content(tv);
        self.write_number("", Some(tv), case);
        case.field(" ", &change);
        case.field(" ", &content.name.as_str());
        case.field(" \"", &content.doc.as_str());
        case.text("\" base ");
        match &content.base {
            Some(parent) => {
                case.text(parent.derived_func.name());
                self.write_number(" of ", Some(parent.type_var), case);
            }
            None => case.letter('-'),
        }
        write_sets(case, alloc, vars, tv)?;
        self.write_number(" free ", tv.free_typevar(alloc, vars)?, case);
        self.write_number(" root ", Some(tv.root(vars)), case);
        case.text(" chain ");
        let start = case.written();
        for derived_func in tv.chain(alloc, vars)? {
            case.item(start, derived_func.name());
        }
        case.end_list(start);
        Ok(())
    }

    /// Lets a word stand for a variable, and writes what the registry has of it. `root X = SET | DOC` and `one X = TYPE` are a fresh root
    /// of a set and one that stands for a type; `copy X of Y` is a fresh root with the set of another; `derive X = FUNCTION Y` is what
    /// `derived` answers; `call X = FUNCTION Y` is what the call of this name answers.
    fn make(&mut self, how: &str, case: &mut Case<'l>) -> Answer {
        let word = case.word();
        case.expect(if how == "copy" { "of" } else { "=" });
        if !self.vars.has_room() {
            return Err(Trouble::NoCase);
        }
        let tv = match how {
            "root" => {
                let set = set_of(self.alloc, case.rest())?;
                let (name, doc) = (
                    Text::new(self.alloc, word)?,
                    Text::new(self.alloc, case.doc())?,
                );
                TypeVar::new(&mut self.vars, name, doc, set)?
            }
            "one" => {
                let value_type = type_of(case.word())?;
                TypeVar::new_singleton(&mut self.vars, value_type)?
            }
            "copy" => {
                let other = self.next(case)?;
                if !self.vars.is_of(other) || other.root(&self.vars) != other {
                    return Err(Trouble::NoCase);
                }
                let name = Text::new(self.alloc, word)?;
                TypeVar::copy_from(&mut self.vars, other, name)?
            }
            _ => {
                let function = function_named(case.word())?;
                let from = self.next(case)?;
                self.derived(from, function, how == "call")?
            }
        };
        let is_added = self.keep(word, tv)?;
        self.describe(tv, if is_added { "added" } else { "known" }, case)
    }

    /// `equal_variables X Y`: whether two variables are equal; if they are, also whether the first is equal to a reference to the other,
    /// and whether they hash equally; if not, whether the first comes before the other.
    fn write_equal(&self, case: &mut Case<'_>) -> Answer {
        let (one, other) = (self.next(case)?, self.next(case)?);
        let referred = TypeVar::from(&other);
        case.field("equal ", &(one == other));
        if one != other {
            case.field(" before ", &(one < other));
            return Ok(());
        }
        case.field(" referred ", &(one == referred));
        let hash = hash_of(&one);
        let is_same = hash == hash_of(&other) && hash == hash_of(&referred);
        case.field(" hashes ", &is_same);
        Ok(())
    }

    /// `parent X FUNCTION Y`: whether the parent of a variable is Y by the function, and whether both hash alike.
    fn write_parent(&self, case: &mut Case<'_>) -> Answer {
        let derived = self.next(case)?;
        let derived_func = function_named(case.word())?;
        let type_var = self.next(case)?;
        if !self.vars.is_of(derived) {
            return Err(Trouble::NoCase);
        }
        let expected = Some(TypeVarParent {
            type_var,
            derived_func,
        });
        let base = &self.vars.content(derived).base;
        case.field("equal ", &(*base == expected));
        case.field(" hashes ", &(hash_of(base) == hash_of(&expected)));
        Ok(())
    }

    /// Writes the answer to a line about variables or sets. `new` begins another registry, and `root`, `one`, `copy`, `derive` and `call`
    /// make a variable. `count` writes how many there are, and `show X` what the registry has of a variable. `is_of X` writes whether it is
    /// of the registry, and `can_derive FUNCTION X` whether the function may be used on it. `equal_variables` and `parent` compare
    /// variables. Any other line is about a set.
    pub(crate) fn answer(&mut self, word: &str, case: &mut Case<'l>) -> Answer {
        match word {
            "root" | "one" | "copy" | "derive" | "call" => return self.make(word, case),
            "new" => {
                self.vars = TypeVars::new(self.alloc);
                self.numbered.clear();
                self.write_count(case);
            }
            "count" => self.write_count(case),
            "show" => {
                let tv = self.next(case)?;
                return self.describe(tv, "kept", case);
            }
            "is_of" => {
                let tv = self.next(case)?;
                case.yes_or_no(self.vars.is_of(tv));
            }
            "can_derive" => {
                let function = function_named(case.word())?;
                let tv = self.next(case)?;
                if !self.vars.is_of(tv) {
                    return Err(Trouble::NoCase);
                }
                case.yes_or_no(tv.can_derive(self.alloc, &self.vars, function)?);
            }
            "equal_variables" => return self.write_equal(case),
            "parent" => return self.write_parent(case),
            _ => return answer_on_set(self.alloc, word, case),
        }
        Ok(())
    }
}
