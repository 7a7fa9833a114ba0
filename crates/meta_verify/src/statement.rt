ghost use Rattle.std.specs.Prelude.{◌≡◌, ◌≢◌, ◌↔◌, ℕ, ◌<◌, true, false, List, [], ◌∷◌, length, map, All, IfOk, IfSome, IfNone, IsTrue};
ghost use Rattle.std.specs.Prelude.{codes};
ghost use Rattle.meta_lines.specs.Words.{pieces_of};
ghost use Rattle.meta_verify.specs.Statement as spec;
ghost use Rattle.meta_verify.specs.Statement.{TypedValue, IsTyped, IsValue, IsStatement, value_text, typed_text, list_text};
ghost use Rattle.meta_verify.specs.Numbers.{typed_value_of, stated, IsTypedNumber, HasTypeNumbers};

use super::lists::Lists;
use meta_lines::{Pieces, cut, number_u32, parse_control};
use meta_types::type_number;
use std::alloc::{AllocError, Global};

/// A value and its type.
#[derive(Clone, Copy, Debug, PartialEq, Eq)]
pub struct TypedNumber {
    /// The number of the value.
    pub value: u32,
    /// The number of the type.
    pub number: u16,
}

/// An instruction applied to values.
#[derive(Drop)]
pub struct Application<'a> {
    /// The name of the instruction, as it stands in the line: any bytes but spaces.
    pub name: &'a [u8],
    /// The number of the controlling type, if there is one.
    pub control: Option<u16>,
    /// The number of the second controlling type, if there is one.
    pub second: Option<u16>,
    /// The values that it defines.
    pub results: Vec<TypedNumber>,
    /// The numbers of the values that it is applied to.
    pub values: Vec<u32>,
}

/// What a line states.
#[derive(Drop)]
pub enum Statement<'a> {
    /// A parameter of the list: `param V T`.
    Parameter(TypedNumber),
    /// An instruction applied to values: `line NAME CONTROL RESULTS VALUES`.
    Applied(Application<'a>),
}

/// The value that the word names: `v` and its number.
fn parse_value(word: &[u8]) -> Option<u32>
    ensures some { IfSome result (λ v. word.now ≡ value_text v) }
    ensures small { IfSome result IsValue }
    ensures none { IfNone result ((v : ℕ) → IsValue v → word.now ≢ value_text v) }
{
    match word {
        [b'v', digits @ ..] => number_u32(digits),
        _ => None,
    }
}

/// The value and the type that the word names: `v1:i32`.
fn parse_typed(word: &[u8]) -> Option<TypedNumber>
    ensures some { IfSome result (λ r. word.now ≡ typed_text (typed_value_of r)) }
    ensures known { IfSome result IsTypedNumber }
    ensures none { IfNone result ((r : TypedValue) → IsTyped r → word.now ≢ typed_text r) }
{
    let (front, rest) = cut(word, b':');
    let value = parse_value(front)?;
    let name = rest?;
    let number = type_number(name)?;
    Some(TypedNumber { value, number })
}

/// Whether the word is `-`, which lists nothing.
fn is_dash(word: &[u8]) -> bool
    ensures { IsTrue result ↔ (word.now ≡ codes "-") }
{
    matches!(word, b"-")
}

/// Reads the values that the word lists, in place of what the list had. The answer is false if the word is no list of values.
fn read_values(values: &mut Vec<u32>, word: &[u8]) -> Result<bool, AllocError>
    ensures known { All IsValue values.new.items }
    ensures found { IfOk result (λ read. read ≡ true → list_text (map value_text values.new.items) ≡ word.now) }
    ensures none { IfOk result (λ read. read ≡ false → (vs : List ℕ) → All IsValue vs → list_text (map value_text vs) ≢ word.now) }
{
    values.clear();
    if is_dash(word) {
        return Ok(true);
    }
    for piece in Pieces::new(word, b',') {
        let Some(value) = parse_value(piece) else {
            return Ok(false);
        };
        values.push(value)?;
    }
    Ok(true)
}

/// Reads the values with their types that the word lists, in place of what the list had. The answer is false if the word is no such list.
fn read_results(results: &mut Vec<TypedNumber>, word: &[u8]) -> Result<bool, AllocError>
    ensures known { All IsTypedNumber results.new.items }
    ensures found { IfOk result (λ read. read ≡ true → list_text (map typed_text (map typed_value_of results.new.items)) ≡ word.now) }
    ensures none { IfOk result (λ read. read ≡ false → (rs : List TypedValue) → All IsTyped rs → list_text (map typed_text rs) ≢ word.now) }
{
    results.clear();
    if is_dash(word) {
        return Ok(true);
    }
    for piece in Pieces::new(word, b',') {
        let Some(result) = parse_typed(piece) else {
            return Ok(false);
        };
        results.push(result)?;
    }
    Ok(true)
}

/// Whether the line begins with the first byte of `param`.
fn begins_with_p(line: &[u8]) -> bool
    ensures { result ≡ false → (rest : List ℕ) → line.now ≢ 112 ∷ rest }
{
    matches!(line, [b'p', ..])
}

/// The words after `param` in a line of three words. The last may have no bytes.
#[derive(Clone, Copy)]
struct ParameterWords<'a> {
    value: &'a [u8],
    name: &'a [u8],
}

fn parameter_words(line: &[u8]) -> Option<ParameterWords<'_>>
    ensures words { IfSome result (λ w. pieces_of 32 line.now ≡ codes "param" ∷ w.value.now ∷ w.name.now ∷ []) }
    ensures none { IfNone result ((value name : List ℕ) → pieces_of 32 line.now ≢ codes "param" ∷ value ∷ name ∷ []) }
{
    if !begins_with_p(line) {
        return None;
    }
    let mut words = Pieces::new(line, b' ');
    let command = words.next()?;
    if command != b"param".as_slice() {
        return None;
    }
    let value = words.next()?;
    let name = words.next()?;
    if words.next().is_some() {
        return None;
    }
    Some(ParameterWords { value, name })
}

fn parse_parameter(line: &[u8]) -> Option<TypedNumber>
    ensures found { IfSome result (λ r. IsStatement line.now (spec.OfParameter (typed_value_of r))) }
    ensures known { IfSome result IsTypedNumber }
    ensures none { IfNone result ((r : TypedValue) → ¬ IsStatement line.now (spec.OfParameter r)) }
{
    let words = parameter_words(line)?;
    let value = parse_value(words.value)?;
    let number = type_number(words.name)?;
    Some(TypedNumber { value, number })
}

fn is_line(word: &[u8]) -> bool
    ensures { IsTrue result ↔ (word.now ≡ codes "line") }
{
    matches!(word, b"line")
}

/// The words after `line` in a line of five words.
#[derive(Clone, Copy)]
struct ApplicationWords<'a> {
    name: &'a [u8],
    control: &'a [u8],
    results: &'a [u8],
    values: &'a [u8],
}

/// The words of the line, if it is `line` and four more words. The last three may have no bytes.
fn application_words(line: &[u8]) -> Option<ApplicationWords<'_>>
    ensures words { IfSome result (λ w.
        pieces_of 32 line.now ≡ codes "line" ∷ w.name.now ∷ w.control.now ∷ w.results.now ∷ w.values.now ∷ []) }
    ensures named { IfSome result (λ w. 0 < length w.name.now) }
    ensures none { IfNone result ((name control results values : List ℕ) → 0 < length name
        → pieces_of 32 line.now ≢ codes "line" ∷ name ∷ control ∷ results ∷ values ∷ []) }
{
    let mut words = Pieces::new(line, b' ');
    if !is_line(words.next()?) {
        return None;
    }
    let name = words.next()?;
    if name.is_empty() {
        return None;
    }
    let control = words.next()?;
    let results = words.next()?;
    let values = words.next()?;
    if words.next().is_some() {
        return None;
    }
    Some(ApplicationWords {
        name,
        control,
        results,
        values,
    })
}

impl<'a> Application<'a> {
    /// The application that the line states, read into these lists.
    fn parse_in(lists: &mut Lists, line: &'a [u8]) -> Result<Option<Application<'a>>, AllocError>
        ensures found { IfOk result (λ o. IfSome o (λ a. IsStatement line.now (stated (Statement.Applied a)))) }
        ensures known { IfOk result (λ o. IfSome o (λ a. HasTypeNumbers (Statement.Applied a))) }
        ensures none { IfOk result (λ o. IfNone o ((a : spec.Application) → ¬ IsStatement line.now (spec.OfApplication a))) }
    {
        let Some(words) = application_words(line) else {
            return Ok(None);
        };
        let Some(controls) = parse_control(words.control) else {
            return Ok(None);
        };
        let mut results = lists.take_results();
        if !read_results(&mut results, words.results)? {
            return Ok(None);
        }
        let mut values = lists.take_values();
        if !read_values(&mut values, words.values)? {
            return Ok(None);
        }
        Ok(Some(Application {
            name: words.name,
            control: controls.control,
            second: controls.second,
            results,
            values,
        }))
    }
}

impl<'a> Statement<'a> {
    /// What the line states. It is `None` exactly if the line states nothing.
    pub fn parse(alloc: Global, line: &'a [u8]) -> Result<Option<Statement<'a>>, AllocError>
        ensures found { IfOk result (λ o. IfSome o (λ s. IsStatement line.now (stated s))) }
        ensures known { IfOk result (λ o. IfSome o HasTypeNumbers) }
        ensures none { IfOk result (λ o. IfNone o ((s : spec.Statement) → ¬ IsStatement line.now s)) }
    {
        let mut lists = Lists::new(alloc);
        Statement::parse_in(&mut lists, line)
    }

    /// The same, read into these lists.
    pub(crate) fn parse_in(
        lists: &mut Lists,
        line: &'a [u8],
    ) -> Result<Option<Statement<'a>>, AllocError>
        ensures found { IfOk result (λ o. IfSome o (λ s. IsStatement line.now (stated s))) }
        ensures known { IfOk result (λ o. IfSome o HasTypeNumbers) }
        ensures none { IfOk result (λ o. IfNone o ((s : spec.Statement) → ¬ IsStatement line.now s)) }
    {
        if let Some(parameter) = parse_parameter(line) {
            return Ok(Some(Statement::Parameter(parameter)));
        }
        match Application::parse_in(lists, line)? {
            Some(application) => Ok(Some(Statement::Applied(application))),
            None => Ok(None),
        }
    }
}
