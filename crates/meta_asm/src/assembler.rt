ghost use Rattle.std.specs.Prelude.{◌≡◌, true};
ghost use Rattle.meta_run.specs.Run.{IsRun, Runs};
ghost use Rattle.meta_asm.specs.Form.{words_for, written_in};
ghost use Rattle.meta_asm.specs.Assembler.{ShortensList, SpellsList, WritesBack};

use super::form::Form;
use super::listing::{explained_short, shortened, spelled};
use super::short_laws::short_forms_mean;
use meta_build::{Built, Declarations, one_first_fault};
use meta_gen::tables_of;
use meta_run::{Answer, Answerer, Ending, run_answerer};
use meta_text::{Sink, Source};
use meta_types::Text;
use meta_verify::verdicts_mean;
use std::alloc::{AllocError, Global};

impl Answerer for Form {
    ghost use Rattle.std.specs.Prelude.{true};
    ghost use Rattle.meta_asm.specs.Form.{written_in};

    ghost reads = { λ _. true };

    ghost texts = { written_in };

    fn has_input(&self) -> bool {
        true
    }

    fn answer(&self, alloc: Global, built: &Built<'_>, input: &[u8]) -> Result<Answer, AllocError> {
        verdicts_mean();
        short_forms_mean();
        let _declarations = built.declarations();
        let tables = tables_of(alloc, built)?;
        match self {
            Form::Short => shortened(alloc, &tables, input),
            Form::Explicit => spelled(alloc, &tables, input),
        }
    }
}

/// The answerer of `asm` that also tells why a line is refused: it answers an input in the form as the form does, but for what it tells
/// after `refused`.
#[derive(Clone, Copy)]
pub struct ExplainedForm {
    /// The form.
    pub form: Form,
}

impl Answerer for ExplainedForm {
    ghost use Rattle.std.specs.Prelude.{true};
    ghost use Rattle.meta_asm.specs.Why.{explained_in};

    ghost reads = { λ _. true };

    ghost texts = { λ x. explained_in x.form };

    fn has_input(&self) -> bool {
        true
    }

    fn answer(&self, alloc: Global, built: &Built<'_>, input: &[u8]) -> Result<Answer, AllocError> {
        verdicts_mean();
        short_forms_mean();
        let _declarations = built.declarations();
        let tables = tables_of(alloc, built)?;
        match self.form {
            Form::Short => explained_short(alloc, &tables, input),
            Form::Explicit => spelled(alloc, &tables, input),
        }
    }
}

/// Writes the lines of the input in the form that the words ask for.
fn assemble<S: Source, K: Sink>(
    alloc: Global,
    words: &[Text],
    declarations: &Declarations,
    source: &mut S,
    sink: &mut K,
) -> Ending
    ensures { IsRun S.left S.faults K.taken K.faults declarations.now source.old source.new sink.old sink.new
        (λ form. words.now ≡ words_for form) (λ _. true) written_in result }
{
    match Form::parse(words) {
        Some(form) => run_answerer(alloc, &form, declarations, source, sink),
        None => Ending::Usage,
    }
}

/// Writes a list of lines over declarations in another form. The one word is `short` or `explicit`.
///
/// For `short` the sink takes each line without the types that follow from others, or else `line N: REASON` for the first wrong line, as
/// `verify` says. For `explicit` it takes, for each text in the short form, the line that it is the short form of, with all types; or else
/// only `line N: bad`, for the first text that reads as no line. Each line has LF after it. Empty lines are skipped, and counted in N.
///
/// The order is: the words; the declarations, which are refused by their first fault if they have one; the whole input; the whole answer,
/// in memory; the writes. The answer says how the run ended, and `OutOfMemory` may come in any case but `Usage`.
pub fn asm<S: Source, K: Sink>(
    alloc: Global,
    words: &[Text],
    declarations: &Declarations,
    source: &mut S,
    sink: &mut K,
) -> Ending
    // Over valid declarations `short` writes the short form of each line, exactly if no line is wrong. `explicit` writes the line that each
    // text reads as, exactly if each reads as one. Otherwise the first line that is wrong, or reads as none, is named.
    ensures shortens { ShortensList S.left S.faults K.taken K.faults declarations.now source.old source.new sink.old
        sink.new words.now result }
    ensures spells { SpellsList S.left S.faults K.taken K.faults declarations.now source.old source.new sink.old sink.new words.now result }

    // So `explicit` writes back the list from which `short` wrote its input: the run is done, and the list is the same, but for empty lines
    // and CRs.
    ensures writes_back { WritesBack S.left S.faults K.taken K.faults declarations.now source.old source.new sink.old
        sink.new words.now result }

    // What was read and written, by how the run ended, and what is done where nothing fails. Each field is a fact of the call.
    ensures runs { Runs S.left S.faults K.taken K.faults declarations.now source.old source.new sink.old sink.new
        (λ form. words.now ≡ words_for form) (λ _. true) written_in result }
{
    one_first_fault();
    assemble(alloc, words, declarations, source, sink)
}
