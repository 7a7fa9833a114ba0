ghost use Rattle.std.specs.Prelude.{◌≡◌, ◌≤◌, true, false, [], length, IfOk, IsErrOf};
ghost use Rattle.meta_text.specs.Outside.{Rose, longest_input, GaveMore, GaveAtMost};
ghost use Rattle.meta_run.specs.Run.{IsInput, IsAnsweredWhole, Ran, AnswersInput, RefusesDeclarations, Completes};

use super::answerer::Answerer;
use super::ending::Ending;
use super::refusing::refuse;
use meta_build::{Built, Declarations, build_all, one_first_fault};
use meta_text::{ReadError, Sink, Source, read_whole, write_whole};
use std::alloc::Global;

/// The input of an answerer: all that the source has left, if there is an input, and else no bytes.
fn read_input<S: Source, A: Answerer>(
    alloc: Global,
    answerer: &A,
    source: &mut S,
) -> Result<Vec<u8>, ReadError>
    ensures read { IfOk result (λ input. IsInput S.left (A.reads answerer.now) source.old source.new input.items) }
    ensures within { IfOk result (λ input. length input.items ≤ longest_input) }
    ensures no_input { A.reads answerer.now ≡ false → IfOk result (λ input. input.items ≡ []) }
    ensures unread { A.reads answerer.now ≡ false → source.new ≡ source.old }
    ensures read_fault { IsErrOf result ReadError.ReadFault → (A.reads answerer.now ≡ true)
        × Rose (S.faults source.old) (S.faults source.new) }
    ensures else_no_fault { ¬ IsErrOf result ReadError.ReadFault → S.faults source.new ≡ S.faults source.old }
    ensures too_long { IsErrOf result ReadError.TooLong → (A.reads answerer.now ≡ true)
        × GaveMore longest_input (S.left source.old) (S.left source.new) }
    ensures else_within { ¬ IsErrOf result ReadError.TooLong → GaveAtMost longest_input (S.left source.old) (S.left source.new) }
    ensures counted { S.faults source.old ≤ S.faults source.new }
{
    match answerer.has_input() {
        true => read_whole(alloc, source),
        false => Ok(Vec::new(alloc)),
    }
}

/// Reads the input, and writes its answer once all of the answer is in memory.
fn answer<S: Source, K: Sink, A: Answerer>(
    alloc: Global,
    answerer: &A,
    built: &Built<'_>,
    source: &mut S,
    sink: &mut K,
) -> Ending
    ensures { Ran S.left S.faults K.taken K.faults built.now.declared source.old source.new sink.old sink.new
        (A.reads answerer.now) (A.texts answerer.now) result }
{
    let _declarations = built.declarations();
    let input = match read_input(alloc, answerer, source) {
        Ok(input) => input,
        Err(ReadError::ReadFault) => return Ending::ReadFault,
        Err(ReadError::TooLong) => return Ending::TooLong,
        Err(ReadError::OutOfMemory) => return Ending::OutOfMemory,
    };
    let Ok(answer) = answerer.answer(alloc, built, &input) else {
        return Ending::OutOfMemory;
    };
    match write_whole(sink, answer.text.as_bytes()) {
        Ok(()) if answer.is_rejection => Ending::Rejected,
        Ok(()) => Ending::Done,
        Err(_) => Ending::WriteFault,
    }
}

/// Has the declarations built, and answers the input or refuses them.
fn attempt<S: Source, K: Sink, A: Answerer>(
    alloc: Global,
    answerer: &A,
    declarations: &Declarations,
    source: &mut S,
    sink: &mut K,
) -> Ending
    ensures { Ran S.left S.faults K.taken K.faults declarations.now source.old source.new sink.old sink.new
        (A.reads answerer.now) (A.texts answerer.now) result }
{
    match build_all(alloc, declarations) {
        Ok(built) => answer(alloc, answerer, &built, source, sink),
        Err(fault) => refuse(alloc, &fault, sink),
    }
}

/// Runs a program over declarations. Declarations with a fault are refused, by their first fault. The order is: the declarations; the whole
/// input, if there is one; the whole answer, in memory; the writes. `OutOfMemory` may come in any case.
pub fn run_answerer<S: Source, K: Sink, A: Answerer>(
    alloc: Global,
    answerer: &A,
    declarations: &Declarations,
    source: &mut S,
    sink: &mut K,
) -> Ending
    // What was read and written, by how it ended.
    ensures ran { Ran S.left S.faults K.taken K.faults declarations.now source.old source.new sink.old sink.new
        (A.reads answerer.now) (A.texts answerer.now) result }

    // Over valid declarations the input is answered. Other declarations are refused.
    ensures headline { AnswersInput S.left S.faults K.taken K.faults declarations.now source.old source.new sink.old
        sink.new (A.reads answerer.now) (A.texts answerer.now) result }
    ensures refuses { RefusesDeclarations S.left S.faults K.taken K.faults declarations.now source.old source.new sink.old sink.new result }
    ensures complete { Completes S.left S.faults K.taken K.faults declarations.now source.old source.new sink.old
        sink.new (A.reads answerer.now) result }

    // An input is rejected only if the answerer says so.
    ensures rejected { result ≡ Ending.Rejected
        → IsAnsweredWhole S.left S.faults K.taken K.faults declarations.now source.old source.new sink.old sink.new
        (A.reads answerer.now) (A.texts answerer.now) true }
{
    one_first_fault();
    attempt(alloc, answerer, declarations, source, sink)
}
