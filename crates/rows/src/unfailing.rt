ghost use Rattle.std.specs.Prelude.{◌≢◌};
ghost use Rattle.meta_run.specs.declared.ending.Ending.{Ending as Status};

use meta_build::Declarations;
use meta_query::{Status, run};
use meta_text::NeverFails;
use meta_types::Text;
use rows_base::{Answer, Case, texts_of_words};
use std::alloc::Global;

fn run_unfailing(
    alloc: Global,
    words: &[Text],
    declarations: &Declarations,
    source: &mut NeverFails,
    sink: &mut NeverFails,
) -> Status
    ensures no_fault { (result ≢ Status.ReadFault) × (result ≢ Status.WriteFault) }
{
    run(alloc, words, declarations, source, sink)
}

pub(crate) fn write_unfailing(
    alloc: Global,
    declarations: &Declarations,
    input: Vec<u8>,
    case: &mut Case<'_>,
) -> Answer {
    let mut source = NeverFails::new(input);
    let mut sink = NeverFails::new(Vec::new(alloc));
    let words = texts_of_words(alloc, case.rest())?;
    let status = run_unfailing(alloc, &words, declarations, &mut source, &mut sink);
    case.field("status ", &status.code());
    Ok(())
}
