//! The run of a program over declarations: the declarations, the whole input, the whole answer in memory, the writes.
//!
//! A program says by `Answerer` what its input is answered with. `run_answerer` does the rest, and its clause `ran` says what was
//! read and written by how the run ended. So a program is its answerer and a call:
//!
//! ```text
//! impl Answerer for Verifier {
//!     ghost reads = { λ _. true };
//!
//!     ghost texts = { λ _ d input is_rejection text. IsVerdict d input is_rejection text };
//!
//!     fn has_input(&self) -> bool {
//!         true
//!     }
//!
//!     fn answer(&self, alloc: Global, built: &Built<'_>, input: &[u8]) -> Result<Answer, AllocError> {
//!         verdict(alloc, &tables_of(alloc, built)?, input)
//!     }
//! }
//!
//! pub fn verify<S: Source, K: Sink>(
//!     alloc: Global,
//!     words: &[Text],
//!     declarations: &Declarations,
//!     source: &mut S,
//!     sink: &mut K,
//! ) -> Ending
//!     ensures runs { RunsWordless S.left S.faults K.taken K.faults declarations.now source.old source.new sink.old sink.new
//!         words.now verdicts result }
//! {
//!     one_first_fault();
//!     match words {
//!         [] => run_answerer(alloc, &Verifier, declarations, source, sink),
//!         _ => Ending::Usage,
//!     }
//! }
//! ```
//!
//! A program with words has `Runs` instead, over what its words mean. Each field of `Runs` is a fact of the call: what was read and
//! written by how it ended, and what it does where nothing fails. One that rejects nothing has the texts `never_rejecting` of its
//! outputs. Where a call has the run itself, `IsRun`, the lemma `runs` of `proofs/Programs` gives all fields.
#![tactic(auto)]

mod answerer;
mod ending;
mod refusing;
mod running;

pub use answerer::{Answer, Answerer};
pub use ending::Ending;
pub use running::run_answerer;
