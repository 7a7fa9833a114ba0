ghost use Rattle.std.specs.Prelude.{◌≡◌, ◌≤◌, Bool, false, List, [], ℕ, length, IfOk, string_bytes};
ghost use Rattle.meta_text.specs.Outside.{longest_input};
ghost use Rattle.meta_build.specs.AllDeclared.{Declared};

use meta_build::Built;
use std::alloc::{AllocError, Global};

/// A text that answers an input.
#[derive(Drop)]
pub struct Answer {
    /// The text that is written.
    pub text: String,
    /// Whether the text says why the input is rejected.
    pub is_rejection: bool,
}

/// What answers the input of a program.
pub trait Answerer {
    // Whether there is an input. If there is none, the source isn't read.
    ghost reads: { Self → Bool };

    // The texts that answer an input over declarations, each as an answer or, if the mark is true, as a rejection.
    ghost texts: { Self → Declared → List ℕ → Bool → List ℕ → Type 0 };

    /// Whether there is an input.
    fn has_input(&self) -> bool
        ensures { result ≡ reads self.now };

    /// Answers the input over what was built of declarations. If there is no input, `input` is empty.
    fn answer(&self, alloc: Global, built: &Built<'_>, input: &[u8]) -> Result<Answer, AllocError>
        requires within { length input.now ≤ longest_input }
        requires no_input { reads self.now ≡ false → input.now ≡ [] }
        ensures { IfOk result (λ answer. texts self.now built.now.declared input.now answer.is_rejection (string_bytes answer.text)) };
}
