ghost use Rattle.std.specs.Prelude.{◌≡◌, true, false, string_bytes};

use meta_run::Answer;

/// The answer that accepts an input by this text.
pub fn accepted(text: String) -> Answer
    ensures text { string_bytes result.text ≡ string_bytes text }
    ensures accepts { result.is_rejection ≡ false }
{
    Answer {
        text,
        is_rejection: false,
    }
}

/// The answer that rejects an input by this text.
pub fn rejection(text: String) -> Answer
    ensures text { string_bytes result.text ≡ string_bytes text }
    ensures rejects { result.is_rejection ≡ true }
{
    Answer {
        text,
        is_rejection: true,
    }
}
