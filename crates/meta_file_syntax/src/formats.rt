use super::bytes::Bytes;
use super::listed::Listed;

/// What a format stores in one place.
#[derive(Drop)]
pub enum Slot {
    /// `value`
    Value,
    /// `designated value`: the designated value, whose type is tried first as the control.
    Designated,
    /// An operand of a kind, by the word of the kind.
    Kind(Bytes),
}

/// A format: `format WORD: SLOT, SLOT`, or `none` in place of the slots. After these stands the name that is shown, if it isn't the word.
#[derive(Drop)]
pub struct FormatItem {
    /// The word by which instructions name the format.
    pub word: Bytes,
    /// The name that is shown. `None` if it is the word.
    pub shown: Option<Bytes>,
    /// What the format stores, in order. The list is empty for `none`.
    pub slots: Listed<Slot>,
}
