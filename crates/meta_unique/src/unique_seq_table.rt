ghost use Rattle.std.specs.Prelude.{◌≡◌, ℕ, ◌<◌, [], length, take, Contains, true, false, IfOk, IfSome, IfNone, OnOk, OnErr};
ghost use Rattle.std.specs.Slice.Iter.{iter_rest};
ghost use Rattle.meta_unique.specs.Overlap.{AreAlike, stands_at, is_shared, first_place, shared, added, added_at, IsShortest};

use std::alloc::{AllocError, Global};
use std::marker::Model;
use std::slice;

/// One list that has other lists in it, each in one piece. A list that is added shares with the end of the table what it can, as in the
/// crate's `unique_table.rs`.
#[derive(Drop)]
pub struct UniqueSeqTable<T: Eq + Clone + Drop> {
    table: Vec<T>,
}

impl<T: Eq + Clone + Drop> Model for UniqueSeqTable<T> {
    ghost use Rattle.std.specs.Prelude.{List};

    ghost Value = { List T };

    ghost view = { λ t. t.table.items };
}

impl<T: Eq + Clone + Drop> UniqueSeqTable<T> {
    /// Makes a table without elements.
    pub fn new(alloc: Global) -> Self
        ensures { result ≡ [] }
    {
        UniqueSeqTable {
            table: Vec::new(alloc),
        }
    }

    /// Adds the values in one piece, and answers where they stand. If there are no values, that is 0; if they stood in the table, it is
    /// their first place there. Else the longest tail of the table that is also the beginning of the values, but not all of them, is
    /// shared: clones of the other values are added at the end. Clones must equal the values. If memory runs out, the table stays as it
    /// was.
    pub fn add(&mut self, values: &[T]) -> Result<usize, AllocError>
        requires { (x y : T) → Contains values.now x → T.is_clone x y → T.eq x y ≡ true }
        ensures made { OnOk result (AreAlike T.eq (added T.eq self.old values.now) self.new) }
        ensures place { IfOk result (λ place. place ≡ added_at T.eq self.old values.now) }
        ensures stands { IfOk result (λ place. stands_at T.eq self.new values.now place ≡ true) }
        ensures kept { OnOk result (take (length self.old) self.new ≡ self.old) }
        ensures shortest { OnOk result (IsShortest T.eq self.old values.now self.new) }
        ensures err { OnErr result (self.new ≡ self.old) }
    {
        if values.is_empty() {
            return Ok(0);
        }
        let len = self.table.len();
        if let Some(place) = find_subsequence(values, self.table.as_slice()) {
            return Ok(place);
        }
        let count = shared_tail(self.table.as_slice(), values);
        self.table.extend_from_slice(values.split_at(count).1)?;
        Ok(len - count)
    }

    /// How many elements there are.
    pub fn len(&self) -> usize
        ensures { result ≡ length self.now }
    {
        self.table.len()
    }

    /// The elements in order.
    pub fn iter(&self) -> slice::Iter<'_, T>
        ensures { iter_rest result ≡ self.now }
    {
        self.table.iter()
    }
}

// The first place where the values stand in `whole`. There must be some values.
fn find_subsequence<T: Eq>(values: &[T], whole: &[T]) -> Option<usize>
    ensures found { IfSome result (λ place. place ≡ first_place T.eq whole.now values.now) }
    ensures inside { IfSome result (λ place. place < length whole.now) }
    ensures stands { IfSome result (λ place. stands_at T.eq whole.now values.now place ≡ true) }
    ensures none { IfNone result (first_place T.eq whole.now values.now ≡ length whole.now) }
    ensures absent { IfNone result ((k : ℕ) → k < length whole.now → stands_at T.eq whole.now values.now k ≡ false) }
{
    for place in 0..whole.len() {
        if whole.split_at(place).1.starts_with(values) {
            return Some(place);
        }
    }
    None
}

// The length of the longest tail of the table that is also the beginning of the values, but not all of them. There must be some values.
fn shared_tail<T: Eq>(table: &[T], values: &[T]) -> usize
    requires { 0 < length values.now }
    ensures count { result ≡ shared T.eq table.now values.now }
    ensures proper { result < length values.now }
    ensures tail { is_shared T.eq table.now values.now result ≡ true }
    ensures longest { (k : ℕ) → result < k → k < length values.now → is_shared T.eq table.now values.now k ≡ false }
{
    let mut count = values.len() - 1;
    while count > 0 {
        if table.ends_with(values.split_at(count).0) {
            return count;
        }
        count -= 1;
    }
    0
}
