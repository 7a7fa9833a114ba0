ghost use Rattle.std.specs.Prelude.{◌≡◌, ◌<◌, ◌≤◌, ◌^◌, ℕ, List, ◌++◌, IfOk, All, length};
ghost use Rattle.std.specs.List.{flat_map};
ghost use Rattle.meta_table_text.specs.Lists.{list_head, list_text};

use super::cursor::Cursor;
use meta_table_text::{AFTER_COUNT, LIST_END, TableList};
use std::alloc::{AllocError, Global};

/// An item of a list in the text of tables.
pub(crate) trait Item: Drop {
    ghost text: { Self → List ℕ };

    // The item can be told from its text.
    ghost IsShown: { Self → Type 0 };

    fn read(alloc: Global, cursor: &mut Cursor) -> Result<Self, AllocError>
        ensures { IfOk result (λ x. (item : Self) (rest : List ℕ) → IsShown item → cursor.old ≡ text item ++ rest
            → (x ≡ item) × (cursor.new ≡ rest)) };

    ghost some: { (item : Self) → 1 ≤ length (text item) };
}

/// Reads what stands before the first element of a list, with the count of elements, which is the answer.
pub(crate) fn list_count(cursor: &mut Cursor, list: TableList) -> usize
    ensures { (n : ℕ) (rest : List ℕ) → n < 2 ^ 64 → cursor.old ≡ list_head list n ++ rest → (result ≡ n) × (cursor.new ≡ rest) }
{
    cursor.pass(list.title());
    let count = cursor.number(list.head(), b']');
    cursor.pass(AFTER_COUNT);
    count
}

/// Reads `count` items from the front of what is left. It reads at most as many as there are bytes left.
fn items<T: Item>(alloc: Global, cursor: &mut Cursor, count: usize) -> Result<Vec<T>, AllocError>
    ensures { IfOk result (λ v. (items : List T) (rest : List ℕ) → All T.IsShown items → count ≡ length items
        → cursor.old ≡ flat_map T.text items ++ rest → (v.items ≡ items) × (cursor.new ≡ rest)) }
{
    let mut items = Vec::new(alloc);
    for _ in 0..cursor.len().min(count) {
        items.push(T::read(alloc, cursor)?)?;
    }
    Ok(items)
}

pub(crate) fn list_of<T: Item>(
    alloc: Global,
    cursor: &mut Cursor,
    list: TableList,
) -> Result<Vec<T>, AllocError>
    ensures { IfOk result (λ v. (items : List T) (rest : List ℕ) → All T.IsShown items → length items < 2 ^ 64
        → cursor.old ≡ list_text list (length items) (flat_map T.text items) ++ rest → (v.items ≡ items) × (cursor.new ≡ rest)) }
{
    let count = list_count(cursor, list);
    let read = items::<T>(alloc, cursor, count)?;
    cursor.pass(LIST_END);
    Ok(read)
}
