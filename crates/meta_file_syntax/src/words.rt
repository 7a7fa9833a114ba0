ghost use Rattle.std.specs.Prelude.{◌≡◌, ◌<◌, map, length};
ghost use Rattle.meta_file_syntax.specs.WordTables.{with_word, word_at};

/// The thing that has this word in a table of things and their words. `None` if nothing has it.
pub fn with_word<T: Copy>(table: &[(T, &[u8])], word: &[u8]) -> Option<T>
    ensures { result ≡ with_word (map (λ row. (row.0, row.1.now)) table.now) word.now }
{
    for (thing, text) in table {
        if word == *text {
            return Some(*thing);
        }
    }
    None
}

/// The word of the thing at this place of a table of things and their words.
pub fn word_at<T: Copy>(table: &[(T, &'static [u8])], place: usize) -> &'static [u8]
    requires { place < length table.now }
    ensures { result.now ≡ word_at (map (λ row. (row.0, row.1.now)) table.now) place }
{
    table[place].1
}
