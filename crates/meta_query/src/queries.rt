ghost use Rattle.std.specs.Prelude.{◌↔◌, ◌<◌, length, IfSome, IfNone, IsTrue, ℕ};
ghost use Rattle.meta_lists.specs.First.{IsFirst};
ghost use Rattle.meta_query.specs.Recheck.{BeginsLine, IsMarkAt, IsCut};

/// The line before the queries.
const MARK: &[u8] = b"// Queries.\n";

fn begins_line(input: &[u8], at: usize) -> bool
    requires { at < length input.now }
    ensures { IsTrue result ↔ BeginsLine input.now at }
{
    if at == 0 {
        return true;
    }
    input[at - 1] == b'\n'
}

fn is_mark_at(input: &[u8], at: usize) -> bool
    requires { at < length input.now }
    ensures { IsTrue result ↔ IsMarkAt input.now at }
{
    if !begins_line(input, at) {
        return false;
    }
    let (_, rest) = input.split_at(at);
    rest.starts_with(MARK)
}

/// The first place at which the line before the queries stands.
fn mark_in(input: &[u8]) -> Option<usize>
    ensures some { IfSome result (IsFirst (IsMarkAt input.now)) }
    ensures none { IfNone result ((at : ℕ) → ¬ IsMarkAt input.now at) }
{
    for at in 0..input.len() {
        if is_mark_at(input, at) {
            return Some(at);
        }
    }
    None
}

/// The text in an input of `recheck`, and the queries after it.
#[derive(Clone, Copy)]
pub(crate) struct Cut<'a> {
    pub(crate) text: &'a [u8],
    pub(crate) queries: &'a [u8],
}

/// Cuts an input of `recheck` at the first line `// Queries.`, which has to end with LF alone. If there is no such line, the whole input is
/// the text.
pub(crate) fn cut_queries(input: &[u8]) -> Cut<'_>
    ensures { IsCut input.now result.text.now result.queries.now }
{
    match mark_in(input) {
        Some(at) => {
            let (text, rest) = input.split_at(at);
            let (_, queries) = rest.split_at(MARK.len());
            Cut { text, queries }
        }
        None => Cut {
            text: input,
            queries: &[],
        },
    }
}
