ghost use Rattle.std.specs.Prelude.{◌≡◌, ◌↔◌, IfOk, IsTrue, string_bytes};
ghost use Rattle.meta_query.specs.Recheck.{sameness_line, IsTold, IsRecheckOf};

use super::queries::cut_queries;
use meta_gen::Tables;
use meta_query_lines::push_answers;
use meta_table_reader::{TextError, read_tables, refused};
use std::alloc::{AllocError, Global};

fn is_same(read: &Tables, tables: &Tables) -> bool
    ensures same { IsTrue result ↔ (read.now ≡ tables.now) }
{
    read.same(tables)
}

/// The line on tables that were read: they are the ones that they were compared with, or others.
fn line_of(same: bool) -> &'static str
    ensures { result.now ≡ sameness_line same }
{
    match same {
        true => "same\n",
        false => "different\n",
    }
}

/// The line, and the answers of the tables to the queries.
fn told(alloc: Global, line: &str, tables: &Tables, queries: &[u8]) -> Result<String, AllocError>
    ensures { IfOk result (λ out. IsTold line.now tables.now queries.now (string_bytes out)) }
{
    let mut out = String::new(alloc);
    out.push_str(line)?;
    push_answers(alloc, &mut out, tables, queries)?;
    Ok(out)
}

/// Reads the text of tables and the queries after it. Says whether the tables that were read are these, and answers the queries by the
/// tables that were read. A text that reads as no tables is refused, and then nothing is answered.
pub(crate) fn recheck(alloc: Global, tables: &Tables, input: &[u8]) -> Result<String, AllocError>
    ensures { IfOk result (λ out. IsRecheckOf tables.now input.now (string_bytes out)) }
{
    let parts = cut_queries(input);
    match read_tables(alloc, parts.text) {
        Ok(read) => told(alloc, line_of(is_same(&read, tables)), &read, parts.queries),
        Err(TextError::Refused) => refused(alloc),
        Err(TextError::OutOfMemory) => Err(AllocError),
    }
}
