use super::bytes::Bytes;
use std::alloc::{AllocError, Global};
use std::marker::Model;

/// The lines of documentation above an item. The list is empty if there is no documentation. A contract sees the list of the lines.
#[derive(Drop)]
pub struct Docs {
    lines: Vec<Bytes>,
}

impl Model for Docs {
    ghost use Rattle.std.specs.Prelude.{List, ℕ};

    ghost Value = { List (List ℕ) };

    ghost view = { λ d. d.lines.items };
}

ghost use Rattle.std.specs.Prelude.{◌≡◌, IfOk};
ghost use Rattle.meta_file_syntax.specs.Named.{doc_text};

impl Docs {
    /// Makes documentation of these lines.
    pub fn of(lines: Vec<Bytes>) -> Docs
        ensures { result ≡ lines.items }
    {
        Docs { lines }
    }

    /// The lines in order, each without its slashes and its line end.
    pub fn as_slice(&self) -> &[Bytes]
        ensures { result.now ≡ self.now }
    {
        self.lines.as_slice()
    }

    /// The text of the documentation: its lines, with a line end between each two.
    pub fn text(&self, alloc: Global) -> Result<Vec<u8>, AllocError>
        ensures { IfOk result (λ v. v.items ≡ doc_text self.now) }
    {
        let mut text = Vec::new(alloc);
        if let [first, more @ ..] = self.as_slice() {
            text.extend_from_slice(first.as_slice())?;
            for line in more {
                text.push(b'\n')?;
                text.extend_from_slice(line.as_slice())?;
            }
        }
        Ok(text)
    }
}
