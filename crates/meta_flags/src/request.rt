ghost use Rattle.std.specs.Prelude.{◌≡◌, ◌≢◌, ◌<◌, ◌∷◌, ◌++◌, length, All, IfSome, IfNone};
ghost use Rattle.meta_flags.specs.Request.{request_of, request_words, Requests, command_word};
ghost use Rattle.meta_flags.specs.Request as spec;
ghost use Rattle.meta_flags.specs.declared.request.RequestWord as declared;

use meta_lines::Pieces;

#[derive(Clone, Copy)]
pub(crate) enum Request<'l> {
    /// `set NAME VALUE`: that the setting gets the value.
    Set { name: &'l [u8], value: &'l [u8] },
    /// `enable NAME`: that the boolean, or what the preset turns on, becomes true.
    Enable(&'l [u8]),
    /// `get NAME`: what the value is.
    Get(&'l [u8]),
    /// `toml`: all values as text.
    Toml,
}

#[derive(Clone, Copy)]
enum RequestWord {
    Set,
    Enable,
    Get,
    Toml,
}

fn command_of(word: &[u8]) -> Option<RequestWord>
    ensures some { IfSome result (λ c. word.now ≡ command_word c) }
    ensures none { IfNone result ((c : declared.RequestWord) → word.now ≢ command_word c) }
{
    if word == b"set".as_slice() {
        return Some(RequestWord::Set);
    }
    if word == b"enable".as_slice() {
        return Some(RequestWord::Enable);
    }
    if word == b"get".as_slice() {
        return Some(RequestWord::Get);
    }
    if word == b"toml".as_slice() {
        return Some(RequestWord::Toml);
    }
    None
}

/// What a command asks with the words after it, which are taken.
fn request_in<'l>(command: RequestWord, words: &mut Pieces<'l>) -> Option<Request<'l>>
    ensures taken { IfSome result (λ r. command_word command ∷ words.old ≡ request_words (request_of r) ++ words.new) }
    ensures some { IfSome result (λ r. All (λ word. 0 < length word) (request_words (request_of r))) }
    ensures none { IfNone result ((r : spec.Request) → All (λ word. 0 < length word) (request_words r)
        → command_word command ∷ words.old ≢ request_words r) }
{
    match command {
        RequestWord::Set => {
            let name = words.word()?;
            let value = words.word()?;
            Some(Request::Set { name, value })
        }
        RequestWord::Enable => {
            let name = words.word()?;
            Some(Request::Enable(name))
        }
        RequestWord::Get => {
            let name = words.word()?;
            Some(Request::Get(name))
        }
        RequestWord::Toml => Some(Request::Toml),
    }
}

impl<'l> Request<'l> {
    /// What the line asks. It is `None` exactly if it asks nothing.
    pub(crate) fn parse(line: &'l [u8]) -> Option<Request<'l>>
        ensures some { IfSome result (λ r. Requests line.now (request_of r)) }
        ensures none { IfNone result ((r : spec.Request) → ¬ Requests line.now r) }
    {
        let mut words = Pieces::new(line, b' ');
        let word = words.word()?;
        let command = command_of(word)?;
        let request = request_in(command, &mut words)?;
        if words.is_done() {
            return Some(request);
        }
        None
    }
}
