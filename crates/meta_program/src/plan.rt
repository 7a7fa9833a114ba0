ghost use Rattle.std.specs.Prelude.{◌≡◌, ◌≢◌, ◌↔◌, ◌∷◌, ◌++◌, [], ℕ, List, IfSome, IfNone, IsTrue, codes};
ghost use Rattle.meta_command_line.specs.declared.asked.Asked.TheVariants as spec_asked;
ghost use Rattle.meta_program.specs.Over.{IsOption, IsOptionWith, end_word, input_path, AskOverFile, IsOver, asked_of};
ghost use Rattle.meta_program.specs.Names.{rust_word, check_words};
ghost use Rattle.meta_program.specs.TablesIn.{BeginWithVersion};
ghost use Rattle.meta_program.specs.Plan.{EndOptions, AskOfItself, IsPlan};
ghost use Rattle.meta_program.specs.declared.plan.Names as spec;
ghost use Rattle.meta_program.specs.declared.plan.Names.TheVariants as spec_names;

use super::tool::Tool;
use super::wrong::Wrong;
use meta_command_line::Asked;
use meta_types::Text;

/// What words are asked over.
#[derive(Clone, Copy)]
pub enum Over<'w> {
    /// The shared declarations, and what is asked of them.
    Shared(&'w [Text]),
    /// The declarations of a file: its path, and what is asked of them.
    File(&'w str, &'w [Text]),
}

/// Whether the word says that a file follows: `-d` or `--declarations`.
pub fn is_option(word: &Text) -> bool
    ensures { IsTrue result ↔ IsOption word.now }
{
    word.as_bytes() == b"-d".as_slice() || word.as_bytes() == b"--declarations".as_slice()
}

/// What stands after this front of a text, if the text begins so.
fn after_front<'t>(text: &'t str, front: &str) -> Option<&'t str>
    ensures some { IfSome result (λ rest. text.now ≡ front.now ++ rest.now) }
    ensures none { IfNone result ((rest : List ℕ) → text.now ≢ front.now ++ rest) }
{
    text.strip_prefix(front)
}

/// The path in a word that says that a file follows, and which: `-d=FILE` or `--declarations=FILE`.
pub fn path_in(word: &Text) -> Option<&str>
    ensures some { IfSome result (λ path. IsOptionWith word.now path.now) }
    ensures none { IfNone result ((path : List ℕ) → ¬ IsOptionWith word.now path) }
{
    match after_front(word.as_str(), "-d=") {
        Some(path) => Some(path),
        None => after_front(word.as_str(), "--declarations="),
    }
}

/// Whether the word is `check`.
pub fn is_check(word: &Text) -> bool
    ensures { IsTrue result ↔ (word.now ≡ codes "check") }
{
    word.as_bytes() == b"check".as_slice()
}

/// Whether the word asks `check` to refuse names: `--rust`.
pub fn is_rust(word: &Text) -> bool
    ensures { IsTrue result ↔ (word.now ≡ rust_word) }
{
    word.as_bytes() == b"--rust".as_slice()
}

/// Whether the word ends the options of `check`: `--`.
pub fn is_end(word: &Text) -> bool
    ensures { IsTrue result ↔ (word.now ≡ end_word) }
{
    word.as_bytes() == b"--".as_slice()
}

/// Whether the path stands for standard input in a check: `-`.
pub fn is_input(path: &str) -> bool
    ensures { IsTrue result ↔ (path.now ≡ input_path) }
{
    path.as_bytes() == b"-".as_slice()
}

/// Whether the words are `tables` and `--version`.
pub(crate) fn are_for_version(name: &Text, option: &Text) -> bool
    ensures { IsTrue result ↔ ((name.now ≡ codes "tables") × (option.now ≡ codes "--version")) }
{
    name.as_bytes() == b"tables".as_slice() && option.as_bytes() == b"--version".as_slice()
}

impl<'w> Over<'w> {
    /// What the words are asked over. After `-d FILE`, `--declarations FILE`, `-d=FILE` or `--declarations=FILE`, words are asked over the
    /// declarations of the file. `check FILE` asks `check` over them, and `check --rust FILE` asks `check --rust`. Both may have `--` before
    /// FILE, which may then be any word; else it is no option. All other words are asked over the shared declarations.
    pub fn of(words: &'w [Text]) -> Over<'w>
        ensures { IsOver words.now result }
    {
        match words {
            [] => Over::Shared(words),
            [first, after @ ..] => Over::of_first(words, first, after),
        }
    }

    /// The same, if there is a word.
    fn of_first(words: &'w [Text], first: &'w Text, after: &'w [Text]) -> Over<'w>
        requires { words.now ≡ first.now ∷ after.now }
        ensures { IsOver words.now result }
    {
        if let Some(path) = path_in(first) {
            return Over::File(path, after);
        }
        if is_check(first) {
            return Over::of_check(words, after);
        }
        Over::of_option(words, first, after)
    }

    /// The same, if the first word is no `check` and has no path.
    fn of_option(words: &'w [Text], first: &'w Text, after: &'w [Text]) -> Over<'w>
        requires words { words.now ≡ first.now ∷ after.now }
        requires no_check { first.now ≢ codes "check" }
        requires no_path { (path : List ℕ) → ¬ IsOptionWith first.now path }
        ensures { IsOver words.now result }
    {
        match after {
            [] => Over::Shared(words),
            [path, asked @ ..] => Over::of_path(words, first, path, asked),
        }
    }

    /// The same, if another word comes after the first.
    fn of_path(words: &'w [Text], first: &'w Text, path: &'w Text, asked: &'w [Text]) -> Over<'w>
        requires words { words.now ≡ first.now ∷ (path.now ∷ asked.now) }
        requires no_check { first.now ≢ codes "check" }
        requires no_path { (other : List ℕ) → ¬ IsOptionWith first.now other }
        ensures { IsOver words.now result }
    {
        if is_option(first) {
            return Over::File(path.as_str(), asked);
        }
        Over::Shared(words)
    }

    /// The same, if these words come after `check`.
    fn of_check(words: &'w [Text], after: &'w [Text]) -> Over<'w>
        requires { words.now ≡ codes "check" ∷ after.now }
        ensures { IsOver words.now result }
    {
        match after {
            [] => Over::Shared(words),
            [path] => Over::of_one(words, path),
            [option, path] => Over::of_two(words, option, path),
            [rust, end, path] => Over::of_three(words, rust, end, path),
            [_, _, _, _, ..] => Over::Shared(words),
        }
    }

    /// The same, if one word comes after `check`.
    fn of_one(words: &'w [Text], path: &'w Text) -> Over<'w>
        requires { words.now ≡ codes "check" ∷ (path.now ∷ []) }
        ensures { IsOver words.now result }
    {
        if is_rust(path) || is_end(path) {
            return Over::Shared(words);
        }
        Over::File(path.as_str(), words.split_at(1).0)
    }

    /// The same, if two words come after `check`.
    fn of_two(words: &'w [Text], option: &'w Text, path: &'w Text) -> Over<'w>
        requires { words.now ≡ codes "check" ∷ (option.now ∷ (path.now ∷ [])) }
        ensures { IsOver words.now result }
    {
        if is_end(option) {
            return Over::File(path.as_str(), words.split_at(1).0);
        }
        if is_rust(option) && !is_end(path) {
            return Over::File(path.as_str(), words.split_at(2).0);
        }
        Over::Shared(words)
    }

    /// The same, if three words come after `check`.
    fn of_three(words: &'w [Text], rust: &'w Text, end: &'w Text, path: &'w Text) -> Over<'w>
        requires { words.now ≡ codes "check" ∷ (rust.now ∷ (end.now ∷ (path.now ∷ []))) }
        ensures { IsOver words.now result }
    {
        if is_rust(rust) && is_end(end) {
            return Over::File(path.as_str(), words.split_at(2).0);
        }
        Over::Shared(words)
    }

    /// What is asked: of the file, or of the shared declarations.
    pub(crate) fn asked(&self) -> &'w [Text]
        ensures { result.now ≡ asked_of self.now }
    {
        match self {
            Over::Shared(words) => words,
            Over::File(_, words) => words,
        }
    }
}

/// What a check does with names that Rust refuses.
#[derive(Clone, Copy, Debug, PartialEq, Eq)]
pub enum Names {
    /// `check`: it warns of them, and goes on.
    Warn,
    /// `check --rust`: it refuses the file for them.
    Refuse,
}

impl Names {
    /// What words ask of a check. It is `None` exactly if they ask for no check.
    pub fn asked(words: &[Text]) -> Option<Names>
        ensures some { IfSome result (λ names. words.now ≡ check_words names) }
        ensures none { IfNone result ((names : spec.Names) → words.now ≢ check_words names) }
    {
        match words {
            [check] if is_check(check) => Some(Names::Warn),
            [check, rust] if is_check(check) && is_rust(rust) => Some(Names::Refuse),
            _ => None,
        }
    }

    pub(crate) fn are_refused(self) -> bool
        ensures { IsTrue result ↔ (self ≡ spec_names.Refuse) }
    {
        matches!(self, Names::Refuse)
    }
}

/// What the words of the program ask for.
#[derive(Clone, Copy)]
pub enum Plan<'w> {
    /// The help of the program.
    Help,
    /// The version of the program.
    Version,
    /// This tool over the shared declarations.
    Shared(Tool),
    /// This tool over the declarations of the file at this path. A check is `Check` or `CheckInput`.
    File(&'w str, Tool),
    /// A check of the file at this path, which isn't `-`, and what it does with names that Rust refuses.
    Check(&'w str, Names),
    /// The same of the declarations in standard input: the path is `-`.
    CheckInput(Names),
    /// Nothing: what they are asked over, and what is wrong with them. If it is `None`, the list of commands says what is wrong.
    Nothing(Over<'w>, Option<Wrong>),
}

fn begin_with_version(words: &[Text]) -> bool
    ensures { IsTrue result ↔ BeginWithVersion words.now }
{
    match words {
        [name, option, _version, _after @ ..] => are_for_version(name, option),
        _ => false,
    }
}

/// Whether options end before the file of a check: the words begin with `check --`.
fn end_at_once(words: &[Text]) -> bool
    ensures { IsTrue result ↔ ((after : List (List ℕ)) × (words.now ≡ codes "check" ∷ (end_word ∷ after))) }
{
    match words {
        [check, end, _after @ ..] => is_check(check) && is_end(end),
        _ => false,
    }
}

/// Whether they end after `--rust`: the words begin with `check --rust --`.
fn end_after_rust(words: &[Text]) -> bool
    ensures { IsTrue result ↔ ((after : List (List ℕ)) × (words.now ≡ codes "check" ∷ (rust_word ∷ (end_word ∷ after)))) }
{
    match words {
        [check, rust, end, _after @ ..] => is_check(check) && is_rust(rust) && is_end(end),
        _ => false,
    }
}

fn end_options(words: &[Text]) -> bool
    ensures { IsTrue result ↔ EndOptions words.now }
{
    end_at_once(words) || end_after_rust(words)
}

/// What the words ask of the program itself. They are asked over this. After `tables`, `--version` and a word ask for the tables in a
/// version of their text. After `--`, before the file of a check, no word is an option.
fn asked_of_itself(words: &[Text], over: &Over<'_>) -> Asked
    requires { IsOver words.now over.now }
    ensures { AskOfItself words.now result }
{
    if begin_with_version(over.asked()) {
        return Asked::Work;
    }
    if end_options(words) {
        return Asked::Work;
    }
    Asked::of(words)
}

impl<'w> Plan<'w> {
    /// What the words ask for. They are all words after the name of the program.
    pub fn of(words: &'w [Text]) -> Plan<'w>
        ensures { IsPlan words.now result }
    {
        let over = Over::of(words);
        match asked_of_itself(words, &over) {
            Asked::Help => Plan::Help,
            Asked::Version => Plan::Version,
            Asked::Work => Plan::of_work(words, over),
        }
    }

    /// What the words ask for over this, if they ask nothing of the program itself.
    fn of_work(words: &'w [Text], over: Over<'w>) -> Plan<'w>
        requires work { AskOfItself words.now spec_asked.Work }
        requires over { IsOver words.now over }
        ensures { IsPlan words.now result }
    {
        match over {
            Over::Shared(asked) => Plan::over_shared(words, asked),
            Over::File(path, asked) => Plan::over_file(words, path, asked),
        }
    }

    /// The same for words that ask this of the shared declarations.
    fn over_shared(_words: &'w [Text], asked: &'w [Text]) -> Plan<'w>
        requires work { AskOfItself _words.now spec_asked.Work }
        requires same { asked.now ≡ _words.now }
        requires over { (path : List ℕ) (others : List (List ℕ)) → AskOverFile _words.now path others → ⊥ }
        ensures { IsPlan _words.now result }
    {
        match Tool::parse(asked) {
            Some(tool) => Plan::Shared(tool),
            None => {
                let over = Over::Shared(asked);
                let wrong = Wrong::of(&over);
                Plan::Nothing(over, wrong)
            }
        }
    }

    /// The same for words that ask this of the file at a path.
    fn over_file(_words: &'w [Text], path: &'w str, asked: &'w [Text]) -> Plan<'w>
        requires work { AskOfItself _words.now spec_asked.Work }
        requires over { AskOverFile _words.now path.now asked.now }
        ensures { IsPlan _words.now result }
    {
        if let Some(names) = Names::asked(asked) {
            return Plan::of_check(_words, path, names);
        }
        match Tool::parse(asked) {
            Some(tool) => Plan::File(path, tool),
            None => {
                let over = Over::File(path, asked);
                let wrong = Wrong::of(&over);
                Plan::Nothing(over, wrong)
            }
        }
    }

    /// The same for words that check the file at a path.
    fn of_check(_words: &'w [Text], path: &'w str, names: Names) -> Plan<'w>
        requires work { AskOfItself _words.now spec_asked.Work }
        requires over { AskOverFile _words.now path.now (check_words names) }
        ensures { IsPlan _words.now result }
    {
        if is_input(path) {
            return Plan::CheckInput(names);
        }
        Plan::Check(path, names)
    }
}
