ghost use Rattle.std.specs.Prelude.{◌≡◌, ◌==◌, ◌||◌, ◌+◌, ◌-◌, ◌^◌, ℕ, List, None, true, false, IsTrue, IfOk, OnOk, min, if◌then◌else◌};
ghost use Rattle.std.specs.Cmp.Lexicographic.{pointwise};
ghost use Rattle.meta_file_syntax.specs.Laid.{IsWord};
ghost use Rattle.meta_file_types.specs.Plain.{has_own_meaning};
ghost use Rattle.meta_file_describe.specs.Counted.{count_of};
ghost use Rattle.meta_file_describe.specs.GivenWords.{is_given};

use super::texts::{bytes_of, is_word};
use super::unsaid::Unsaid;
use meta_file_syntax::Bytes;
use meta_file_types::has_own_meaning;
use std::alloc::{AllocError, Global};
use std::collections::BTreeMap;

/// The name and the number after it, with `_` between two digits.
fn with_number(alloc: Global, name: &[u8], number: usize) -> Result<Vec<u8>, AllocError> {
    let mut word = Vec::from_slice(alloc, name)?;
    if let Some(last) = name.last() {
        if last.is_ascii_digit() {
            word.push(b'_')?;
        }
    }
    let digits = format!(in alloc; "{number}")?;
    word.extend_from_slice(digits.as_bytes())?;
    Ok(word)
}

/// The words that are given to things of which each has one of its own.
#[derive(Drop)]
pub(crate) struct Words {
    /// The words, and the names that have numbers after them, each with the greatest of these numbers.
    given: BTreeMap<Vec<u8>, usize>,
}

impl Words {
    pub(crate) fn new(alloc: Global) -> Words
        ensures { (word : List ℕ) → is_given result word ≡ false }
    {
        Words {
            given: BTreeMap::new(alloc),
        }
    }

    fn is_free(&self, word: &[u8]) -> bool
        ensures word { IsTrue result → IsWord word.now }
        ensures new { IsTrue result → is_given self.now word.now ≡ false }
        ensures meaning { IsTrue result → has_own_meaning word.now ≡ false }
    {
        is_word(word) && !self.given.contains_key(word) && !has_own_meaning(word)
    }

    fn keep(&mut self, alloc: Global, word: &[u8], number: usize) -> Result<(), AllocError>
        ensures { OnOk result ((other : List ℕ) → is_given self.new other
            ≡ (pointwise ◌==◌ other word.now || is_given self.old other)) }
    {
        let key = Vec::from_slice(alloc, word)?;
        self.given.insert(key, number)?;
        Ok(())
    }

    /// The next number with which the name is free, and the word that they are.
    fn next_numbered(&self, alloc: Global, name: &[u8]) -> Result<(usize, Vec<u8>), Unsaid>
        ensures word { IfOk result (λ next. IsWord next.1.items) }
        ensures new { IfOk result (λ next. is_given self.now next.1.items ≡ false) }
        ensures meaning { IfOk result (λ next. has_own_meaning next.1.items ≡ false) }
    {
        let last = match self.given.get(name) {
            Some(number) => *number,
            None => 0,
        };
        for before in last..usize::MAX {
            let word = with_number(alloc, name, before + 1)?;
            if self.is_free(&word) {
                return Ok((before + 1, word));
            }
        }
        Err(Unsaid::Unsayable)
    }

    /// A word for what has this name: the name itself if nothing else has it and it can be given, or else the name with a number after it.
    #[tactic(auto, using(crate::proofs::FreeWords::itself, crate::proofs::FreeWords::stays))]
    pub(crate) fn give(
        &mut self,
        alloc: Global,
        name: &[u8],
        is_alone: bool,
    ) -> Result<Bytes, Unsaid>
        ensures word { IfOk result IsWord }
        ensures meaning { IfOk result (λ word. has_own_meaning word ≡ false) }
        // No other has the word, and the words that are given stay so.
        ensures new { IfOk result (λ word. is_given self.old word ≡ false) }
        ensures given { IfOk result (λ word. is_given self.new word ≡ true) }
        ensures kept { OnOk result ((other : List ℕ) → is_given self.old other ≡ true → is_given self.new other ≡ true) }
    {
        if is_alone && self.is_free(name) {
            self.keep(alloc, name, 0)?;
            return Ok(bytes_of(alloc, name)?);
        }
        let (number, word) = self.next_numbered(alloc, name)?;
        self.keep(alloc, name, number)?;
        self.keep(alloc, &word, 0)?;
        Ok(Bytes::of(word))
    }
}

#[derive(Drop)]
pub(crate) struct NameCounts {
    counts: BTreeMap<Vec<u8>, usize>,
}

impl NameCounts {
    pub(crate) fn new(alloc: Global) -> NameCounts
        ensures { (name : List ℕ) → count_of result name ≡ 0 }
    {
        NameCounts {
            counts: BTreeMap::new(alloc),
        }
    }

    fn count(&self, name: &[u8]) -> usize
        ensures { result ≡ count_of self.now name.now }
    {
        match self.counts.get(name) {
            Some(count) => *count,
            None => 0,
        }
    }

    /// Counts a thing that has the name, unless that many can't be counted.
    pub(crate) fn add(&mut self, alloc: Global, name: &[u8]) -> Result<(), AllocError>
        ensures { OnOk result ((other : List ℕ) → count_of self.new other
            ≡ (if pointwise ◌==◌ other name.now then min (count_of self.old other + 1) (2 ^ 64 - 1) else count_of self.old other)) }
    {
        let count = self.count(name).saturating_add(1);
        let key = Vec::from_slice(alloc, name)?;
        self.counts.insert(key, count)?;
        Ok(())
    }

    pub(crate) fn has_one(&self, name: &[u8]) -> bool
        ensures { result ≡ (count_of self.now name.now == 1) }
    {
        self.count(name) == 1
    }
}
