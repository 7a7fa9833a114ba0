ghost use Rattle.std.specs.Prelude.{◌≡◌, ◌++◌, [], Some, codes, if◌then◌else◌, IfOk};
ghost use Rattle.std.specs.Fmt.{DisplaysOnOk, decimal};
ghost use Rattle.std.specs.List.{filter};
ghost use Rattle.meta_typevar.specs.Image.{has_some};
ghost use Rattle.meta_typevar.specs.MaskSets.{holds};

use std::alloc::{AllocError, Global};
use std::fmt;
use std::marker::Model;

/// One of the four sets of numbers of a type set: those that a mask holds, of all that the part can have.
#[derive(Drop)]
pub(crate) struct Numbers {
    mask: u16,
    all: &'static [u16],
}

impl Model for Numbers {
    ghost use Rattle.std.specs.Prelude.{ℕ, List};
    ghost use Rattle.std.specs.List.{filter};

    ghost Value = { List ℕ };

    ghost use Rattle.meta_typevar.specs.MaskSets.{holds};

    ghost view = { λ n. filter (holds n.mask) n.all.now };
}

impl Numbers {
    pub(crate) fn new(mask: u16, all: &'static [u16]) -> Numbers
        ensures { result ≡ filter (holds mask) all.now }
    {
        Numbers { mask, all }
    }

    pub(crate) fn has_some(&self) -> bool
        ensures { result ≡ has_some self.now }
    {
        for n in self.all {
            if self.mask & *n == *n {
                return true;
            }
        }
        false
    }

    /// The numbers in rising order.
    pub(crate) fn to_vec(&self, alloc: Global) -> Result<Vec<u16>, AllocError>
        ensures { IfOk result (λ v. v.items ≡ self.now) }
    {
        let mut numbers = Vec::new(alloc);
        for n in self.all {
            if self.mask & *n == *n {
                numbers.push(*n)?;
            }
        }
        Ok(numbers)
    }
}

impl fmt::Display for Numbers {
    ghost use Rattle.std.specs.Prelude.{Some};
    ghost use Rattle.meta_typevar.specs.Concrete.{braced};

    ghost output = { λ n. Some (braced n) };

    fn fmt<W: fmt::Write>(&self, f: &mut fmt::Formatter<W>) -> fmt::Result {
        f.write_str("{")?;
        let mut follows = false;
        for n in self.all {
            if self.mask & *n == *n {
                write_number(f, *n, follows)?;
                follows = true;
            }
        }
        f.write_str("}")
    }
}

fn write_number<W: fmt::Write>(f: &mut fmt::Formatter<W>, n: u16, follows: bool) -> fmt::Result
    ensures { DisplaysOnOk W.write_str_gives f.old result (Some ((if follows then codes ", " else []) ++ decimal n)) f.new }
{
    if follows {
        f.write_str(", ")?;
    }
    write!(f, "{n}")
}

/// The text of a part of a type set, such as `ints={8, 16}`, after a comma if it follows another part. A part without a number has no text.
#[derive(Drop)]
pub(crate) struct PartText {
    pub(crate) name: &'static str,
    pub(crate) numbers: Numbers,
    pub(crate) follows: bool,
}

#[tactic(auto, using(crate::proofs::SetText::part_hidden, crate::proofs::SetText::part_shown))]
impl fmt::Display for PartText {
    ghost use Rattle.std.specs.Prelude.{Some};
    ghost use Rattle.meta_typevar.specs.Concrete.{part_text};

    ghost output = { λ p. Some (part_text p.name.now p.numbers p.follows) };

    fn fmt<W: fmt::Write>(&self, f: &mut fmt::Formatter<W>) -> fmt::Result {
        if !self.numbers.has_some() {
            return Ok(());
        }
        if self.follows {
            f.write_str(", ")?;
        }
        let name = self.name;
        write!(f, "{name}={}", self.numbers)
    }
}
