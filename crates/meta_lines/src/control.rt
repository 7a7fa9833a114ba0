ghost use Rattle.std.specs.Prelude.{◌≡◌, ◌≢◌, Option, IfSome, IfNone};
ghost use Rattle.std.specs.Option.{option_map};
ghost use Rattle.meta_types.specs.TypeParts.{TypeParts, IsType};
ghost use Rattle.meta_types.specs.TypeNumber.{type_with, IsTypeNumber};
ghost use Rattle.meta_lines.specs.Control.{IsAfter, control_text};

use super::pieces::cut;
use meta_types::type_number;

/// The numbers of the controlling types that a word gives. There is a second one only if there is a first.
#[derive(Clone, Copy)]
pub struct ControlNumbers {
    /// The number of the controlling type, if there is one.
    pub control: Option<u16>,
    /// The number of the second controlling type, if there is one.
    pub second: Option<u16>,
}

/// The controlling types that a word gives: `-` for none, the name of one type, or the names of two types joined by `/`. `None` exactly if
/// the word has another form.
pub fn parse_control(word: &[u8]) -> Option<ControlNumbers>
    ensures found { IfSome result (λ c. control_text (option_map type_with c.control) (option_map type_with c.second) ≡ word.now) }
    ensures known { IfSome result (λ c. IfSome c.control IsTypeNumber) }
    ensures second_known { IfSome result (λ c. IfSome c.second IsTypeNumber) }
    ensures after { IfSome result (λ c. IsAfter (option_map type_with c.control) (option_map type_with c.second)) }
    ensures none { IfNone result ((c d : Option TypeParts) → IfSome c IsType → IfSome d IsType → IsAfter c d
        → control_text c d ≢ word.now) }
{
    if word == b"-".as_slice() {
        return Some(ControlNumbers {
            control: None,
            second: None,
        });
    }
    let (first, rest) = cut(word, b'/');
    let number = type_number(first)?;
    match rest {
        None => Some(ControlNumbers {
            control: Some(number),
            second: None,
        }),
        Some(name) => {
            let second = type_number(name)?;
            Some(ControlNumbers {
                control: Some(number),
                second: Some(second),
            })
        }
    }
}
