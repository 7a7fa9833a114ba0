ghost use Rattle.std.specs.Prelude.{◌≡◌, false, IfOk, string_bytes};
ghost use Rattle.meta_program.specs.ShownPath.{ends_control, has_control, shown_path};

use meta_command_line::escaped;
use std::alloc::{AllocError, Global};

fn ends_control(before: u8, byte: u8) -> bool
    ensures { result ≡ ends_control before byte }
{
    byte < 32 || byte == 127 || (before == 194 && 128 <= byte && byte < 160)
}

fn has_control(text: &[u8]) -> bool
    ensures { result ≡ has_control text.now }
{
    let mut before = 0;
    for byte in text {
        if ends_control(before, *byte) {
            return true;
        }
        before = *byte;
    }
    false
}

/// The path as a message shows it. If a control character stands in it, such as a line feed or the beginning of an escape sequence, it
/// stands between double quotes, each byte as `u8::escape_ascii` writes it. Any other path is shown as it is.
pub fn shown_path(alloc: Global, path: &str) -> Result<String, AllocError>
    ensures shown { IfOk result (λ shown. string_bytes shown ≡ shown_path path.now) }
    // What is shown has no control character: it ends no line, and no terminal takes a part of it for a command.
    ensures safe { IfOk result (λ shown. has_control (string_bytes shown) ≡ false) }
{
    if has_control(path.as_bytes()) {
        return escaped(alloc, path.as_bytes());
    }
    String::from_str(alloc, path)
}
