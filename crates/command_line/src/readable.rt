//! A readable form of bytes that may not be text.
ghost use Rattle.std.specs.Prelude.{◌≡◌, ◌≤◌, ◌<◌, ◌++◌, length, take};
ghost use Rattle.std.specs.Prelude.{IfOk, OnOk, IsUtf8, string_bytes};
ghost use Rattle.command_line.specs.Words.{IsReadable, digit_of, escaped};

use std::alloc::{AllocError, Global};
use std::str;

/// Returns the bytes with each UTF-8 character unchanged, and each other byte as `\x` and two
/// hexadecimal digits. Returns `Err` if an allocation fails.
pub fn readable_form(alloc: Global, bytes: &[u8]) -> Result<String, AllocError>
    ensures { IfOk result (λ text. IsReadable bytes.now (string_bytes text)) }
{
    let mut text = String::new(alloc);
    let mut rest = bytes;
    'pieces: loop {
        let error = match str::from_utf8(rest) {
            Ok(valid) => {
                text.push_str(valid)?;
                return Ok(text);
            }
            Err(error) => error,
        };
        let valid = error.valid_up_to();
        text.push_str(front_of(rest, valid))?;
        push_escaped(&mut text, rest[valid])?;
        rest = &rest[valid + 1..];
    }
}

/// The text of the first `end` bytes.
fn front_of(bytes: &[u8], end: usize) -> &str
    requires within { end ≤ length bytes.now }
    requires text { IsUtf8 (take end bytes.now) }
    ensures { result.now ≡ take end bytes.now }
{
    match str::from_utf8(&bytes[..end]) {
        Ok(text) => text,
        Err(_) => "",
    }
}

/// Appends `\x` and the two digits of a byte.
fn push_escaped(text: &mut String, byte: u8) -> Result<(), AllocError>
    ensures { OnOk result (string_bytes text.new ≡ string_bytes text.old ++ escaped byte) }
{
    text.push_str("\\x")?;
    text.push(digit_of(byte / 16))?;
    text.push(digit_of(byte % 16))
}

/// The hexadecimal digit of a value below 16, in lower case.
fn digit_of(value: u8) -> char
    requires { value < 16 }
    ensures { result ≡ digit_of value }
{
    if value < 10 {
        (b'0' + value) as char
    } else {
        (b'a' + (value - 10)) as char
    }
}
