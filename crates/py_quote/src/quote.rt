//! Texts in quotes, as `repr` writes them.
ghost use Rattle.std.specs.Prelude.{◌≡◌, ◌<◌, [], ◌∷◌, ◌++◌, false, string_bytes, IsFalse, IsTrue, OnOk};
ghost use Rattle.std.specs.Char.{encode_utf8};
ghost use Rattle.std.specs.Fmt.{digit_glyph};
ghost use Rattle.py_quote.specs.Quote.{hex_digits, quote, quote_byte, quote_bytes, quote_char};

use std::alloc::AllocError;

/// Appends the text in quotes, with what could not stand there escaped. What stands for itself is appended a run at a
/// time.
///
/// # Errors
/// There is no memory for the text.
pub fn push_quote(out: &mut String, text: &str) -> Result<(), AllocError>
    ensures { OnOk result (string_bytes out.new ≡ string_bytes out.old ++ quote text.now) }
{
    out.push('\'')?;
    let bytes = text.as_bytes();
    let mut start = 0;
    for (at, byte) in bytes.iter().enumerate() {
        if is_escaped(*byte) {
            out.push_str(&text[start..at])?;
            push_quoted(out, *byte as char)?;
            start = at + 1;
        }
    }
    out.push_str(&text[start..])?;
    out.push('\'')
}

/// Whether a byte of a text is a character that does not stand for itself between quotes.
pub fn is_escaped(byte: u8) -> bool
    ensures character { IsTrue result → byte < 128 }
    ensures itself { IsFalse result → byte < 128 → quote_char byte ≡ byte ∷ [] }
{
    matches!(byte, b'\'' | b'\\' | 0..=0x1f | 0x7f)
}

fn push_quoted(out: &mut String, c: char) -> Result<(), AllocError>
    ensures { OnOk result (string_bytes out.new ≡ string_bytes out.old ++ quote_char c) }
{
    match c {
        '\'' | '\\' => {
            out.push('\\')?;
            out.push(c)
        }
        '\0'..='\x1f' | '\x7f' => {
            out.push_str("\\x")?;
            push_hex(out, c as u32)
        }
        _ => out.push(c),
    }
}

/// Appends the bytes in quotes after a `b`; all but printable ASCII is escaped.
///
/// # Errors
/// There is no memory for the text.
pub fn push_quote_bytes(out: &mut String, bytes: &[u8]) -> Result<(), AllocError>
    ensures { OnOk result (string_bytes out.new ≡ string_bytes out.old ++ quote_bytes bytes.now) }
{
    out.push_str("b'")?;
    for byte in bytes {
        push_quoted_byte(out, *byte)?;
    }
    out.push_str("'")
}

fn push_quoted_byte(out: &mut String, byte: u8) -> Result<(), AllocError>
    ensures { OnOk result (string_bytes out.new ≡ string_bytes out.old ++ quote_byte byte) }
{
    match byte {
        b'\'' | b'\\' => {
            out.push('\\')?;
            out.push(byte as char)
        }
        0x20..=0x7e => out.push(byte as char),
        _ => {
            out.push_str("\\x")?;
            push_hex(out, byte as u32)
        }
    }
}

/// Appends two hexadecimal digits.
fn push_hex(out: &mut String, byte: u32) -> Result<(), AllocError>
    requires { byte < 256 }
    ensures { OnOk result (string_bytes out.new ≡ string_bytes out.old ++ hex_digits byte) }
{
    out.push(hex_digit(byte / 16))?;
    out.push(hex_digit(byte % 16))
}

fn hex_digit(digit: u32) -> char
    requires { digit < 16 }
    ensures value { result ≡ digit_glyph false digit }
    ensures spelled { encode_utf8 result ≡ digit_glyph false digit ∷ [] }
{
    let byte = digit as u8;
    if byte < 10 {
        (b'0' + byte) as char
    } else {
        (b'a' - 10 + byte) as char
    }
}
