//! Texts inside a page.

use std::io::{self, Write};

/// Writes a text so that nothing of it is taken for markup.
pub fn write_text(text: &str, out: &mut impl Write) -> io::Result<()> {
    for letter in text.chars() {
        match letter {
            '&' => write!(out, "&amp;")?,
            '<' => write!(out, "&lt;")?,
            '>' => write!(out, "&gt;")?,
            '"' => write!(out, "&quot;")?,
            _ => write!(out, "{letter}")?,
        }
    }
    Ok(())
}

/// Writes bytes as a part of an address inside double quotes: what may not stand there as it is, as
/// its number after a percent sign.
pub fn write_address(bytes: &[u8], out: &mut impl Write) -> io::Result<()> {
    for byte in bytes {
        match byte {
            b'%' | b'#' | b'"' | b'<' | b'>' | b'&' | 0..=31 | 127..=255 => write!(
                out,
                "%{byte:02X}"
            )?,
            _ => out.write_all(&[*byte])?,
        }
    }
    Ok(())
}
