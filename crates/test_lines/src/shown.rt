// Bytes as a terminal may be given them: UTF-8 characters as they are, and a question mark for each control character
// and for each byte that is part of no character.
use std::io;

// Each character is written by itself.
fn characters(out: &impl Print, text: &str) -> io::Result<()> {
    for c in text.chars() {
        if c.is_control() {
            out.write_all(b"?")?;
        } else {
            out.write_all(c.encode_utf8(&mut [0; 4]).as_bytes())?;
        }
    }
    Ok(())
}

// A question mark for each byte.
fn no_characters(out: &impl Print, s: &[u8]) -> io::Result<()> {
    for _ in s {
        out.write_all(b"?")?;
    }
    Ok(())
}

pub fn bytes(out: &impl Print, s: &[u8]) -> io::Result<()> {
    for chunk in s.utf8_chunks() {
        characters(out, chunk.valid())?;
        no_characters(out, chunk.invalid())?;
    }
    Ok(())
}
