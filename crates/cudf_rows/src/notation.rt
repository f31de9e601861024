//! How bytes are written in vectors and documents: `{HH}` is the byte of this number in hexadecimal digits.
use std::alloc::AllocError;

/// Adds the bytes that the text stands for. What is in braces and is no byte is left out.
pub(crate) fn push_bytes(bytes: &mut Vec<u8>, text: &str) -> Result<(), AllocError> {
    let mut pieces = text.split('{');
    if let Some(plain) = pieces.next() {
        bytes.extend_from_slice(plain.as_bytes())?;
    }
    for piece in pieces {
        let (digits, plain) = piece.split_once('}').unwrap_or((piece, ""));
        if let Ok(byte) = u8::from_str_radix(digits, 16) {
            bytes.push(byte)?;
        }
        bytes.extend_from_slice(plain.as_bytes())?;
    }
    Ok(())
}

/// Adds bytes as they are written on one line, where `¶` is a line end.
pub(crate) fn push_written(out: &mut String, bytes: &[u8]) -> Result<(), AllocError> {
    for byte in bytes {
        match *byte {
            b'\n' => out.push_str("¶")?,
            b'{' | 0..=31 | 127..=255 => write!(out, "{{{byte:02x}}}")?,
            byte => out.push(byte as char)?,
        }
    }
    Ok(())
}
