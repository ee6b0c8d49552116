//! Numbers and zeros put behind bytes.

use nd_base::{Bytes, OutOfMemory};

/// Puts numbers of two bytes each behind others.
pub fn put_halves(out: &mut Bytes, halves: &[u16]) -> Result<(), OutOfMemory> {
    for half in halves {
        out.extend_from_slice(&half.to_le_bytes())?;
    }
    Ok(())
}

/// Puts numbers of four bytes each behind others.
pub fn put_words(out: &mut Bytes, words: &[u32]) -> Result<(), OutOfMemory> {
    for word in words {
        out.extend_from_slice(&word.to_le_bytes())?;
    }
    Ok(())
}

/// Puts zeros behind bytes up to an offset.
pub fn put_zeros_to(out: &mut Bytes, offset: usize) -> Result<(), OutOfMemory> {
    for _ in out.len()..offset {
        out.push(0)?;
    }
    Ok(())
}

/// Puts zeros behind bytes up to the next multiple of 4.
pub fn align(out: &mut Bytes) -> Result<(), OutOfMemory> {
    for _ in 0..(4 - out.len() % 4) % 4 {
        out.push(0)?;
    }
    Ok(())
}
