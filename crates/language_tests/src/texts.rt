use smv_parse::ParseFault;
use std::alloc::{AllocError, Global};

/// The number and the place of a fault.
pub fn seen(fault: ParseFault) -> (u32, u32, u32) {
    match fault.place() {
        Some(place) => (fault.number(), place.line, place.column),
        None => (fault.number(), 0, 0),
    }
}

/// So many times some bytes, and then others.
pub fn repeated(
    alloc: Global,
    part: &[u8],
    count: usize,
    end: &[u8],
) -> Result<Vec<u8>, AllocError> {
    let mut text = Vec::new(alloc);
    for _i in 0..count {
        for byte in part {
            text.push(*byte)?;
        }
    }
    for byte in end {
        text.push(*byte)?;
    }
    Ok(text)
}
