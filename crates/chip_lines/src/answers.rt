//! Numbers that a chip answers.

use std::alloc::{AllocError, Global};

/// Some numbers.
pub fn numbers(alloc: Global, values: &[u32]) -> Result<Vec<u32>, AllocError> {
    let mut answer = Vec::new(alloc);
    answer.extend_from_slice(values)?;
    Ok(answer)
}

/// The bytes of an image.
pub fn bytes(alloc: Global, image: &[u8]) -> Result<Vec<u32>, AllocError> {
    let mut answer = Vec::new(alloc);
    for byte in image {
        answer.push(u32::from(*byte))?;
    }
    Ok(answer)
}
