//! A file from its packed bytes.

use std::alloc::{AllocError, Global};

/// A byte so many times.
fn repeat(bytes: &mut Vec<u8>, byte: u8, times: u8) -> Result<(), AllocError> {
    for _ in 0..times {
        bytes.push(byte)?;
    }
    Ok(())
}

/// The bytes of a file: behind a byte 00 or ff stands how often it comes.
pub fn unpacked(alloc: Global, packed: &[u8]) -> Result<Vec<u8>, AllocError> {
    let mut bytes = Vec::new(alloc);
    let mut run = None;
    for b in packed {
        match run {
            Some(byte) => {
                repeat(&mut bytes, byte, *b)?;
                run = None;
            }
            None => {
                if *b == 0 || *b == 0xff {
                    run = Some(*b);
                } else {
                    bytes.push(*b)?;
                }
            }
        }
    }
    Ok(bytes)
}
