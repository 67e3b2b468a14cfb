use super::*;

/// A code entry that makes a constant.
const ENTRY: [u8; 5] = [0x04, 0x00, 0x41, 0x00, 0x0B];

/// A code entry that begins with the code of no instruction.
const NO_ENTRY: [u8; 5] = [0x04, 0x00, 0xFE, 0x00, 0x0B];

/// A module of 40,000 functions, whose entries are several batches. So many entries can be read, and
/// none of those behind them.
fn several(alloc: Global, good: u32) -> Result<Vec<u8>, AllocError> {
    let mut text = Vec::from_slice(alloc, &HEADER)?;
    text.extend_from_slice(&[0x01, 0x05, 0x01, 0x60, 0x00, 0x01, 0x7F])?;
    text.extend_from_slice(&[0x03, 0xC3, 0xB8, 0x02, 0xC0, 0xB8, 0x02])?;
    for _ in 0..40_000u32 {
        text.push(0x00)?;
    }
    text.extend_from_slice(&[0x0A, 0xC3, 0x9A, 0x0C, 0xC0, 0xB8, 0x02])?;
    for index in 0..40_000u32 {
        if index < good {
            text.extend_from_slice(&ENTRY)?;
        } else {
            text.extend_from_slice(&NO_ENTRY)?;
        }
    }
    Ok(text)
}

/// The functions of several batches are all read, and the first failure in order is answered.
#[test]
fn answers_for_several_batches(rt: HostRuntime) -> Result<(), Fail> {
    let alloc = rt.alloc();
    let text = several(alloc, 40_000)?;
    answers(&rt, alloc, text.as_slice(), None);
    let text = several(alloc, 39_999)?;
    answers(&rt, alloc, text.as_slice(), malformed(240_026));
    let text = several(alloc, 25_000)?;
    answers(&rt, alloc, text.as_slice(), malformed(165_031));
    let text = several(alloc, 0)?;
    answers(&rt, alloc, text.as_slice(), malformed(40_031));
    Ok(())
}
