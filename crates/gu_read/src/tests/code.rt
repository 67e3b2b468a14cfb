use super::*;

#[test]
fn answers_for_code_part_one(rt: HostRuntime) -> Result<(), Fail> {
    let alloc = rt.alloc();
    behind(
        &rt,
        alloc,
        &FUNC,
        &[0x0A, 0x07, 0x01, 0x05, 0x00, 0xFC, 0x00, 0x1A, 0x0B],
        outside(31, 0xfc00),
    )?;
    behind(
        &rt,
        alloc,
        &FUNC,
        &[0x0A, 0x08, 0x01, 0x06, 0x00, 0xFC, 0x87, 0x00, 0x1A, 0x0B],
        outside(31, 0xfc07),
    )?;
    behind(
        &rt,
        alloc,
        &FUNC,
        &[0x0A, 0x07, 0x01, 0x05, 0x00, 0xFC, 0x12, 0x00, 0x0B],
        malformed(31),
    )?;
    behind(
        &rt,
        alloc,
        &FUNC,
        &[0x0A, 0x06, 0x01, 0x04, 0x00, 0xFB, 0x1F, 0x0B],
        malformed(31),
    )?;
    behind(
        &rt,
        alloc,
        &FUNC,
        &[0x0A, 0x06, 0x01, 0x04, 0x00, 0xFB, 0x80, 0x0B],
        malformed(31),
    )?;
    behind(
        &rt,
        alloc,
        &FUNC,
        &[0x0A, 0x05, 0x01, 0x03, 0x00, 0xFB, 0x80],
        malformed(31),
    )?;
    behind(
        &rt,
        alloc,
        &FUNC,
        &[0x0A, 0x06, 0x01, 0x04, 0x00, 0xFD, 0x0C, 0x0B],
        outside(31, 0xfd),
    )?;
    behind(
        &rt,
        alloc,
        &FUNC,
        &[0x0A, 0x06, 0x01, 0x04, 0x00, 0xFE, 0x00, 0x0B],
        malformed(31),
    )?;
    behind(
        &rt,
        alloc,
        &FUNC,
        &[0x0A, 0x06, 0x01, 0x04, 0x00, 0x06, 0x40, 0x0B],
        malformed(31),
    )?;
    behind(
        &rt,
        alloc,
        &FUNC,
        &[0x0A, 0x05, 0x01, 0x03, 0x00, 0x05, 0x0B],
        malformed(31),
    )?;
    behind(
        &rt,
        alloc,
        &FUNC,
        &[0x0A, 0x05, 0x01, 0x03, 0x00, 0xAE, 0x0B],
        outside(31, 0xae),
    )?;
    behind(
        &rt,
        alloc,
        &FUNC,
        &[0x0A, 0x05, 0x01, 0x03, 0x00, 0x0A, 0x0B],
        None,
    )?;
    behind(
        &rt,
        alloc,
        &FUNC,
        &[0x0A, 0x06, 0x01, 0x04, 0x00, 0x02, 0x7D, 0x0B],
        outside(32, 0x7d),
    )?;
    behind(
        &rt,
        alloc,
        &FUNC,
        &[0x0A, 0x06, 0x01, 0x04, 0x00, 0x02, 0x5F, 0x0B],
        malformed(32),
    )?;
    behind(
        &rt,
        alloc,
        &FUNC,
        &[0x0A, 0x08, 0x01, 0x06, 0x00, 0x04, 0x40, 0x05, 0x05, 0x0B],
        malformed(34),
    )?;
    Ok(())
}

#[test]
fn answers_for_code_part_two(rt: HostRuntime) -> Result<(), Fail> {
    let alloc = rt.alloc();
    behind(
        &rt,
        alloc,
        &FUNC,
        &[0x0A, 0x08, 0x01, 0x06, 0x00, 0x28, 0x80, 0x01, 0x00, 0x0B],
        malformed(32),
    )?;
    behind(
        &rt,
        alloc,
        &FUNC,
        &[0x0A, 0x08, 0x01, 0x06, 0x00, 0x28, 0x40, 0x00, 0x00, 0x0B],
        None,
    )?;
    behind(
        &rt,
        alloc,
        &FUNC,
        &[
            0x0A, 0x0A, 0x01, 0x08, 0x00, 0x41, 0x80, 0x80, 0x80, 0x80, 0x08, 0x0B,
        ],
        malformed(32),
    )?;
    behind(
        &rt,
        alloc,
        &FUNC,
        &[
            0x0A, 0x0A, 0x01, 0x08, 0x00, 0x41, 0x80, 0x80, 0x80, 0x80, 0x78, 0x0B,
        ],
        None,
    )?;
    behind(
        &rt,
        alloc,
        &FUNC,
        &[
            0x0A, 0x0A, 0x01, 0x08, 0x00, 0xFB, 0x18, 0x04, 0x00, 0x6E, 0x6E, 0x0B,
        ],
        malformed(33),
    )?;
    behind(
        &rt,
        alloc,
        &FUNC,
        &[0x0A, 0x06, 0x01, 0x04, 0x00, 0xD0, 0x7D, 0x0B],
        outside(32, 0x7d),
    )?;
    behind(
        &rt,
        alloc,
        &FUNC,
        &[0x0A, 0x05, 0x01, 0x03, 0x00, 0x41, 0x00],
        malformed(33),
    )?;
    behind(
        &rt,
        alloc,
        &FUNC,
        &[0x0A, 0x05, 0x01, 0x03, 0x00, 0x0B, 0x00],
        malformed(32),
    )?;
    behind(
        &rt,
        alloc,
        &FUNC,
        &[0x0A, 0x05, 0x01, 0x02, 0x00, 0x0B, 0x00],
        malformed(32),
    )?;
    behind(
        &rt,
        alloc,
        &FUNC,
        &[0x0A, 0x06, 0x01, 0x04, 0x01, 0x01, 0x7D, 0x0B],
        outside(32, 0x7d),
    )?;
    Ok(())
}

#[test]
fn answers_for_worked_rows(rt: HostRuntime) -> Result<(), Fail> {
    let alloc = rt.alloc();
    behind(&rt, alloc, &HEADER, &[], None)?;
    behind(
        &rt,
        alloc,
        &[],
        &[0x00, 0x61, 0x73, 0x6D, 0x01, 0x00, 0x00],
        malformed(7),
    )?;
    behind(
        &rt,
        alloc,
        &FUNC,
        &[0x0A, 0x06, 0x01, 0x05, 0x00, 0x41, 0x00, 0x0B],
        malformed(29),
    )?;
    behind(
        &rt,
        alloc,
        &FUNC,
        &[
            0x0A, 0x09, 0x01, 0x07, 0x00, 0x43, 0x00, 0x00, 0x00, 0x00, 0x0B,
        ],
        outside(31, 0x43),
    )?;
    behind(
        &rt,
        alloc,
        &HEADER,
        &[
            0x01, 0x05, 0x01, 0x60, 0x00, 0x01, 0x7D, 0x03, 0x02, 0x01, 0x00, 0x07, 0x05, 0x01,
            0x01, 0x66, 0x00, 0x00, 0x0A, 0x87, 0x80, 0x80, 0x80, 0x00, 0x01, 0x05, 0x00, 0x41,
            0x80, 0x00, 0x0B,
        ],
        outside(14, 0x7d),
    )?;
    behind(
        &rt,
        alloc,
        &HEADER,
        &[0x01, 0x05, 0xFF, 0xFF, 0xFF, 0xFF, 0x0F],
        malformed(15),
    )?;
    behind(&rt, alloc, &HEADER, &[0x01, 0x7F], malformed(9))?;
    behind(
        &rt,
        alloc,
        &FUNC,
        &[
            0x0A, 0x0E, 0x01, 0x0C, 0x02, 0xFF, 0xFF, 0xFF, 0xFF, 0x0F, 0x7F, 0x01, 0x7F, 0x41,
            0x00, 0x0B,
        ],
        limit(Which::Locals, 0),
    )?;
    behind(&rt, alloc, &HEADER, &[0x00, 0x03, 0x01, 0x61, 0xFF], None)?;
    Ok(())
}

/// A module of two functions: a body that opens 1,001 blocks, and one with a code that is left out of
/// the profile, in this order or the other.
fn two_entries(alloc: Global, is_deep_first: bool) -> Result<Vec<u8>, AllocError> {
    let mut text = Vec::from_slice(alloc, &HEADER)?;
    text.extend_from_slice(&[0x01, 0x04, 0x01, 0x60, 0x00, 0x00])?;
    text.extend_from_slice(&[0x03, 0x03, 0x02, 0x00, 0x00, 0x0A, 0xC6, 0x17, 0x02])?;
    if !is_deep_first {
        text.extend_from_slice(&[0x05, 0x00, 0xFC, 0x00, 0x1A, 0x0B])?;
    }
    text.extend_from_slice(&[0xBD, 0x17, 0x00])?;
    for _ in 0..1001 {
        text.extend_from_slice(&[0x02, 0x40])?;
    }
    for _ in 0..1002 {
        text.push(0x0B)?;
    }
    if is_deep_first {
        text.extend_from_slice(&[0x05, 0x00, 0xFC, 0x00, 0x1A, 0x0B])?;
    }
    Ok(text)
}

#[test]
fn the_first_failure_in_order_is_answered(rt: HostRuntime) -> Result<(), Fail> {
    let alloc = rt.alloc();
    let deep_first = two_entries(alloc, true)?;
    answers(
        &rt,
        alloc,
        deep_first.as_slice(),
        limit(Which::Nesting, 2026),
    );
    let named_first = two_entries(alloc, false)?;
    answers(&rt, alloc, named_first.as_slice(), outside(25, 0xFC00));
    Ok(())
}

#[test]
fn a_block_too_deep_is_answered_at_its_place(rt: HostRuntime) -> Result<(), Fail> {
    let mut text = Vec::from_slice(rt.alloc(), &FUNC)?;
    text.extend_from_slice(&[0x0A, 0xD6, 0x0F, 0x01, 0xD3, 0x0F, 0x00])?;
    for _ in 0..1001 {
        text.extend_from_slice(&[0x02, 0x40])?;
    }
    answers(
        &rt,
        rt.alloc(),
        text.as_slice(),
        limit(Which::Nesting, 2033),
    );
    Ok(())
}
