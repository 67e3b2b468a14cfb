use super::*;
use gu_bytes::Cursor;
use gu_read_parts::{ReadErr, Which};
use gu_syntax::{BlockType, Choice, Instr};
use gu_types::ValType;
use std::alloc::{AllocError, Global};
use std::process::Abort;
use std::test::Fail;

/// Holds that no entry is read, and that the cursor stays.
fn refuses(rt: &impl Abort, alloc: Global, bytes: &[u8], want: ReadErr) {
    let mut cursor = Cursor::new(bytes);
    assert_eq!(rt; read_entry(alloc, &mut cursor).err(), Some(want));
    assert_eq!(rt; cursor.at(), 0);
}

fn refuses_at(rt: &impl Abort, alloc: Global, bytes: &[u8], at: u64) {
    refuses(rt, alloc, bytes, ReadErr::Malformed { at });
}

#[test]
fn what_does_not_stand_is_refused_at_its_place(rt: HostRuntime) {
    refuses_at(&rt, rt.alloc(), &[0x05, 0x00, 0xFC, 0x12, 0x00, 0x0B], 2);
    refuses_at(&rt, rt.alloc(), &[0x04, 0x00, 0xFB, 0x1F, 0x0B], 2);
    refuses_at(&rt, rt.alloc(), &[0x04, 0x00, 0xFB, 0x80, 0x0B], 2);
    refuses_at(&rt, rt.alloc(), &[0x03, 0x00, 0xFB, 0x80], 2);
    refuses_at(&rt, rt.alloc(), &[0x04, 0x00, 0xFE, 0x00, 0x0B], 2);
    refuses_at(&rt, rt.alloc(), &[0x04, 0x00, 0x06, 0x40, 0x0B], 2);
    refuses_at(&rt, rt.alloc(), &[0x03, 0x00, 0x05, 0x0B], 2);
    refuses_at(&rt, rt.alloc(), &[0x04, 0x00, 0x02, 0x5F, 0x0B], 3);
    refuses_at(
        &rt,
        rt.alloc(),
        &[0x06, 0x00, 0x04, 0x40, 0x05, 0x05, 0x0B],
        5,
    );
    refuses_at(
        &rt,
        rt.alloc(),
        &[0x06, 0x00, 0x28, 0x80, 0x01, 0x00, 0x0B],
        3,
    );
    refuses_at(
        &rt,
        rt.alloc(),
        &[0x08, 0x00, 0x41, 0x80, 0x80, 0x80, 0x80, 0x08, 0x0B],
        3,
    );
    refuses_at(
        &rt,
        rt.alloc(),
        &[0x08, 0x00, 0xFB, 0x18, 0x04, 0x00, 0x6E, 0x6E, 0x0B],
        4,
    );
    refuses_at(&rt, rt.alloc(), &[0x03, 0x00, 0x41, 0x00], 4);
    refuses_at(&rt, rt.alloc(), &[0x03, 0x00, 0x0B, 0x00], 3);
    refuses_at(&rt, rt.alloc(), &[0x05, 0x00, 0x41, 0x00, 0x0B], 0);
}

#[test]
fn codes_that_are_left_out_are_named(rt: HostRuntime) {
    let code = |at, code| ReadErr::OutOfProfile { at, code };
    refuses(
        &rt,
        rt.alloc(),
        &[0x05, 0x00, 0xFC, 0x00, 0x1A, 0x0B],
        code(2, 0xFC00),
    );
    refuses(
        &rt,
        rt.alloc(),
        &[0x06, 0x00, 0xFC, 0x87, 0x00, 0x1A, 0x0B],
        code(2, 0xFC07),
    );
    refuses(
        &rt,
        rt.alloc(),
        &[0x04, 0x00, 0xFD, 0x0C, 0x0B],
        code(2, 0xFD),
    );
    refuses(&rt, rt.alloc(), &[0x03, 0x00, 0xAE, 0x0B], code(2, 0xAE));
    refuses(
        &rt,
        rt.alloc(),
        &[0x04, 0x00, 0x02, 0x7D, 0x0B],
        code(3, 0x7D),
    );
    refuses(
        &rt,
        rt.alloc(),
        &[0x04, 0x00, 0xD0, 0x7D, 0x0B],
        code(3, 0x7D),
    );
    refuses(
        &rt,
        rt.alloc(),
        &[0x04, 0x01, 0x01, 0x7D, 0x0B],
        code(3, 0x7D),
    );
    refuses(
        &rt,
        rt.alloc(),
        &[0x07, 0x00, 0x43, 0x00, 0x00, 0x00, 0x00, 0x0B],
        code(2, 0x43),
    );
}

#[test]
fn locals_that_no_tree_counts_are_a_limit(rt: HostRuntime) {
    let spelled = [
        0x0C, 0x02, 0xFF, 0xFF, 0xFF, 0xFF, 0x0F, 0x7F, 0x01, 0x7F, 0x41, 0x00, 0x0B,
    ];
    let which = Which::Locals;
    refuses(&rt, rt.alloc(), &spelled, ReadErr::Limit { which, at: 0 });
    let unspelled = [
        0x0C, 0x02, 0xFF, 0xFF, 0xFF, 0xFF, 0x0F, 0x7F, 0x01, 0x7F, 0x41, 0x00, 0x05,
    ];
    refuses_at(&rt, rt.alloc(), &unspelled, 12);
}

/// An entry with so many blocks inside one another.
fn nested(alloc: Global, size: [u8; 2], blocks: u32) -> Result<Vec<u8>, AllocError> {
    let mut bytes = Vec::from_slice(alloc, &size)?;
    bytes.extend_from_slice(&[0x00])?;
    for _ in 0..blocks {
        bytes.extend_from_slice(&[0x02, 0x40])?;
    }
    for _ in 0..blocks {
        bytes.extend_from_slice(&[0x0B])?;
    }
    bytes.extend_from_slice(&[0x0B])?;
    Ok(bytes)
}

#[test]
fn a_thousand_blocks_are_read_and_no_more(rt: HostRuntime) -> Result<(), Fail> {
    let deep = nested(rt.alloc(), [0xBA, 0x17], 1000)?;
    let mut cursor = Cursor::new(&deep);
    let (locals, body) = read_entry(rt.alloc(), &mut cursor)?;
    assert_eq!(rt; cursor.left(), 0);
    assert_eq!(rt; locals.as_slice().len(), 0);
    assert_eq!(rt; body.code.as_slice().len(), 1);
    let deeper = nested(rt.alloc(), [0xBD, 0x17], 1001)?;
    let which = Which::Nesting;
    refuses(&rt, rt.alloc(), &deeper, ReadErr::Limit { which, at: 2003 });
    Ok(())
}

#[test]
fn runs_are_merged_and_an_empty_else_goes(rt: HostRuntime) -> Result<(), Fail> {
    let bytes = [
        0x12, 0x05, 0x01, 0x7F, 0x00, 0x7E, 0x02, 0x7F, 0x01, 0x7E, 0x00, 0x7F, // locals
        0x41, 0x00, 0x04, 0x40, 0x05, 0x0B, 0x0B, 0x01,
    ];
    let (entry, rest) = code_entry(rt.alloc(), &bytes)?;
    assert_eq!(rt; rest, [0x01].as_slice());
    let Entry::Whole { locals, body } = entry else {
        return Err(Fail::from(ReadErr::NoMemory));
    };
    assert_eq!(rt;
        locals.as_slice(),
        [(3, ValType::I32), (1, ValType::I64)].as_slice()
    );
    let is_whole = match body.code.as_slice() {
        [Instr::I32Const(0), Instr::If(boxed)] => {
            let Choice { ty, yes, no } = boxed.get();
            *ty == BlockType::Empty
                && yes.code.as_slice().is_empty()
                && no.code.as_slice().is_empty()
        }
        _ => false,
    };
    assert_eq!(rt; is_whole, true);
    Ok(())
}

#[test]
fn a_constant_expression_is_read(rt: HostRuntime) -> Result<(), Fail> {
    let (body, rest) = expression(rt.alloc(), &[0x41, 0x80, 0x00, 0x0B, 0x0B])?;
    assert_eq!(rt; matches!(body.code.as_slice(), [Instr::I32Const(0)]), true);
    assert_eq!(rt; rest, [0x0B].as_slice());
    Ok(())
}
