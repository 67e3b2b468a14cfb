use super::*;
use std::process::Abort;
use std::test::Fail;

#[test]
fn a_cursor_passes_bytes(rt: HostRuntime) -> Result<(), Fail> {
    let mut cursor = Cursor::new(&[0x00, 0x61, 0x73, 0x6D]);
    assert_eq!(rt; cursor.byte()?, 0x00);
    assert_eq!(rt; cursor.bytes(2)?, [0x61, 0x73].as_slice());
    assert_eq!(rt; cursor.at(), 3);
    assert_eq!(rt; cursor.left(), 1);
    assert_eq!(rt; cursor.bytes(2), Err(Bad { at: 3 }));
    Ok(())
}

const REFUSED: Bad = Bad { at: 0 };

fn reads_u32(rt: &impl Abort, bytes: &[u8], want: Result<u32, Bad>) {
    assert_eq!(rt; Cursor::new(bytes).read_u32(), want);
}

fn reads_s32(rt: &impl Abort, bytes: &[u8], want: Result<i32, Bad>) {
    assert_eq!(rt; Cursor::new(bytes).read_s32(), want);
}

fn reads_s33(rt: &impl Abort, bytes: &[u8], want: Result<i64, Bad>) {
    assert_eq!(rt; Cursor::new(bytes).read_s33(), want);
}

fn reads_s64(rt: &impl Abort, bytes: &[u8], want: Result<i64, Bad>) {
    assert_eq!(rt; Cursor::new(bytes).read_s64(), want);
}

#[test]
fn unsigned_integers_are_read(rt: HostRuntime) {
    reads_u32(&rt, &[0xE5, 0x8E, 0x26], Ok(624485));
    reads_u32(&rt, &[0x83, 0x00], Ok(3));
    reads_u32(&rt, &[0x80, 0x80, 0x80, 0x80, 0x00], Ok(0));
    reads_u32(&rt, &[0xFF, 0xFF, 0xFF, 0xFF, 0x0F], Ok(u32::MAX));
    reads_u32(&rt, &[0x80, 0x80, 0x80, 0x80, 0x80, 0x00], Err(REFUSED));
    reads_u32(&rt, &[0xFF, 0xFF, 0xFF, 0xFF, 0x1F], Err(REFUSED));
    reads_u32(&rt, &[0xE5, 0x8E], Err(REFUSED));
}

#[test]
fn signed_integers_are_read(rt: HostRuntime) {
    reads_s32(&rt, &[0xC0, 0xBB, 0x78], Ok(-123456));
    reads_s32(&rt, &[0xFE, 0xFF, 0x7F], Ok(-2));
    reads_s32(&rt, &[0xFF, 0xFF, 0xFF, 0xFF, 0x7F], Ok(-1));
    reads_s32(&rt, &[0x80, 0x80, 0x80, 0x80, 0x78], Ok(i32::MIN));
    reads_s32(&rt, &[0xFF, 0xFF, 0xFF, 0xFF, 0x0F], Err(REFUSED));
    reads_s32(&rt, &[0x83, 0x80, 0x80, 0x80, 0x10], Err(REFUSED));
}

#[test]
fn wider_signed_integers_are_read(rt: HostRuntime) {
    reads_s33(&rt, &[0x80, 0x80, 0x80, 0x80, 0x70], Ok(-4294967296));
    reads_s33(&rt, &[0xFF, 0xFF, 0xFF, 0xFF, 0x0F], Ok(4294967295));
    reads_s33(&rt, &[0x40], Ok(-64));
    reads_s33(&rt, &[0x80, 0x80, 0x80, 0x80, 0x10], Err(REFUSED));
    let least = [0x80, 0x80, 0x80, 0x80, 0x80, 0x80, 0x80, 0x80, 0x80, 0x7F];
    reads_s64(&rt, &least, Ok(i64::MIN));
    reads_s64(&rt, &[0x80], Err(REFUSED));
}

#[test]
fn integers_are_written(rt: HostRuntime) -> Result<(), Fail> {
    let mut out = Vec::new(rt.alloc());
    put_u32(rt.alloc(), &mut out, 624485)?;
    put_s32(rt.alloc(), &mut out, -123456)?;
    put_s33(rt.alloc(), &mut out, -4294967296)?;
    put_s64(rt.alloc(), &mut out, 64)?;
    let spelled = [
        0xE5, 0x8E, 0x26, 0xC0, 0xBB, 0x78, 0x80, 0x80, 0x80, 0x80, 0x70, 0xC0, 0x00,
    ];
    assert_eq!(rt; out.as_slice(), spelled.as_slice());
    Ok(())
}

#[test]
fn a_refusal_is_printed(rt: HostRuntime) -> Result<(), Fail> {
    let text = format!(in rt.alloc(); "{REFUSED}")?;
    assert_eq!(rt; text.as_str(), "no such byte or integer at 0");
    Ok(())
}
