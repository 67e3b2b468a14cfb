use super::*;
use gu_optab::{NumType, op_of, operands};
use std::process::Abort;

fn one_32(rt: &impl Abort, code: u8, a: u32) -> u64 {
    let op = op_of(code).expect(rt, "the code of an operator");
    assert_eq!(rt; operands(op), (1, NumType::I32));
    apply1(op, u64::from(a))
}

fn one_64(rt: &impl Abort, code: u8, a: u64) -> u64 {
    let op = op_of(code).expect(rt, "the code of an operator");
    assert_eq!(rt; operands(op), (1, NumType::I64));
    apply1(op, a)
}

fn two_32(rt: &impl Abort, code: u8, a: u32, b: u32) -> Option<u64> {
    let op = op_of(code).expect(rt, "the code of an operator");
    assert_eq!(rt; operands(op), (2, NumType::I32));
    apply2(op, u64::from(a), u64::from(b))
}

fn two_64(rt: &impl Abort, code: u8, a: u64, b: u64) -> Option<u64> {
    let op = op_of(code).expect(rt, "the code of an operator");
    assert_eq!(rt; operands(op), (2, NumType::I64));
    apply2(op, a, b)
}

#[test]
fn tests_and_counts(rt: HostRuntime) {
    assert_eq!(rt; one_32(&rt, 0x45, 0), 1);
    assert_eq!(rt; one_32(&rt, 0x67, 0x1234_5678), 3);
    assert_eq!(rt; one_32(&rt, 0x67, 0), 32);
    assert_eq!(rt; one_64(&rt, 0x7A, 0), 64);
    assert_eq!(rt; one_64(&rt, 0x7B, 0x1234_5678_9ABC_DEF0), 32);
}

#[test]
fn conversions(rt: HostRuntime) {
    assert_eq!(rt; one_64(&rt, 0xA7, 0x1234_5678_9ABC_DEF0), 0x9ABC_DEF0);
    assert_eq!(rt; one_32(&rt, 0xAC, 0x8000_0000), 0xFFFF_FFFF_8000_0000);
    assert_eq!(rt; one_32(&rt, 0xAD, 0x8000_0000), 0x8000_0000);
    assert_eq!(rt; one_32(&rt, 0xC0, 0x7FFF), 0xFFFF_FFFF);
    assert_eq!(rt;
        one_64(&rt, 0xC4, 0x1234_5678_9ABC_DEF0),
        0xFFFF_FFFF_9ABC_DEF0
    );
}

#[test]
fn divisions(rt: HostRuntime) {
    assert_eq!(rt; two_32(&rt, 0x6D, 0xFFFF_FFF9, 2), Some(0xFFFF_FFFD));
    assert_eq!(rt; two_32(&rt, 0x6F, 0xFFFF_FFF9, 2), Some(0xFFFF_FFFF));
    assert_eq!(rt; two_32(&rt, 0x6E, 0xFFFF_FFF9, 2), Some(0x7FFF_FFFC));
    assert_eq!(rt; two_32(&rt, 0x6D, 0x8000_0000, 0xFFFF_FFFF), None);
    assert_eq!(rt; two_32(&rt, 0x6F, 0x8000_0000, 0xFFFF_FFFF), Some(0));
    assert_eq!(rt;
        two_64(&rt, 0x7F, 1 << 63, 0xFFFF_FFFF),
        Some(0xFFFF_FFFF_8000_0000)
    );
    assert_eq!(rt; two_64(&rt, 0x80, 1, 0), None);
}

#[test]
fn shifts_and_relations(rt: HostRuntime) {
    assert_eq!(rt; two_32(&rt, 0x74, 0x20, 0x8000_0000), Some(0x20));
    assert_eq!(rt; two_32(&rt, 0x75, 0x8000_0000, 0x1F), Some(0xFFFF_FFFF));
    assert_eq!(rt; two_64(&rt, 0x8A, 0x8000, 1), Some(0x4000));
    assert_eq!(rt; two_32(&rt, 0x48, 0xFFFF_FFFF, 0), Some(1));
    assert_eq!(rt; two_64(&rt, 0x5A, 0, u64::MAX), Some(0));
}
