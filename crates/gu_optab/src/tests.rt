use super::*;

#[test]
fn operators_stand_in_their_rows(rt: HostRuntime) {
    let add = op_of(0x6A);
    assert_eq!(rt; add, Some(NumOp { row: 25 }));
    assert_eq!(rt; code_of(NumOp { row: 25 }), 0x6A);
    assert_eq!(rt; operands(NumOp { row: 25 }), (2, NumType::I32));
    assert_eq!(rt; result(NumOp { row: 25 }), NumType::I32);
}

#[test]
fn a_comparison_of_i64_gives_an_i32(rt: HostRuntime) {
    let ge_u = NumOp { row: 21 };
    assert_eq!(rt; code_of(ge_u), 0x5A);
    assert_eq!(rt; operands(ge_u), (2, NumType::I64));
    assert_eq!(rt; result(ge_u), NumType::I32);
}

#[test]
fn wrap_narrows(rt: HostRuntime) {
    let wrap = NumOp { row: 58 };
    assert_eq!(rt; code_of(wrap), 0xA7);
    assert_eq!(rt; operands(wrap), (1, NumType::I64));
    assert_eq!(rt; result(wrap), NumType::I32);
}

#[test]
fn other_codes_are_no_operators(rt: HostRuntime) {
    assert_eq!(rt; op_of(0x44), None);
    assert_eq!(rt; op_of(0x5B), None);
    assert_eq!(rt; op_of(0xC5), None);
}

#[test]
fn a_table_is_made(_rt: HostRuntime) {
    let _table = OpTable::<66>::new();
}
