use super::*;
use gu_syntax::Limits;
use gu_types::{Abs, HeapType, RefType, ValType};
use std::test::Fail;

#[test]
fn numbers_names_and_types_are_read(rt: HostRuntime) -> Result<(), Fail> {
    assert_eq!(rt; read_u32(&[0xE5, 0x8E, 0x26, 0x05])?.0, 624485);
    assert_eq!(rt; read_s32(&[0xC0, 0xBB, 0x78])?.0, -123456);
    assert_eq!(rt; read_s64(&[0x7F])?.0, -1);
    let (name, rest) = read_name(rt.alloc(), &[0x02, 0xC3, 0xA9, 0x07])?;
    assert_eq!(rt; name.as_slice(), [0xC3, 0xA9].as_slice());
    assert_eq!(rt; rest, [0x07].as_slice());
    assert_eq!(rt;
        read_name(rt.alloc(), &[0x01, 0xFF]).err(),
        Some(Stop::Refused {
            asked: Asked::Bytes,
            left: 2
        })
    );
    let any = HeapType::Abs(Abs::Any);
    let nullable = RefType {
        null: true,
        heap: any,
    };
    assert_eq!(rt; read_val(&[0x6E])?.0, ValType::Ref(nullable));
    assert_eq!(rt; read_ref(&[0x63, 0x6E])?.0, nullable);
    let indexed = RefType {
        null: false,
        heap: HeapType::Idx(64),
    };
    assert_eq!(rt; read_ref(&[0x64, 0xC0, 0x00])?.0, indexed);
    let limits = Limits {
        least: 1,
        most: Some(2),
    };
    assert_eq!(rt; read_limits(&[0x01, 0x01, 0x02])?.0, limits);
    Ok(())
}

#[test]
fn vectors_and_sizes_are_read(rt: HostRuntime) -> Result<(), Fail> {
    let (indices, rest) = read_vector::<Index>(rt.alloc(), &[0x02, 0x03, 0x05, 0x08])?;
    assert_eq!(rt; indices.as_slice(), [3, 5].as_slice());
    assert_eq!(rt; rest, [0x08].as_slice());
    assert_eq!(rt; read_sized::<Index>(rt.alloc(), &[0x01, 0x03])?.0, 3);
    let left_over = Stop::Refused {
        asked: Asked::End,
        left: 2,
    };
    assert_eq!(rt;
        read_sized::<Index>(rt.alloc(), &[0x02, 0x03, 0x05, 0x08]).err(),
        Some(left_over)
    );
    let many = [0xFF, 0xFF, 0xFF, 0xFF, 0x0F];
    let missing = Stop::Refused {
        asked: Asked::Number,
        left: 0,
    };
    assert_eq!(rt;
        read_vector::<Values>(rt.alloc(), &many).err(),
        Some(Stop::Refused {
            asked: Asked::TypeStart,
            left: 0
        })
    );
    assert_eq!(rt;
        read_vector::<Index>(rt.alloc(), &many).err(),
        Some(missing)
    );
    Ok(())
}

#[test]
fn stops_are_answered(rt: HostRuntime) {
    let bytes = [0x01, 0x7D, 0xFC, 0x07];
    let left_out = ReadErr::OutOfProfile { at: 1, code: 0x7D };
    assert_eq!(rt;
        refusal(&bytes, Stop::at(Asked::TypeStart, &bytes[1..])),
        left_out
    );
    let conversion = ReadErr::OutOfProfile {
        at: 2,
        code: 0xFC07,
    };
    assert_eq!(rt;
        refusal(&bytes, Stop::at(Asked::Opcode, &bytes[2..])),
        conversion
    );
    let missing = ReadErr::Malformed { at: 3 };
    assert_eq!(rt;
        refusal(&bytes, Stop::at(Asked::Opcode, &bytes[3..])),
        missing
    );
    let nesting = ReadErr::Limit {
        which: Which::Nesting,
        at: 1,
    };
    assert_eq!(rt;
        refusal(&bytes, Stop::at(Asked::FlatOpcode, &bytes[1..])),
        nesting
    );
    assert_eq!(rt; refusal(&bytes, Stop::NoMemory), ReadErr::NoMemory);
}
