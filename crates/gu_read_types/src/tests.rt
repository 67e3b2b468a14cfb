use super::*;
use gu_bytes::Cursor;
use gu_read_parts::ReadErr;
use gu_types::{Comp, FieldType, Storage, ValType};
use std::test::Fail;

#[test]
fn groups_are_read_at_a_cursor(rt: HostRuntime) -> Result<(), Fail> {
    // A byte, a function type, an empty group, and a group of an open array type of bytes; a byte.
    let bytes = [
        0xAA, 0x03, 0x60, 0x01, 0x7F, 0x00, 0x4E, 0x00, 0x4E, 0x01, 0x50, 0x00, 0x5E, 0x78, 0x01,
        0xBB,
    ];
    let mut cursor = Cursor::new(&bytes);
    cursor.byte()?;
    let list = read_types(rt.alloc(), &mut cursor)?;
    assert_eq!(rt; cursor.at(), 15);
    assert_eq!(rt; list.groups.as_slice().len(), 3);
    for (group, count) in list.groups.as_slice().iter().zip([1, 0, 1]) {
        assert_eq!(rt; group.types.as_slice().len(), count);
        for ty in group.types.as_slice() {
            match &ty.comp {
                Comp::Func { params, results } => {
                    assert_eq!(rt; ty.is_final, true);
                    assert_eq!(rt; params.as_slice(), [ValType::I32].as_slice());
                    assert_eq!(rt; results.as_slice().len(), 0);
                }
                Comp::Struct(_) => assert_eq!(rt; true, false),
                Comp::Array(field) => {
                    let storage = Storage::I8;
                    let mutable = true;
                    assert_eq!(rt; ty.is_final, false);
                    assert_eq!(rt; *field, FieldType { storage, mutable });
                }
            }
        }
    }
    Ok(())
}

#[test]
fn refusals_name_places_from_the_start(rt: HostRuntime) -> Result<(), Fail> {
    let bytes = [0xAA, 0x01, 0x60, 0x01, 0x7D];
    let mut cursor = Cursor::new(&bytes);
    cursor.byte()?;
    let outside = ReadErr::OutOfProfile { at: 4, code: 0x7D };
    assert_eq!(rt; read_types(rt.alloc(), &mut cursor).err(), Some(outside));
    assert_eq!(rt; cursor.at(), 1);
    let mut shorter = Cursor::new(&bytes[..4]);
    shorter.byte()?;
    let malformed = ReadErr::Malformed { at: 4 };
    assert_eq!(rt; read_types(rt.alloc(), &mut shorter).err(), Some(malformed));
    Ok(())
}
