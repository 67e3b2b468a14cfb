//! The lines of statuses, as the program's users read them.

use crate::{Part, Status, Which, fault_line};
use gu_outside::MemSink;
use std::test::Fail;

#[test]
fn lines_tell_statuses(rt: HostRuntime) -> Result<(), Fail> {
    let rows: [(Status, &[u8]); 8] = [
        (Status::Done, b""),
        (
            Status::Usage,
            b"usage: wasm-gufa [--workers N] [--rounds K] [--report] [--generate S] [--calls] [--allocs] [--unused]\n",
        ),
        (
            Status::OutOfProfile { at: 31, code: 0x43 },
            b"wasm-gufa: not in profile at 31, code 0x43\n",
        ),
        (
            Status::OutOfProfile {
                at: 18_446_744_073_709_551_615,
                code: 0xFC07,
            },
            b"wasm-gufa: not in profile at 18446744073709551615, code 0xfc07\n",
        ),
        (
            Status::OutOfProfile { at: 0, code: 0xD },
            b"wasm-gufa: not in profile at 0, code 0xd\n",
        ),
        (
            Status::Invalid {
                part: Part::DataSeg(4_294_967_295),
            },
            b"wasm-gufa: invalid, data 4294967295\n",
        ),
        (
            Status::Limit {
                which: Which::ModuleLocals,
                at: 4_000_001,
            },
            b"wasm-gufa: limit module locals at 4000001\n",
        ),
        (Status::NoMemory, b"wasm-gufa: no memory\n"),
    ];
    for (status, line) in rows {
        let mut report = MemSink::new(rt.alloc(), Vec::new(rt.alloc()), 4096);
        report.reserve(4096)?;
        fault_line(&mut report, &status);
        assert_eq!(rt; report.as_slice(), line);
    }
    Ok(())
}
