ghost use Rattle.std.specs.Prelude.{⊤};

use super::*;
use std::test::Fail;

/// The squares of the numbers below a place, three to a part.
struct Squares;

impl Work for Squares {
    type Made = u64;

    ghost ready = { λ _. ⊤ };

    ghost ends = { λ _ _ _. ⊤ };

    ghost makes = { λ _ _ _ _. ⊤ };

    fn end_of(&self, start: u64) -> u64 {
        start.saturating_add(3)
    }

    fn make(&self, start: u64, _end: u64) -> u64 {
        start.wrapping_mul(start)
    }
}

#[test]
fn no_part_is_left_out(rt: HostRuntime) -> Result<(), Fail> {
    let (beside, parts) = do_parts(&rt, rt.alloc(), &Squares, 1000, 1000, || 7u32);
    assert_eq!(rt; beside, 7);
    let parts = parts?;
    assert_eq!(rt; parts.len(), 334);
    let last = parts.last().ok_or("there are parts")?;
    assert_eq!(rt; (last.start, last.end, last.made), (999, 1002, 998_001));
    Ok(())
}

#[test]
fn without_turns_there_is_no_part(rt: HostRuntime) -> Result<(), Fail> {
    let (_, parts) = do_parts(&rt, rt.alloc(), &Squares, 1000, 0, || 7u32);
    assert_eq!(rt; parts?.len(), 0);
    Ok(())
}
