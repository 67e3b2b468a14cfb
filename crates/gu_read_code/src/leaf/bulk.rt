//! Instructions behind FC.
ghost use Rattle.std.specs.Prelude.{◌≡◌, ◌+◌, ◌<◌, ◌≤◌, suc, length, IfOk};
ghost use Rattle.gu_syntax.specs.Instructions.{Unknown, row_or, bulk_rows};
ghost use Rattle.gu_syntax.specs.Reading.{form_at};
ghost use Rattle.gu_read_parts.specs.Gives.{Gives, left_of};

use gu_read_parts::{Asked, Stop, read_u32};
use gu_syntax::Instr;

/// Behind FC: memories, tables and segments (5.4.5 Table Instructions, 5.4.6 Memory Instructions).
/// `left` bytes are left at the prefix.
pub fn read_bulk(code: u32, left: usize, bytes: &[u8]) -> Result<(Instr, &[u8]), Stop>
    requires place { length bytes.now < left }
    ensures value { Gives result (form_at left (row_or Unknown bulk_rows code) bytes.now) }
    ensures inside { left_of result ≤ left }
    ensures behind { IfOk result (λ x. length x.1.now ≤ length bytes.now) }
{
    match code {
        8 => with_pair!(Instr::MemoryInit, bytes),
        9 => with_index!(Instr::DataDrop, bytes),
        10 => with_pair!(Instr::MemoryCopy, bytes),
        11 => with_index!(Instr::MemoryFill, bytes),
        12 => with_pair!(Instr::TableInit, bytes),
        13 => with_index!(Instr::ElemDrop, bytes),
        14 => with_pair!(Instr::TableCopy, bytes),
        15 => with_index!(Instr::TableGrow, bytes),
        16 => with_index!(Instr::TableSize, bytes),
        17 => with_index!(Instr::TableFill, bytes),
        _ => Err(Stop::Refused {
            asked: Asked::Opcode,
            left,
        }),
    }
}
