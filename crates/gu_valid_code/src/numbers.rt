//! The rows of numbers and memories (core specification 3.0, 3.4 Instructions, numeric and memory
//! instructions).
ghost use Rattle.std.specs.Prelude.{◌≡◌, [], ◌∷◌, option_map, option_to_list};
ghost use Rattle.gu_model.specs.TypingNumbers as typing;
ghost use Rattle.gu_model.specs.TypingNumbers.{number_row};
ghost use Rattle.gu_valid_code.specs.Env.{context_of};
ghost use Rattle.gu_valid_code.specs.Rows.{few_of, row_of};

use crate::env::Env;
use crate::row::{Below, Few, Row, Then, plain};
use crate::tables::table_row;
use gu_optab::{NumOp, NumType, operands, result};
use gu_syntax::{Instr, MemArg};
use gu_types::ValType::{self, I32, I64};

/// How many operators there are.
const OPERATORS: u8 = 66;

/// The value type of a number type.
#[inline(always)]
fn number(found: NumType) -> ValType
    ensures { result ≡ typing.number found }
{
    match found {
        NumType::I32 => I32,
        NumType::I64 => I64,
    }
}

/// An integer operator, as its row in the table of operators says.
#[inline(always)]
pub(crate) fn operator<'a>(op: NumOp) -> Option<Row<'a>>
    ensures { option_map row_of result ≡ typing.operator_row op.row }
{
    if op.row >= OPERATORS {
        return None;
    }
    let (count, found) = operands(op);
    Some(Row {
        below: Below::Copies(number(found), u32::from(count)),
        top: Few::Zero,
        then: Then::Gives(Some(number(result(op)))),
    })
}

/// An access to a memory, of 2 to the power `width` bytes.
#[inline(always)]
fn access<'a>(
    env: &Env<'a>,
    arg: &MemArg,
    width: u32,
    top: Few,
    given: Option<ValType>,
) -> Option<Row<'a>>
    ensures { option_map row_of result ≡ typing.access (context_of env.now) arg.now width (few_of top) (option_to_list given) }
{
    if arg.memory < env.memories && arg.exponent <= width {
        Some(plain(top, given))
    } else {
        None
    }
}

#[inline(always)]
fn load<'a>(env: &Env<'a>, arg: &MemArg, width: u32, loaded: ValType) -> Option<Row<'a>>
    ensures { option_map row_of result ≡ typing.load (context_of env.now) arg.now width loaded }
{
    access(env, arg, width, Few::One(I32), Some(loaded))
}

#[inline(always)]
fn store<'a>(env: &Env<'a>, arg: &MemArg, width: u32, stored: ValType) -> Option<Row<'a>>
    ensures { option_map row_of result ≡ typing.store (context_of env.now) arg.now width stored }
{
    access(env, arg, width, Few::Two(I32, stored), None)
}

/// An instruction on a memory.
fn on_memory<'a>(env: &Env<'a>, memory: u32, top: Few, given: Option<ValType>) -> Option<Row<'a>>
    ensures { option_map row_of result ≡ typing.on_memory (context_of env.now) memory (few_of top) (option_to_list given) }
{
    if memory < env.memories {
        Some(plain(top, given))
    } else {
        None
    }
}

/// The row of an instruction that rests on no operands and no labels.
pub(crate) fn plain_row<'a>(env: &Env<'a>, instr: &Instr) -> Option<Row<'a>>
    ensures { option_map row_of result ≡ number_row (context_of env.now) instr.now }
{
    match instr {
        Instr::I32Const(_) => Some(plain(Few::Zero, Some(I32))),
        Instr::I64Const(_) => Some(plain(Few::Zero, Some(I64))),
        Instr::Num(op) => operator(*op),
        Instr::I32Load(arg) => load(env, arg, 2, I32),
        Instr::I64Load(arg) => load(env, arg, 3, I64),
        Instr::I32Load8S(arg) | Instr::I32Load8U(arg) => load(env, arg, 0, I32),
        Instr::I32Load16S(arg) | Instr::I32Load16U(arg) => load(env, arg, 1, I32),
        Instr::I64Load8S(arg) | Instr::I64Load8U(arg) => load(env, arg, 0, I64),
        Instr::I64Load16S(arg) | Instr::I64Load16U(arg) => load(env, arg, 1, I64),
        Instr::I64Load32S(arg) | Instr::I64Load32U(arg) => load(env, arg, 2, I64),
        Instr::I32Store(arg) => store(env, arg, 2, I32),
        Instr::I64Store(arg) => store(env, arg, 3, I64),
        Instr::I32Store8(arg) => store(env, arg, 0, I32),
        Instr::I32Store16(arg) => store(env, arg, 1, I32),
        Instr::I64Store8(arg) => store(env, arg, 0, I64),
        Instr::I64Store16(arg) => store(env, arg, 1, I64),
        Instr::I64Store32(arg) => store(env, arg, 2, I64),
        _ => memory_row(env, instr),
    }
}

/// The row of an instruction on whole memories and data segments, or of one that has no memory.
fn memory_row<'a>(env: &Env<'a>, instr: &Instr) -> Option<Row<'a>>
    ensures { option_map row_of result ≡ typing.memory_row (context_of env.now) instr.now }
{
    let range = Few::Three(I32, I32, I32);
    match instr {
        Instr::MemorySize(memory) => on_memory(env, *memory, Few::Zero, Some(I32)),
        Instr::MemoryGrow(memory) => on_memory(env, *memory, Few::One(I32), Some(I32)),
        Instr::MemoryFill(memory) => on_memory(env, *memory, range, None),
        Instr::MemoryCopy(to, from) if *from < env.memories => on_memory(env, *to, range, None),
        Instr::MemoryInit(seg, memory) if *seg < env.segs => on_memory(env, *memory, range, None),
        Instr::MemoryCopy(..) | Instr::MemoryInit(..) => None,
        Instr::DataDrop(seg) if *seg < env.segs => Some(plain(Few::Zero, None)),
        Instr::DataDrop(_) => None,
        _ => table_row(env, instr),
    }
}
