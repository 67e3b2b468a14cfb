//! The rows of tables and element segments (core specification 3.0, 3.4 Instructions, table
//! instructions), and of globals (variable instructions).
ghost use Rattle.std.specs.Prelude.{◌≡◌, [], ◌∷◌, option_map, option_to_list};
ghost use Rattle.gu_model.specs.TypingTables as typing;
ghost use Rattle.gu_valid_code.specs.Env.{context_of};
ghost use Rattle.gu_valid_code.specs.Rows.{row_of};

use crate::env::Env;
use crate::references::reference_row;
use crate::row::{Few, Row, plain};
use gu_syntax::Instr;
use gu_types::RefType;
use gu_types::ValType::{I32, Ref};

/// A copy to a table of references of a type.
fn copies<'a>(env: &Env<'a>, table: u32, from: RefType) -> Option<Row<'a>>
    ensures { option_map row_of result ≡ typing.copies (context_of env.now) table from }
{
    let to = env.table(table)?;
    if env.is_sub_ref(from, to) {
        Some(plain(Few::Three(I32, I32, I32), None))
    } else {
        None
    }
}

/// The row of an instruction on globals, tables or element segments, or of one on references.
pub(crate) fn table_row<'a>(env: &Env<'a>, instr: &Instr) -> Option<Row<'a>>
    ensures { option_map row_of result ≡ typing.table_row (context_of env.now) instr.now }
{
    match instr {
        Instr::GlobalGet(global) => Some(plain(Few::Zero, Some(env.global(*global)?.0))),
        Instr::GlobalSet(global) => match env.global(*global)? {
            (found, true) => Some(plain(Few::One(found), None)),
            (_, false) => None,
        },
        Instr::TableGet(table) => Some(plain(Few::One(I32), Some(Ref(env.table(*table)?)))),
        Instr::TableSet(table) => Some(plain(Few::Two(I32, Ref(env.table(*table)?)), None)),
        Instr::TableSize(table) => env.table(*table).map(|_| plain(Few::Zero, Some(I32))),
        Instr::TableGrow(table) => Some(plain(Few::Two(Ref(env.table(*table)?), I32), Some(I32))),
        Instr::TableFill(table) => {
            Some(plain(Few::Three(I32, Ref(env.table(*table)?), I32), None))
        }
        Instr::TableCopy(to, from) => copies(env, *to, env.table(*from)?),
        Instr::TableInit(elem, table) => copies(env, *table, env.elem(*elem)?),
        Instr::ElemDrop(elem) => env.elem(*elem).map(|_| plain(Few::Zero, None)),
        _ => reference_row(env, instr),
    }
}
