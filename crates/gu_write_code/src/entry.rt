//! Code entries (core specification 3.0, 5.5.13 Code Section).
ghost use Rattle.std.specs.Prelude.{◌≡◌, ◌++◌, ◌≤◌, OnOk, OnErr, IfErr, length};
ghost use Rattle.std.specs.List.{AllByRecursion};
ghost use Rattle.gu_bytes.specs.Reads.{GrowsByFront};
ghost use Rattle.gu_syntax.specs.Encoding.{encode_items, sized};
ghost use Rattle.gu_syntax.specs.Encoding.{encode_func};
ghost use Rattle.gu_syntax.specs.Shape.{IsShapedFunc};
ghost use Rattle.gu_write_parts.specs.Limit.{BlamesLength, BlamesEnd};
ghost use Rattle.gu_write_code.specs.Layouts.{entry_content};

use crate::code::put_body;
use gu_bytes::put_u32;
use gu_syntax::Func;
use gu_types::ValType;
use gu_write_parts::{Form, LIMIT, WriteErr, fill_size, put_byte, put_val, put_vector};
use std::alloc::Global;

/// Appends the code entry of a function: its size, the runs of its locals and its body (core
/// specification 3.0, 5.5.13 Code Section).
///
/// `TooLong` exactly where the entry has more than 268,435,456 bytes. After an error a front of the
/// entry at most, maybe none of it, is appended.
pub fn write_entry(alloc: Global, out: &mut Vec<u8>, f: &Func) -> Result<(), WriteErr>
    requires { IsShapedFunc f.now }
    ensures ok { OnOk result (out.new.items ≡ out.old.items ++ encode_func f.now) }
    ensures short { OnOk result (length (encode_func f.now) ≤ 268435456) }
    ensures too_long { IfErr result (BlamesLength (encode_func f.now)) }
    ensures partly { OnErr result (GrowsByFront (encode_func f.now) out.old.items out.new.items) }
{
    let mut content = Vec::new(alloc);
    put_content(alloc, &mut content, f)?;
    append_sized(alloc, out, content.as_slice())
}

/// Appends the code entries of functions, one behind the other.
///
/// `TooLong` where they would end past 268,435,456 bytes. After an error nothing is said of what was
/// appended.
pub fn write_entries(alloc: Global, out: &mut Vec<u8>, funcs: &[Func]) -> Result<(), WriteErr>
    requires { AllByRecursion IsShapedFunc funcs.now }
    ensures ok { OnOk result (out.new.items ≡ out.old.items ++ encode_items encode_func funcs.now) }
    ensures too_long { IfErr result (BlamesEnd out.old.items (encode_items encode_func funcs.now)) }
{
    'funcs: for func in funcs {
        put_in_place(alloc, out, func)?;
        if out.len() > LIMIT {
            return Err(WriteErr::TooLong);
        }
    }
    Ok(())
}

/// Appends a code entry, whose content is written in its place, behind room for its size.
fn put_in_place(alloc: Global, out: &mut Vec<u8>, f: &Func) -> Result<(), WriteErr>
    requires { IsShapedFunc f.now }
    ensures ok { OnOk result (out.new.items ≡ out.old.items ++ encode_func f.now) }
    ensures too_long { IfErr result (BlamesEnd out.old.items (encode_func f.now)) }
{
    let place = out.len();
    put_byte(out, 0)?;
    put_content(alloc, out, f)?;
    fill_size(alloc, out, place, 1)?;
    Ok(())
}

/// Appends the runs of locals and the body of a function.
fn put_content(alloc: Global, out: &mut Vec<u8>, f: &Func) -> Result<(), WriteErr>
    requires { IsShapedFunc f.now }
    ensures ok { OnOk result (out.new.items ≡ out.old.items ++ entry_content f.now) }
    ensures too_long { IfErr result (BlamesEnd out.old.items (entry_content f.now)) }
{
    put_vector::<RunForm, (u32, ValType)>(alloc, out, f.locals.as_slice())?;
    put_body(alloc, out, &f.body)
}

/// Appends how many bytes follow, and the bytes, where both have at most 268,435,456 bytes.
fn append_sized(alloc: Global, out: &mut Vec<u8>, content: &[u8]) -> Result<(), WriteErr>
    ensures ok { OnOk result (out.new.items ≡ out.old.items ++ sized content.now) }
    ensures short { OnOk result (length (sized content.now) ≤ 268435456) }
    ensures too_long { IfErr result (BlamesLength (sized content.now)) }
    ensures partly { OnErr result (GrowsByFront (sized content.now) out.old.items out.new.items) }
{
    if content.len() > LIMIT {
        return Err(WriteErr::TooLong);
    }
    let start = out.len();
    put_u32(alloc, out, content.len() as u32)?;
    if out.len() - start > LIMIT - content.len() {
        return Err(WriteErr::TooLong);
    }
    out.extend_from_slice(content)?;
    Ok(())
}

/// Runs of locals: how many, and their type (5.5.13 Code Section).
struct RunForm;

impl Form<(u32, ValType)> for RunForm {
    ghost use Rattle.gu_syntax.specs.Encoding.{encode_run};
    ghost use Rattle.gu_syntax.specs.Shape.{IsShapedRun};

    ghost text = { encode_run };

    ghost is_shaped = { IsShapedRun };

    fn put(alloc: Global, out: &mut Vec<u8>, run: &(u32, ValType)) -> Result<(), WriteErr> {
        put_u32(alloc, out, run.0)?;
        put_val(alloc, out, run.1)?;
        Ok(())
    }
}
