//! Which functions a module declares: their indices occur outside bodies and the start function
//! (core specification 3.0, 3.5 Modules, references).
#![tactic(auto, using(crate::proofs::Lists::marked_append))]

ghost use Rattle.std.specs.Prelude.{◌≡◌, length, map, true, slice_set, IfOk};
ghost use Rattle.gu_syntax.specs.Code.{code_of, ins_of};
ghost use Rattle.gu_model.specs.Index.{funcs};
ghost use Rattle.gu_model.specs.ValidContext.{constants, declared, marked, named_by_bodies, named_by_code, named_by_elems, named_by_export, named_by_exports, named_by_ins, named_by_items, named_outside};

use gu_syntax::{Body, Choice, Elem, Export, Instr, Items, Kind, Module};
use gu_types::List;
use std::alloc::{AllocError, Global};

/// Sets a flag, where there is one with this index.
fn mark(flags: &mut [bool], func: u32)
    ensures { flags.new ≡ slice_set flags.old func true }
{
    let place = func as usize;
    if place < flags.len() {
        flags[place] = true;
    }
}

#[cycle(marking)]
#[tactic(auto, using(gu_syntax::proofs::Shapes::shapes, crate::proofs::Lists::marked_append))]
/// Sets the flags of the functions that an instruction names.
fn mark_instr(flags: &mut [bool], instr: &Instr)
    ensures { flags.new ≡ marked (named_by_ins (ins_of instr.now)) flags.old }
{
    match instr {
        Instr::RefFunc(func) => mark(flags, *func),
        Instr::Call(func) => mark(flags, *func),
        Instr::ReturnCall(func) => mark(flags, *func),
        Instr::Block(boxed) => mark_code(flags, boxed.get().body.code.as_slice()),
        Instr::Loop(boxed) => mark_code(flags, boxed.get().body.code.as_slice()),
        Instr::TryTable(boxed) => mark_code(flags, boxed.get().body.code.as_slice()),
        Instr::If(boxed) => {
            let Choice { yes, no, .. } = boxed.get();
            mark_code(flags, yes.code.as_slice());
            mark_code(flags, no.code.as_slice());
        }
        _ => {}
    }
}

#[cycle(marking)]
/// Sets the flags of the functions that code names.
fn mark_code(flags: &mut [bool], code: &[Instr])
    ensures { flags.new ≡ marked (named_by_code (code_of code.now)) flags.old }
{
    for instr in code {
        mark_instr(flags, instr);
    }
}

fn mark_bodies(flags: &mut [bool], bodies: &[&Body])
    ensures { flags.new ≡ marked (named_by_bodies (map (λ b. b.now) bodies.now)) flags.old }
{
    for body in bodies {
        mark_code(flags, body.code.as_slice());
    }
}

fn mark_export(flags: &mut [bool], kind: Kind, index: u32)
    ensures { flags.new ≡ marked (named_by_export kind index) flags.old }
{
    match kind {
        Kind::Func => mark(flags, index),
        Kind::Table | Kind::Memory | Kind::Global | Kind::Tag => {}
    }
}

fn mark_exports(flags: &mut [bool], exports: &[Export])
    ensures { flags.new ≡ marked (named_by_exports exports.now) flags.old }
{
    for export in exports {
        mark_export(flags, export.kind, export.index);
    }
}

fn mark_all(flags: &mut [bool], funcs: &[u32])
    ensures { flags.new ≡ marked funcs.now flags.old }
{
    for func in funcs {
        mark(flags, *func);
    }
}

fn mark_items(flags: &mut [bool], items: &Items)
    ensures { flags.new ≡ marked (named_by_items items.now) flags.old }
{
    match items {
        Items::Funcs(funcs) => mark_all(flags, funcs.as_slice()),
        Items::Exprs(_, _) => {}
    }
}

fn mark_elems(flags: &mut [bool], elems: &[Elem])
    ensures { flags.new ≡ marked (named_by_elems elems.now) flags.old }
{
    for elem in elems {
        mark_items(flags, &elem.items);
    }
}

/// Sets the flags of the functions that a module with these constant expressions declares.
fn mark_outside(flags: &mut [bool], m: &Module, bodies: &[&Body])
    requires { map (λ b. b.now) bodies.now ≡ constants m.now }
    ensures { flags.new ≡ marked (named_outside m.now) flags.old }
{
    mark_bodies(flags, bodies);
    mark_exports(flags, m.exports.as_slice());
    mark_elems(flags, m.elems.as_slice());
}

/// Which functions a module declares, where it has `count` functions and these constant
/// expressions.
pub(crate) fn declared_of(
    alloc: Global,
    m: &Module,
    bodies: &[&Body],
    count: usize,
) -> Result<List<bool>, AllocError>
    requires bodies { map (λ b. b.now) bodies.now ≡ constants m.now }
    requires count { count ≡ length (funcs m.now) }
    ensures { IfOk result (λ flags. flags ≡ declared m.now) }
{
    let mut flags = vec![in alloc; false; count]?;
    mark_outside(&mut flags, m, bodies);
    Ok(List::from_vec(flags))
}
