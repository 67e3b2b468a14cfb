//! The constant expressions of a module (core specification 3.0, 3.4 Instructions, constant
//! expressions).
ghost use Rattle.std.specs.Prelude.{◌≡◌, ◌++◌, map, IfOk, OnOk};
ghost use Rattle.gu_model.specs.ValidContext as context;
ghost use Rattle.gu_model.specs.ValidContext.{of_table, of_tables, of_global, of_elem_mode, of_items, of_elems, of_seg_mode, of_segs};

use gu_syntax::{Body, Elem, ElemMode, Global as Variable, Items, Module, Seg, SegMode, Table};
use std::alloc::{AllocError, Global};

fn push_init<'m>(found: &mut Vec<&'m Body>, init: &'m Option<Body>) -> Result<(), AllocError>
    ensures { OnOk result (map (λ b. b.now) found.new.items ≡ map (λ b. b.now) found.old.items ++ of_table init.now) }
{
    if let Some(body) = init {
        found.push(body)?;
    }
    Ok(())
}

fn push_mode<'m>(found: &mut Vec<&'m Body>, mode: &'m ElemMode) -> Result<(), AllocError>
    ensures { OnOk result (map (λ b. b.now) found.new.items ≡ map (λ b. b.now) found.old.items ++ of_elem_mode mode.now) }
{
    if let ElemMode::Active(_, offset) = mode {
        found.push(offset)?;
    }
    Ok(())
}

fn push_bodies<'m>(found: &mut Vec<&'m Body>, bodies: &'m [Body]) -> Result<(), AllocError>
    ensures { OnOk result (map (λ b. b.now) found.new.items ≡ map (λ b. b.now) found.old.items ++ bodies.now) }
{
    for body in bodies {
        found.push(body)?;
    }
    Ok(())
}

fn push_items<'m>(found: &mut Vec<&'m Body>, items: &'m Items) -> Result<(), AllocError>
    ensures { OnOk result (map (λ b. b.now) found.new.items ≡ map (λ b. b.now) found.old.items ++ of_items items.now) }
{
    match items {
        Items::Funcs(_) => Ok(()),
        Items::Exprs(_, bodies) => push_bodies(found, bodies.as_slice()),
    }
}

fn push_offset<'m>(found: &mut Vec<&'m Body>, mode: &'m SegMode) -> Result<(), AllocError>
    ensures { OnOk result (map (λ b. b.now) found.new.items ≡ map (λ b. b.now) found.old.items ++ of_seg_mode mode.now) }
{
    if let SegMode::Active(_, offset) = mode {
        found.push(offset)?;
    }
    Ok(())
}

fn push_tables<'m>(found: &mut Vec<&'m Body>, tables: &'m [Table]) -> Result<(), AllocError>
    ensures { OnOk result (map (λ b. b.now) found.new.items ≡ map (λ b. b.now) found.old.items ++ of_tables tables.now) }
{
    for table in tables {
        push_init(found, &table.init)?;
    }
    Ok(())
}

fn push_globals<'m>(found: &mut Vec<&'m Body>, globals: &'m [Variable]) -> Result<(), AllocError>
    ensures { OnOk result (map (λ b. b.now) found.new.items ≡ map (λ b. b.now) found.old.items ++ map of_global globals.now) }
{
    for global in globals {
        found.push(&global.init)?;
    }
    Ok(())
}

fn push_elems<'m>(found: &mut Vec<&'m Body>, elems: &'m [Elem]) -> Result<(), AllocError>
    ensures { OnOk result (map (λ b. b.now) found.new.items ≡ map (λ b. b.now) found.old.items ++ of_elems elems.now) }
{
    for elem in elems {
        push_mode(found, &elem.mode)?;
        push_items(found, &elem.items)?;
    }
    Ok(())
}

fn push_segs<'m>(found: &mut Vec<&'m Body>, segs: &'m [Seg]) -> Result<(), AllocError>
    ensures { OnOk result (map (λ b. b.now) found.new.items ≡ map (λ b. b.now) found.old.items ++ of_segs segs.now) }
{
    for seg in segs {
        push_offset(found, &seg.mode)?;
    }
    Ok(())
}

/// The constant expressions of a module: initial values of tables and globals, and the offsets and
/// items of segments.
pub(crate) fn constants(alloc: Global, m: &Module) -> Result<Vec<&Body>, AllocError>
    ensures { IfOk result (λ found. map (λ b. b.now) found.items ≡ context.constants m.now) }
{
    let mut found = Vec::new(alloc);
    push_tables(&mut found, m.tables.as_slice())?;
    push_globals(&mut found, m.globals.as_slice())?;
    push_elems(&mut found, m.elems.as_slice())?;
    push_segs(&mut found, m.segs.as_slice())?;
    Ok(found)
}
