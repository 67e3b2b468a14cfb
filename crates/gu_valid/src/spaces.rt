//! What the indices of a module name: of each kind the imported things come first, in order, and
//! then the defined ones (core specification 3.0, 2.5 Modules, indices).
ghost use Rattle.std.specs.Prelude.{◌≡◌, ◌+◌, ◌++◌, ◌<◌, ◌^◌, length, map, count_by, IfOk, OnOk};
ghost use Rattle.gu_model.specs.Index.{as_func, as_table, as_tag, as_global, is_memory, is_global, funcs, tables, tags, globals};
ghost use Rattle.gu_model.specs.ValidContext.{entries_type, elem_type, items_type};

use gu_syntax::{Desc, Elem, Items, Module};
use gu_types::{Abs, HeapType, List, RefType, ValType};
use std::alloc::{AllocError, Global};

fn push_func(found: &mut Vec<u32>, desc: &Desc) -> Result<(), AllocError>
    ensures { OnOk result (found.new.items ≡ found.old.items ++ as_func desc.now) }
{
    if let Desc::Func(ty) = desc {
        found.push(*ty)?;
    }
    Ok(())
}

fn push_table(found: &mut Vec<RefType>, desc: &Desc) -> Result<(), AllocError>
    ensures { OnOk result (found.new.items ≡ found.old.items ++ map entries_type (as_table desc.now)) }
{
    if let Desc::Table(elem, _) = desc {
        found.push(*elem)?;
    }
    Ok(())
}

fn push_tag(found: &mut Vec<u32>, desc: &Desc) -> Result<(), AllocError>
    ensures { OnOk result (found.new.items ≡ found.old.items ++ as_tag desc.now) }
{
    if let Desc::Tag(ty) = desc {
        found.push(*ty)?;
    }
    Ok(())
}

fn push_global(found: &mut Vec<(ValType, bool)>, desc: &Desc) -> Result<(), AllocError>
    ensures { OnOk result (found.new.items ≡ found.old.items ++ as_global desc.now) }
{
    if let Desc::Global(ty, mutable) = desc {
        found.push((*ty, *mutable))?;
    }
    Ok(())
}

/// The functions, by the indices of their types.
pub(crate) fn funcs_of(alloc: Global, m: &Module) -> Result<List<u32>, AllocError>
    ensures { IfOk result (λ found. found ≡ funcs m.now) }
{
    let mut found = Vec::new(alloc);
    for import in m.imports.as_slice() {
        push_func(&mut found, &import.desc)?;
    }
    for func in m.funcs.as_slice() {
        found.push(func.ty)?;
    }
    Ok(List::from_vec(found))
}

/// The tables, by the types of their entries.
pub(crate) fn tables_of(alloc: Global, m: &Module) -> Result<List<RefType>, AllocError>
    ensures { IfOk result (λ found. found ≡ map entries_type (tables m.now)) }
{
    let mut found = Vec::new(alloc);
    for import in m.imports.as_slice() {
        push_table(&mut found, &import.desc)?;
    }
    for table in m.tables.as_slice() {
        found.push(table.elem)?;
    }
    Ok(List::from_vec(found))
}

/// The tags, by the indices of their types.
pub(crate) fn tags_of(alloc: Global, m: &Module) -> Result<List<u32>, AllocError>
    ensures { IfOk result (λ found. found ≡ tags m.now) }
{
    let mut found = Vec::new(alloc);
    for import in m.imports.as_slice() {
        push_tag(&mut found, &import.desc)?;
    }
    for ty in m.tags.as_slice() {
        found.push(*ty)?;
    }
    Ok(List::from_vec(found))
}

/// The globals, by their types and whether they may be written.
pub(crate) fn globals_of(alloc: Global, m: &Module) -> Result<List<(ValType, bool)>, AllocError>
    ensures { IfOk result (λ found. found ≡ globals m.now) }
{
    let mut found = Vec::new(alloc);
    for import in m.imports.as_slice() {
        push_global(&mut found, &import.desc)?;
    }
    for global in m.globals.as_slice() {
        found.push((global.ty, global.mutable))?;
    }
    Ok(List::from_vec(found))
}

/// How many globals are imported.
pub(crate) fn imported_globals(m: &Module) -> u32
    requires { length m.now.imports < 2 ^ 31 }
    ensures { result ≡ count_by (λ i. is_global i.desc) m.now.imports }
{
    let imports = m.imports.as_slice();
    imports
        .iter()
        .filter(|import| matches!(import.desc, Desc::Global(..)))
        .count() as u32
}

/// How many memories there are.
pub(crate) fn count_memories(m: &Module) -> u32
    requires imports { length m.now.imports < 2 ^ 31 }
    requires memories { length m.now.memories < 2 ^ 31 }
    ensures { result ≡ count_by (λ i. is_memory i.desc) m.now.imports + length m.now.memories }
{
    let imports = m.imports.as_slice();
    let imported = imports
        .iter()
        .filter(|import| matches!(import.desc, Desc::Memory(_)))
        .count();
    (imported + m.memories.as_slice().len()) as u32
}

/// The type of a segment's items.
pub(crate) fn type_of_items(items: &Items) -> RefType
    ensures { result ≡ items_type items.now }
{
    match items {
        Items::Funcs(_) => RefType {
            null: false,
            heap: HeapType::Abs(Abs::AnyFunc),
        },
        Items::Exprs(ty, _) => *ty,
    }
}

/// The element segments, by the types of their items.
pub(crate) fn elems_of(alloc: Global, elems: &[Elem]) -> Result<List<RefType>, AllocError>
    ensures { IfOk result (λ found. found ≡ map elem_type elems.now) }
{
    let mut found = Vec::new(alloc);
    for elem in elems {
        found.push(type_of_items(&elem.items))?;
    }
    Ok(List::from_vec(found))
}
