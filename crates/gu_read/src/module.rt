//! A module from its sections (core specification 3.0, 5.5.17 Modules).
ghost use Rattle.std.specs.Prelude.{◌≡◌, ◌≤◌, [], None, length, IfErr};
ghost use Rattle.gu_syntax.specs.Reading.{late_at, middle_at, sections_at, module_at};
ghost use Rattle.gu_read_parts.specs.Gives.{left_of, left_at};
ghost use Rattle.gu_read.specs.Standing.{StandsForModule, GivesBy, GivesAllBy};
ghost use Rattle.gu_read.specs.Parts.{IsLate, IsMiddle, module_of_parts};

use crate::elems::Elems;
use crate::items::{Exports, Globals, Imports, Memories, Tables, Tags};
use crate::parts::{Late, Middle};
use crate::sections::{pass_customs, pass_header, read_code, read_data, read_list, read_number};
use crate::weighed::WeighedModule;
use gu_read_parts::{Asked, Index, Stop};
use gu_read_types::Groups;
use gu_syntax::{Import, Module};
use gu_types::{List, RecGroup, TypeList};
use std::alloc::Global;
use std::thread::Threads;

/// The module that the bytes spell, or where reading stops.
pub fn read_whole(
    rt: &(impl Threads + Sync),
    alloc: Global,
    bytes: &[u8],
) -> Result<WeighedModule, Stop>
    ensures value { GivesAllBy StandsForModule result (module_at 1000 bytes.now) }
    ensures inside { IfErr result (λ stop. left_at stop ≤ length bytes.now) }
{
    let rest = pass_header(bytes)?;
    let rest = pass_customs(rest)?;
    read_sections(rt, alloc, rest)
}

/// The sections in order, up to the end of the bytes.
fn read_sections(
    rt: &(impl Threads + Sync),
    alloc: Global,
    bytes: &[u8],
) -> Result<WeighedModule, Stop>
    ensures value { GivesAllBy StandsForModule result (sections_at 1000 bytes.now) }
    ensures inside { IfErr result (λ stop. left_at stop ≤ length bytes.now) }
{
    let (groups, rest) = read_list::<Groups>(alloc, 1, bytes)?;
    let (imports, rest) = read_list::<Imports>(alloc, 2, rest)?;
    let (tys, rest) = read_list::<Index>(alloc, 3, rest)?;
    let (middle, rest) = read_middle(rt, alloc, tys.as_slice(), rest)?;
    if !rest.is_empty() {
        return Err(Stop::at(Asked::SectionId, rest));
    }
    if middle.late.is_missing(tys.as_slice()) {
        return Err(Stop::at(Asked::SectionId, rest));
    }
    Ok(assemble(groups, imports, middle))
}

/// The sections from the tables on.
fn read_middle<'a>(
    rt: &(impl Threads + Sync),
    alloc: Global,
    tys: &'a [u32],
    bytes: &'a [u8],
) -> Result<(Middle, &'a [u8]), Stop>
    ensures value { GivesBy IsMiddle result (middle_at 1000 tys.now bytes.now) }
    ensures inside { left_of result ≤ length bytes.now }
{
    let (tables, rest) = read_list::<Tables>(alloc, 4, bytes)?;
    let (memories, rest) = read_list::<Memories>(alloc, 5, rest)?;
    let (tags, rest) = read_list::<Tags>(alloc, 13, rest)?;
    let (globals, rest) = read_list::<Globals>(alloc, 6, rest)?;
    let (exports, rest) = read_list::<Exports>(alloc, 7, rest)?;
    let (start, rest) = read_number(8, rest)?;
    let (elems, rest) = read_list::<Elems>(alloc, 9, rest)?;
    let (late, rest) = read_late(rt, alloc, tys, rest)?;
    let middle = Middle {
        tables,
        memories,
        tags,
        globals,
        exports,
        start,
        elems,
        late,
    };
    Ok((middle, rest))
}

/// The sections from the number of data segments on.
fn read_late<'a>(
    rt: &(impl Threads + Sync),
    alloc: Global,
    tys: &'a [u32],
    bytes: &'a [u8],
) -> Result<(Late, &'a [u8]), Stop>
    ensures value { GivesBy IsLate result (late_at 1000 tys.now bytes.now) }
    ensures inside { left_of result ≤ length bytes.now }
{
    let (said, rest) = read_number(12, bytes)?;
    let (funcs, rest) = read_code(rt, alloc, tys, rest)?;
    let (segs, rest) = read_data(alloc, said, rest)?;
    Ok((Late { said, funcs, segs }, rest))
}

/// The module of these sections.
fn assemble(groups: List<RecGroup>, imports: List<Import>, middle: Middle) -> WeighedModule
    ensures { result ≡ module_of_parts groups imports middle }
{
    let Middle {
        tables,
        memories,
        tags,
        globals,
        exports,
        start,
        elems,
        late,
    } = middle;
    let Late { said, funcs, segs } = late;
    let (funcs, weight) = funcs.into_parts();
    let module = Module {
        types: TypeList { groups },
        imports,
        funcs,
        tables,
        memories,
        tags,
        globals,
        exports,
        start,
        elems,
        has_count: said.is_some(),
        segs,
    };
    WeighedModule::new(module, weight)
}
