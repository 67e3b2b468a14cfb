//! The links of each kind of system.
ghost use Rattle.std.specs.Prelude.{◌≡◌, ◌<◌, ◌≤◌, ◌%◌, ◌≢◌};

use crate::classes::has_below;
use crate::work::Kind;
use gu_contents::{Content, Core};
use gu_links::Link;
use gu_types::{HeapType, Storage, ValType};
use std::alloc::{AllocError, Global};

/// How many classes there are.
pub const CLASSES: u32 = 1_000;

/// How many cells a chain or a star has.
const LENGTH: u32 = 1_000;

/// How far apart the classes are whose fields are written and read one after another: a prime, so
/// that they are spread over all classes.
const STRIDE: u64 = 7919;

/// How the field of each class is stored.
const STORAGE: Storage = Storage::Val(ValType::I32);

/// Links between so many cells.
#[derive(Debug, Drop)]
pub struct Plan {
    /// The links.
    pub links: Vec<Link>,
    /// How many cells there are.
    pub cells: usize,
    /// How many classes the facts have.
    pub classes: u32,
}

/// The links of a system, so many or somewhat fewer. The roots come first, so that each number of
/// workers shares them evenly.
pub fn plan_of(alloc: Global, kind: Kind, count: u32) -> Result<Plan, AllocError> {
    match kind {
        Kind::Chains | Kind::Stars => Ok(Plan {
            links: copies(alloc, kind, count)?,
            cells: count as usize,
            classes: 0,
        }),
        Kind::Cone | Kind::Shallow => fields(alloc, kind, count / 4),
    }
}

/// Chains or stars with so many cells in all.
fn copies(alloc: Global, kind: Kind, count: u32) -> Result<Vec<Link>, AllocError> {
    let mut links = Vec::new(alloc);
    for first in 0..count.div_ceil(LENGTH) {
        links.push(Link::Root {
            give: Content::I32(first),
            to: first as usize * LENGTH as usize,
        })?;
    }
    for cell in 0..count {
        if let Some(from) = source(kind, cell) {
            links.push(Link::Copy {
                from: from as usize,
                to: cell as usize,
            })?;
        }
    }
    Ok(links)
}

/// From which cell another is filled. None for the first one of a chain or a star.
fn source(kind: Kind, cell: u32) -> Option<u32> {
    let place = cell % LENGTH;
    if place == 0 {
        None
    } else if kind == Kind::Chains {
        Some(cell - 1)
    } else {
        Some(cell - place)
    }
}

/// One place in a program where a field is written and read: its class, and its cells.
#[derive(Clone, Copy, Debug)]
struct Site {
    class: u32,
    object: usize,
    value: usize,
    result: usize,
}

/// The place with a number.
fn site_of(number: u32) -> Site {
    let object = CLASSES as usize + 3 * number as usize;
    Site {
        class: (u64::from(number) * STRIDE % u64::from(CLASSES)) as u32,
        object,
        value: object + 1,
        result: object + 2,
    }
}

/// What is known of the objects at a place with a number: nothing, or that they are of the place's
/// class, or at every other place of it or of a class directly below it, if there is one.
fn objects(kind: Kind, number: u32, class: u32) -> Content {
    if kind == Kind::Cone {
        return Content::Top;
    }
    let deep = number % 2 == 1 && has_below(class, CLASSES);
    Content::Ref(false, Core::Cone(HeapType::Idx(class), u32::from(deep)))
}

/// So many places where fields are written and read.
fn fields(alloc: Global, kind: Kind, sites: u32) -> Result<Plan, AllocError> {
    let mut links = Vec::new(alloc);
    for number in 0..sites {
        let site = site_of(number);
        links.push(Link::Root {
            give: objects(kind, number, site.class),
            to: site.object,
        })?;
    }
    for number in 0..sites {
        links.push(Link::Root {
            give: Content::I32(number),
            to: site_of(number).value,
        })?;
    }
    for number in 0..sites {
        put_site(&mut links, site_of(number))?;
    }
    Ok(Plan {
        links,
        cells: CLASSES as usize + 3 * sites as usize,
        classes: CLASSES,
    })
}

/// Puts the links of a place on a list.
fn put_site(links: &mut Vec<Link>, site: Site) -> Result<(), AllocError> {
    links.push(Link::SlotSet {
        object: site.object,
        ty: site.class,
        slot: 0,
        storage: STORAGE,
        from: site.value,
    })?;
    links.push(Link::SlotGet {
        object: site.object,
        ty: site.class,
        slot: 0,
        storage: STORAGE,
        signed: false,
        to: site.result,
    })?;
    Ok(())
}
