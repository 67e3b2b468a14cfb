//! Worked examples: a module that is valid, and one of which a part fails.
ghost use Rattle.std.specs.Prelude.{◌≡◌, [], IfOk};
ghost use Rattle.gu_syntax.specs.Shape.{IsShaped};

use crate::{ValidErr, check_module, validate};
use gu_model::Part;
use gu_syntax::{Limits, Module};
use gu_types::{List, TypeList};
use std::alloc::{AllocError, Global};
use std::test::Fail;

/// A module of one memory.
fn with_memory(alloc: Global, limits: Limits) -> Result<Module, AllocError>
    ensures types { IfOk result (λ m. m.types.groups ≡ []) }
    ensures shaped { IfOk result IsShaped }
{
    Ok(Module {
        types: TypeList {
            groups: List::new(alloc),
        },
        imports: List::new(alloc),
        funcs: List::new(alloc),
        tables: List::new(alloc),
        memories: List::from_vec(vec![in alloc; limits]?),
        tags: List::new(alloc),
        globals: List::new(alloc),
        exports: List::new(alloc),
        start: None,
        elems: List::new(alloc),
        has_count: false,
        segs: List::new(alloc),
    })
}

/// What the check answers of a module of one memory with so many pages at least.
fn answer(alloc: Global, pages: u32) -> Result<Option<ValidErr>, AllocError> {
    let limits = Limits {
        least: pages,
        most: None,
    };
    let m = with_memory(alloc, limits)?;
    Ok(check_module(alloc, &m).err())
}

#[test]
fn a_memory_has_at_most_65_536_pages(rt: HostRuntime) -> Result<(), Fail> {
    let alloc = rt.alloc();
    let too_large = ValidErr::Invalid {
        part: Part::Memory(0),
    };
    assert_eq!(rt; answer(alloc, 65_536)?, None);
    assert_eq!(rt; answer(alloc, 65_537)?, Some(too_large));
    Ok(())
}

#[test]
fn a_valid_module_comes_back(rt: HostRuntime) -> Result<(), Fail> {
    let alloc = rt.alloc();
    let limits = Limits {
        least: 1,
        most: Some(2),
    };
    let m = with_memory(alloc, limits)?;
    let valid = match validate(alloc, m) {
        Ok(valid) => valid,
        Err(_) => return Err("refused".into()),
    };
    assert_eq!(rt; valid.get().memories.as_slice(), [limits].as_slice());
    Ok(())
}
