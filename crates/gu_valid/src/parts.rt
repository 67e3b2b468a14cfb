//! The parts of a module that rest on its types alone (core specification 3.0, 3.5 Modules).
ghost use Rattle.std.specs.Prelude.{◌≡◌, ◌||◌, length, not};
ghost use Rattle.gu_model.specs.ValidContext.{needs_count};
ghost use Rattle.gu_model.specs.Valid.{FuncHolds, ImportHolds, MemoryHolds, TagHolds, is_valid_desc, is_valid_start};
ghost use Rattle.gu_valid.specs.Check.{FindsFirstWithout};
ghost use Rattle.gu_valid.specs.Facts.{IsFacts, bodies_lack_count};

use crate::facts::Facts;
use crate::kinds::{is_start, limits_hold, memory_holds};
use gu_syntax::Desc;

impl Facts<'_> {
    /// Whether what is imported is of a valid type.
    fn desc_holds(&self, desc: &Desc) -> bool
        requires { IsFacts self.now }
        ensures { result ≡ is_valid_desc self.now.module.now desc.now }
    {
        match desc {
            Desc::Func(ty) => self.is_function(*ty),
            Desc::Table(elem, limits) => self.is_ref(*elem) && limits_hold(limits),
            Desc::Memory(limits) => memory_holds(limits),
            Desc::Global(ty, _) => self.is_val(*ty),
            Desc::Tag(ty) => self.is_tag(*ty),
        }
    }

    /// The number of the first import whose type is not valid.
    pub(crate) fn first_import(&self) -> Option<u32>
        requires { IsFacts self.now }
        ensures { FindsFirstWithout (length self.now.module.now.imports) (ImportHolds self.now.module.now) result }
    {
        for (number, import) in self.module.imports.as_slice().iter().enumerate() {
            let holds = self.desc_holds(&import.desc);
            if !holds {
                return Some(number as u32);
            }
        }
        None
    }

    /// The number of the first defined function whose type index names no function type.
    pub(crate) fn first_func(&self) -> Option<u32>
        requires { IsFacts self.now }
        ensures { FindsFirstWithout (length self.now.module.now.funcs) (FuncHolds self.now.module.now) result }
    {
        for (number, func) in self.module.funcs.as_slice().iter().enumerate() {
            let holds = self.is_function(func.ty);
            if !holds {
                return Some(number as u32);
            }
        }
        None
    }

    /// The number of the first defined memory whose sizes do not hold.
    pub(crate) fn first_memory(&self) -> Option<u32>
        requires { IsFacts self.now }
        ensures { FindsFirstWithout (length self.now.module.now.memories) (MemoryHolds self.now.module.now) result }
    {
        for (number, memory) in self.module.memories.as_slice().iter().enumerate() {
            let holds = memory_holds(memory);
            if !holds {
                return Some(number as u32);
            }
        }
        None
    }

    /// The number of the first defined tag whose type is no function type without results.
    pub(crate) fn first_tag(&self) -> Option<u32>
        requires { IsFacts self.now }
        ensures { FindsFirstWithout (length self.now.module.now.tags) (TagHolds self.now.module.now) result }
    {
        for (number, tag) in self.module.tags.as_slice().iter().enumerate() {
            let holds = self.is_tag(*tag);
            if !holds {
                return Some(number as u32);
            }
        }
        None
    }

    /// Whether the number of data segments is said before the code where the code needs it, by
    /// whether it is not said and a body needs it.
    pub(crate) fn count_holds(&self, bodies_lack: bool) -> bool
        requires facts { IsFacts self.now }
        requires bodies { bodies_lack ≡ bodies_lack_count self.now.module.now }
        ensures { result ≡ (not (needs_count self.now.module.now) || self.now.module.now.has_count) }
    {
        !bodies_lack && (self.module.has_count || !self.constants_need)
    }

    /// Whether the start function, if any, is there, and has no parameters and no results.
    pub(crate) fn start_holds(&self) -> bool
        requires { IsFacts self.now }
        ensures { result ≡ is_valid_start self.now.module.now self.now.module.now.start }
    {
        let Some(func) = self.module.start else {
            return true;
        };
        match self.env.funcs.as_slice().get(func as usize) {
            Some(ty) => is_start(&self.kinds, *ty),
            None => false,
        }
    }
}
