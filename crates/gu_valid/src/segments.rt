//! Element segments and data segments (core specification 3.0, 3.5 Modules).
ghost use Rattle.std.specs.Prelude.{◌≡◌, ◌&&◌, length, slice_get, IfOk};
ghost use Rattle.std.specs.List.{list_all};
ghost use Rattle.gu_types.specs.declared.types.ValType.TheVariants.{Ref};
ghost use Rattle.gu_model.specs.Valid as valid;
ghost use Rattle.gu_model.specs.Valid.{DataHolds, ElementHolds, is_constant_body, is_offset, is_valid_items, is_valid_mode, is_valid_seg};
ghost use Rattle.gu_model.specs.ValidContext.{context, elem_type};
ghost use Rattle.gu_valid.specs.Check.{FindsFirstWithout};
ghost use Rattle.gu_valid.specs.Facts.{IsFacts};

use crate::facts::Facts;
use crate::spaces::type_of_items;
use gu_syntax::{Body, Elem, ElemMode, Items, SegMode};
use gu_types::{RefType, ValType};
use std::alloc::{AllocError, Global};

impl Facts<'_> {
    /// Whether there are functions with these indices.
    fn are_functions(&self, funcs: &[u32]) -> bool
        requires { IsFacts self.now }
        ensures { result ≡ list_all (valid.is_function self.now.module.now) funcs.now }
    {
        let count = self.count_funcs();
        for func in funcs {
            if (*func as usize) >= count {
                return false;
            }
        }
        true
    }

    /// Whether expressions are constant and give values of a type, where they may name every
    /// immutable global.
    fn are_constant(&self, alloc: Global, ty: ValType, bodies: &[Body]) -> Result<bool, AllocError>
        requires { IsFacts self.now }
        ensures { IfOk result (λ holds. holds ≡ list_all (is_constant_body self.now.module.now (length (context self.now.module.now).globals) ty) bodies.now) }
    {
        let globals = self.count_globals();
        for body in bodies {
            if !self.is_constant(alloc, globals, ty, body)? {
                return Ok(false);
            }
        }
        Ok(true)
    }

    /// Whether an offset is constant, and an i32.
    fn offset_holds(&self, alloc: Global, offset: &Body) -> Result<bool, AllocError>
        requires { IsFacts self.now }
        ensures { IfOk result (λ holds. holds ≡ is_offset self.now.module.now offset.now) }
    {
        self.is_constant(alloc, self.count_globals(), ValType::I32, offset)
    }

    /// Whether the items of a segment are functions that are there, or have its type.
    fn items_hold(&self, alloc: Global, items: &Items) -> Result<bool, AllocError>
        requires { IsFacts self.now }
        ensures { IfOk result (λ holds. holds ≡ is_valid_items self.now.module.now items.now) }
    {
        match items {
            Items::Funcs(funcs) => Ok(self.are_functions(funcs.as_slice())),
            Items::Exprs(ty, bodies) => {
                if !self.is_ref(*ty) {
                    return Ok(false);
                }
                self.are_constant(alloc, ValType::Ref(*ty), bodies.as_slice())
            }
        }
    }

    /// Whether there is a table with an index that holds references of a type.
    fn fits_table(&self, from: RefType, table: u32) -> bool
        requires { IsFacts self.now }
        ensures { result ≡ valid.fits_table self.now.module.now from (slice_get (context self.now.module.now).tables table) }
    {
        match self.env.tables.as_slice().get(table as usize) {
            Some(to) => self.env.is_sub_ref(from, *to),
            None => false,
        }
    }

    /// Whether a segment of a type may be copied where its mode says.
    fn mode_holds(&self, alloc: Global, from: RefType, mode: &ElemMode) -> Result<bool, AllocError>
        requires { IsFacts self.now }
        ensures { IfOk result (λ holds. holds ≡ is_valid_mode self.now.module.now from mode.now) }
    {
        match mode {
            ElemMode::Active(table, offset) => {
                if !self.fits_table(from, *table) {
                    return Ok(false);
                }
                self.offset_holds(alloc, offset)
            }
            ElemMode::Passive | ElemMode::Declared => Ok(true),
        }
    }

    /// Whether an element segment holds.
    fn elem_holds(&self, alloc: Global, elem: &Elem) -> Result<bool, AllocError>
        requires { IsFacts self.now }
        ensures { IfOk result (λ holds. holds ≡ (is_valid_items self.now.module.now elem.now.items && is_valid_mode self.now.module.now (elem_type elem.now) elem.now.mode)) }
    {
        if !self.items_hold(alloc, &elem.items)? {
            return Ok(false);
        }
        self.mode_holds(alloc, type_of_items(&elem.items), &elem.mode)
    }

    /// The number of the first element segment that does not hold. `AllocError` only where memory
    /// is refused.
    pub(crate) fn first_element(&self, alloc: Global) -> Result<Option<u32>, AllocError>
        requires { IsFacts self.now }
        ensures { IfOk result (λ found. FindsFirstWithout (length self.now.module.now.elems) (ElementHolds self.now.module.now) found) }
    {
        for (number, elem) in self.module.elems.as_slice().iter().enumerate() {
            let holds = self.elem_holds(alloc, elem)?;
            if !holds {
                return Ok(Some(number as u32));
            }
        }
        Ok(None)
    }

    /// Whether a data segment may be copied where its mode says.
    fn seg_holds(&self, alloc: Global, mode: &SegMode) -> Result<bool, AllocError>
        requires { IsFacts self.now }
        ensures { IfOk result (λ holds. holds ≡ is_valid_seg self.now.module.now mode.now) }
    {
        match mode {
            SegMode::Active(memory, offset) => {
                if *memory >= self.env.memories {
                    return Ok(false);
                }
                self.offset_holds(alloc, offset)
            }
            SegMode::Passive => Ok(true),
        }
    }

    /// The number of the first data segment that does not hold. `AllocError` only where memory is
    /// refused.
    pub(crate) fn first_seg(&self, alloc: Global) -> Result<Option<u32>, AllocError>
        requires { IsFacts self.now }
        ensures { IfOk result (λ found. FindsFirstWithout (length self.now.module.now.segs) (DataHolds self.now.module.now) found) }
    {
        for (number, seg) in self.module.segs.as_slice().iter().enumerate() {
            let holds = self.seg_holds(alloc, &seg.mode)?;
            if !holds {
                return Ok(Some(number as u32));
            }
        }
        Ok(None)
    }
}
