//! Tables and globals (core specification 3.0, 3.5 Modules, tables and globals).
ghost use Rattle.std.specs.Prelude.{◌≡◌, ◌&&◌, ◌+◌, ◌<◌, ◌^◌, length, IfOk};
ghost use Rattle.gu_model.specs.TypingContext.{is_valid_ref, is_valid_val};
ghost use Rattle.gu_model.specs.Valid as valid;
ghost use Rattle.gu_model.specs.Valid.{GlobalHolds, TableHolds, is_constant_body, is_valid_init, is_valid_limits};
ghost use Rattle.gu_valid.specs.Check.{FindsFirstWithout};
ghost use Rattle.gu_valid.specs.Facts.{IsFacts};

use crate::facts::Facts;
use crate::kinds::limits_hold;
use gu_syntax::{Body, Global as Variable, Table};
use gu_types::{RefType, ValType};
use std::alloc::{AllocError, Global};

impl Facts<'_> {
    /// Whether an initial value of a table has the type of the entries, or null is among them where
    /// there is none.
    fn init_holds(
        &self,
        alloc: Global,
        elem: RefType,
        init: &Option<Body>,
    ) -> Result<bool, AllocError>
        requires { IsFacts self.now }
        ensures { IfOk result (λ holds. holds ≡ is_valid_init self.now.module.now elem init.now) }
    {
        match init {
            Some(body) => self.is_constant(alloc, self.imported_globals, ValType::Ref(elem), body),
            None => Ok(elem.null),
        }
    }

    /// Whether a table's type is valid, and its initial value has the type of the entries.
    fn table_holds(&self, alloc: Global, table: &Table) -> Result<bool, AllocError>
        requires { IsFacts self.now }
        ensures { IfOk result (λ holds. holds ≡ (is_valid_ref self.now.module.now.types table.now.elem && (is_valid_limits table.now.limits && is_valid_init self.now.module.now table.now.elem table.now.init))) }
    {
        if !self.is_ref(table.elem) || !limits_hold(&table.limits) {
            return Ok(false);
        }
        self.init_holds(alloc, table.elem, &table.init)
    }

    /// The number of the first defined table that does not hold. `AllocError` only where memory is
    /// refused.
    pub(crate) fn first_table(&self, alloc: Global) -> Result<Option<u32>, AllocError>
        requires { IsFacts self.now }
        ensures { IfOk result (λ found. FindsFirstWithout (length self.now.module.now.tables) (TableHolds self.now.module.now) found) }
    {
        for (number, table) in self.module.tables.as_slice().iter().enumerate() {
            let holds = self.table_holds(alloc, table)?;
            if !holds {
                return Ok(Some(number as u32));
            }
        }
        Ok(None)
    }

    /// Whether a global's type is valid, and its initial value has it, where it may name so many
    /// globals.
    fn global_holds(
        &self,
        alloc: Global,
        before: u32,
        global: &Variable,
    ) -> Result<bool, AllocError>
        requires { IsFacts self.now }
        ensures { IfOk result (λ holds. holds ≡ (is_valid_val self.now.module.now.types global.now.ty && is_constant_body self.now.module.now before global.now.ty global.now.init)) }
    {
        if !self.is_val(global.ty) {
            return Ok(false);
        }
        self.is_constant(alloc, before, global.ty, &global.init)
    }

    /// The number of the first defined global that does not hold. `AllocError` only where memory is
    /// refused.
    pub(crate) fn first_global(&self, alloc: Global) -> Result<Option<u32>, AllocError>
        requires { IsFacts self.now }
        ensures { IfOk result (λ found. FindsFirstWithout (length self.now.module.now.globals) (GlobalHolds self.now.module.now) found) }
    {
        for (number, global) in self.module.globals.as_slice().iter().enumerate() {
            let before = self.imported_globals + number as u32;
            let holds = self.global_holds(alloc, before, global)?;
            if !holds {
                return Ok(Some(number as u32));
            }
        }
        Ok(None)
    }
}
