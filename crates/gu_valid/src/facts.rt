//! A module with what its parts are checked in (core specification 3.0, 3.1 Conventions,
//! contexts).
ghost use Rattle.std.specs.Prelude.{◌≡◌, ◌<◌, ◌^◌, ◌↔◌, length, map, IfOk, IsTrue};
ghost use Rattle.gu_syntax.specs.Code.{code_of};
ghost use Rattle.gu_model.specs.Index.{func_type};
ghost use Rattle.gu_model.specs.TypingContext.{is_valid_ref, is_valid_val};
ghost use Rattle.gu_model.specs.Valid.{count_of, is_constant_body, is_func_type, is_tag_type};
ghost use Rattle.gu_model.specs.ValidContext as whole;
ghost use Rattle.gu_model.specs.ValidContext.{context};
ghost use Rattle.gu_valid_code.specs.Env.{context_of};
ghost use Rattle.gu_valid.specs.Check.{IsCounted};
ghost use Rattle.gu_valid.specs.Facts.{IsFacts};

use crate::constants::constants;
use crate::declared::declared_of;
use crate::kinds::{is_function, is_heap, is_tag, kinds_of};
use crate::needs::any_needs;
use crate::spaces::{
    count_memories, elems_of, funcs_of, globals_of, imported_globals, tables_of, tags_of,
};
use gu_rec::Types;
use gu_syntax::{Body, Kind, Module};
use gu_types::{RefType, SubType, ValType};
use gu_valid_code::{Env, check_constant};
use std::alloc::{AllocError, Global};

/// A module with what its parts are checked in.
#[derive(Drop)]
pub(crate) struct Facts<'m> {
    pub(crate) module: &'m Module,
    /// Its types, in order.
    pub(crate) kinds: Vec<&'m SubType>,
    /// How many of its globals are imported.
    pub(crate) imported_globals: u32,
    /// Whether a constant expression needs the number of its data segments.
    pub(crate) constants_need: bool,
    pub(crate) env: Env<'m>,
}

/// What the code of a module with these constant expressions is checked in.
fn env_of<'m>(
    alloc: Global,
    m: &'m Module,
    types: &'m Types<'m>,
    bodies: &[&Body],
) -> Result<Env<'m>, AllocError>
    requires small { IsCounted m.now }
    requires bodies { map (λ b. b.now) bodies.now ≡ whole.constants m.now }
    requires types { types.now ≡ m.now.types }
    ensures { IfOk result (λ env. context_of env ≡ context m.now) }
{
    let funcs = funcs_of(alloc, m)?;
    let declared = declared_of(alloc, m, bodies, funcs.as_slice().len())?;
    Ok(Env {
        types,
        funcs,
        tables: tables_of(alloc, m)?,
        memories: count_memories(m),
        tags: tags_of(alloc, m)?,
        globals: globals_of(alloc, m)?,
        elems: elems_of(alloc, m.elems.as_slice())?,
        segs: m.segs.as_slice().len() as u32,
        declared,
    })
}

impl<'m> Facts<'m> {
    /// What is known of a module with these types. `AllocError` only where memory is refused.
    pub(crate) fn new(
        alloc: Global,
        m: &'m Module,
        types: &'m Types<'m>,
    ) -> Result<Facts<'m>, AllocError>
        requires small { IsCounted m.now }
        requires types { types.now ≡ m.now.types }
        ensures same { IfOk result (λ facts. facts.module.now ≡ m.now) }
        ensures facts { IfOk result IsFacts }
    {
        let bodies = constants(alloc, m)?;
        let env = env_of(alloc, m, types, &bodies)?;
        Ok(Facts {
            module: m,
            kinds: kinds_of(alloc, m.types.groups.as_slice())?,
            imported_globals: imported_globals(m),
            constants_need: any_needs(&bodies),
            env,
        })
    }

    /// Whether the type with an index is a function type.
    pub(crate) fn is_function(&self, index: u32) -> bool
        requires { IsFacts self.now }
        ensures { result ≡ is_func_type (func_type self.now.module.now.types index) }
    {
        is_function(&self.kinds, index)
    }

    /// Whether the type with an index is a function type without results.
    pub(crate) fn is_tag(&self, index: u32) -> bool
        requires { IsFacts self.now }
        ensures { result ≡ is_tag_type (func_type self.now.module.now.types index) }
    {
        is_tag(&self.kinds, index)
    }

    /// Whether a reference type is valid.
    pub(crate) fn is_ref(&self, ty: RefType) -> bool
        requires { IsFacts self.now }
        ensures { result ≡ is_valid_ref self.now.module.now.types ty }
    {
        is_heap(&self.kinds, ty.heap)
    }

    /// Whether a value type is valid.
    pub(crate) fn is_val(&self, ty: ValType) -> bool
        requires { IsFacts self.now }
        ensures { result ≡ is_valid_val self.now.module.now.types ty }
    {
        match ty {
            ValType::I32 | ValType::I64 => true,
            ValType::Ref(found) => self.is_ref(found),
        }
    }

    /// How many functions there are.
    pub(crate) fn count_funcs(&self) -> usize
        requires { IsFacts self.now }
        ensures { result ≡ length (context self.now.module.now).funcs }
    {
        self.env.funcs.as_slice().len()
    }

    /// How many globals there are.
    pub(crate) fn count_globals(&self) -> u32
        requires { IsFacts self.now }
        ensures { result ≡ length (context self.now.module.now).globals }
    {
        self.imported_globals + self.module.globals.as_slice().len() as u32
    }

    /// Whether there is a thing of a kind with an index.
    pub(crate) fn is_there(&self, kind: Kind, index: u32) -> bool
        requires { IsFacts self.now }
        ensures { IsTrue result ↔ (index < count_of self.now.module.now kind) }
    {
        let place = index as usize;
        match kind {
            Kind::Func => place < self.env.funcs.as_slice().len(),
            Kind::Table => place < self.env.tables.as_slice().len(),
            Kind::Memory => index < self.env.memories,
            Kind::Global => place < self.env.globals.as_slice().len(),
            Kind::Tag => place < self.env.tags.as_slice().len(),
        }
    }

    /// Whether an expression is constant and gives a value of a type, where it may name so many
    /// globals. `AllocError` only where memory is refused.
    pub(crate) fn is_constant(
        &self,
        alloc: Global,
        globals: u32,
        ty: ValType,
        body: &Body,
    ) -> Result<bool, AllocError>
        requires { IsFacts self.now }
        ensures { IfOk result (λ holds. holds ≡ is_constant_body self.now.module.now globals ty body.now) }
    {
        check_constant(alloc, &self.env, globals, ty, body)
    }
}
