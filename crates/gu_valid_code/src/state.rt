//! The operands of a body that is being checked, and which of its locals are set (core specification
//! 3.0, appendix, Validation Algorithm).
ghost use Rattle.std.specs.Prelude.{◌≡◌, [], ◌∷◌, ◌++◌, ◌<◌, false, true, map, reverse, replicate, length, Some, OnOk, IfOk, option_map, is_some, slice_get, slice_set};
ghost use Rattle.gu_model.specs.TypingShape as typing;
ghost use Rattle.gu_model.specs.Typing as body;
ghost use Rattle.gu_model.specs.TypingContext as around;
ghost use Rattle.gu_valid_code.specs.Body.{unset, before, outer_types, closed};
ghost use Rattle.gu_types.specs.declared.types.ValType.TheVariants.{I32};
ghost use Rattle.gu_valid_code.specs.Rows.{few_of, below_of, row_of};
ghost use Rattle.gu_valid_code.specs.State.{Did, Took, is_endless, is_nothing, kind_of};

use crate::env::Env;
use crate::locals::{set_defaults, set_params};
use gu_types::{RefType, ValType};
use std::alloc::{AllocError, Global};
use std::marker::Model;
use std::mem::replace;

/// The type of an operand.
#[derive(Clone, Copy, Debug)]
pub(crate) enum Operand {
    /// A value of a type.
    Val(ValType),
    /// A reference that is not null, of a type below every reference type.
    Nothing,
    /// A value of a type below every type.
    Bot,
}

/// The operands, the top last, whether anything may stand below them, and which locals are set.
/// Lists that blocks are done with are spare: blocks to come put their operands there.
#[derive(Debug, Drop)]
pub(crate) struct State {
    operands: Vec<Operand>,
    any: bool,
    set: Vec<bool>,
    spare: Vec<Vec<Operand>>,
}

/// The operands round a block that is open, and whether anything may stand below them.
#[derive(Debug, Drop)]
pub(crate) struct Outer {
    operands: Vec<Operand>,
    any: bool,
}

impl Model for State {
    ghost use Rattle.std.specs.Prelude.{map, reverse};
    ghost use Rattle.gu_model.specs.TypingShape.{Shape};
    ghost use Rattle.gu_valid_code.specs.State.{kind_of};

    ghost Value = { Shape };

    ghost view = { λ state. record { types = map kind_of (reverse state.operands.items); any = state.any; set = state.set.items } };
}

/// Whether an operand may stand where a type is asked.
#[inline(always)]
pub(crate) fn suits(env: &Env<'_>, found: Operand, want: ValType) -> bool
    ensures { result ≡ typing.suits env.now.types.now (kind_of found) want }
{
    match found {
        Operand::Val(found) => env.is_sub_val(found, want),
        Operand::Nothing => match want {
            ValType::Ref(_) => true,
            ValType::I32 | ValType::I64 => false,
        },
        Operand::Bot => true,
    }
}

/// An operand as a reference that is not null, or `None` where it is a number.
pub(crate) fn non_null(found: Operand) -> Option<Operand>
    ensures { option_map kind_of result ≡ typing.non_null (kind_of found) }
{
    match found {
        Operand::Val(ValType::Ref(found)) => Some(Operand::Val(ValType::Ref(RefType {
            null: false,
            heap: found.heap,
        }))),
        Operand::Val(_) => None,
        Operand::Nothing | Operand::Bot => Some(Operand::Nothing),
    }
}

/// Whether null is among the values of an operand that is a reference.
pub(crate) fn nulls(found: Operand) -> bool
    ensures { result ≡ typing.nulls (kind_of found) }
{
    match found {
        Operand::Val(ValType::Ref(found)) => found.null,
        Operand::Val(_) | Operand::Nothing | Operand::Bot => false,
    }
}

impl State {
    /// No operands and no locals.
    pub(crate) fn new(alloc: Global) -> State
        ensures { result ≡ record { types = []; any = false; set = [] } }
    {
        State {
            operands: Vec::new(alloc),
            any: false,
            set: Vec::new(alloc),
            spare: Vec::new(alloc),
        }
    }

    /// Begins anew, where a body begins: without operands. Parameters are set, and so are declared
    /// locals whose types have a default. `AllocError` only where memory is refused.
    pub(crate) fn begin(
        &mut self,
        params: &[ValType],
        runs: &[(u32, ValType)],
    ) -> Result<(), AllocError>
        ensures { OnOk result (self.new ≡ record { types = []; any = false; set = map (λ p. true) params.now ++ map around.has_default (body.spread runs.now) }) }
    {
        self.operands.clear();
        self.any = false;
        self.set.clear();
        set_params(&mut self.set, params)?;
        set_defaults(&mut self.set, runs)
    }

    /// Takes an operand of any type, or `None` where there is none.
    #[inline(always)]
    pub(crate) fn take(&mut self) -> Option<Operand>
        ensures { Took (option_map kind_of result) self.old self.new }
    {
        match self.operands.pop() {
            Some(found) => Some(found),
            None if self.any => Some(Operand::Bot),
            None => None,
        }
    }

    /// Takes an operand of a type. Whether there is one.
    #[inline(always)]
    pub(crate) fn pop(&mut self, env: &Env<'_>, want: ValType) -> bool
        ensures typed { Did result (typing.pop_on env.now.types.now want self.old.types self.old) self.new }
        ensures set { self.new.set ≡ self.old.set }
    {
        match self.operands.pop() {
            Some(found) => suits(env, found, want),
            None => self.any,
        }
    }

    /// Takes an i32, and below it operands of types in order. Whether there are such.
    #[tactic(auto, using(crate::proofs::Pops::pops_append))]
    pub(crate) fn pop_choice(&mut self, env: &Env<'_>, wants: &[ValType]) -> bool
        ensures { Did result (typing.pops env.now.types.now (wants.now ++ I32 ∷ []) self.old) self.new }
    {
        self.pop_one(env, ValType::I32) && self.pop_all(env, wants)
    }

    /// Takes an operand of a type. Whether there is one.
    #[inline(always)]
    pub(crate) fn pop_one(&mut self, env: &Env<'_>, want: ValType) -> bool
        ensures typed { Did result (typing.pops env.now.types.now (want ∷ []) self.old) self.new }
        ensures set { self.new.set ≡ self.old.set }
    {
        self.pop(env, want)
    }

    /// Takes operands of types in order, the last of which is on top. Whether there are such.
    #[inline(always)]
    pub(crate) fn pop_all(&mut self, env: &Env<'_>, wants: &[ValType]) -> bool
        ensures { Did result (typing.pops env.now.types.now wants.now self.old) self.new }
    {
        wants.is_empty() || self.pop_each(env, wants)
    }

    /// The same, one operand after the other.
    #[inline(never)]
    fn pop_each(&mut self, env: &Env<'_>, wants: &[ValType]) -> bool
        ensures { Did result (typing.pops env.now.types.now wants.now self.old) self.new }
    {
        let mut left = wants;
        'wants: while let Some((last, before)) = left.split_last() {
            if !self.pop(env, *last) {
                return false;
            }
            left = before;
        }
        true
    }

    /// Whether there are no operands, and anything may stand below them: then operands of any types
    /// can be taken, and nothing changes.
    pub(crate) fn gives_all(&self) -> bool
        ensures { result ≡ is_endless self.now }
    {
        self.operands.is_empty() && self.any
    }

    /// Whether operands of types in order, the last of which is on top, could be taken.
    pub(crate) fn could_pop(&self, env: &Env<'_>, wants: &[ValType]) -> bool
        ensures { result ≡ is_some (typing.pops env.now.types.now wants.now self.now) }
    {
        let mut left = wants;
        let mut operands = self.operands.as_slice();
        'wants: while let Some((want, before)) = left.split_last() {
            let Some((found, below)) = operands.split_last() else {
                return self.any;
            };
            if !suits(env, *found, *want) {
                return false;
            }
            left = before;
            operands = below;
        }
        true
    }

    /// Whether a local is set, or `None` where there is no such local.
    #[inline(always)]
    pub(crate) fn local_is_set(&self, local: u32) -> Option<bool>
        ensures { result ≡ slice_get self.now.set local }
    {
        self.set.get(local as usize).copied()
    }

    /// Puts an operand. `AllocError` only where memory is refused.
    #[inline(always)]
    pub(crate) fn push(&mut self, found: Operand) -> Result<(), AllocError>
        ensures { OnOk result (typing.push (kind_of found) self.old ≡ Some self.new) }
    {
        self.operands.push(found)?;
        Ok(())
    }

    /// Puts an operand of a type. `AllocError` only where memory is refused.
    #[inline(always)]
    pub(crate) fn push_val(&mut self, found: ValType) -> Result<(), AllocError>
        ensures pushed { OnOk result (typing.pushes (found ∷ []) self.old ≡ Some self.new) }
        ensures set { OnOk result (self.new.set ≡ self.old.set) }
    {
        self.operands.push(Operand::Val(found))?;
        Ok(())
    }

    /// Puts operands of types in order. `AllocError` only where memory is refused.
    #[inline(always)]
    pub(crate) fn push_all(&mut self, found: &[ValType]) -> Result<(), AllocError>
        ensures { OnOk result (typing.pushes found.now self.old ≡ Some self.new) }
    {
        for ty in found {
            self.push_val(*ty)?;
        }
        Ok(())
    }

    /// What stands behind an unconditional branch: no operands, with anything below them.
    pub(crate) fn stop(&mut self)
        ensures { typing.stops self.old ≡ Some self.new }
    {
        self.operands.clear();
        self.any = true;
    }

    /// Whether there are no operands, whatever may stand below them.
    #[inline(always)]
    pub(crate) fn has_none(&self) -> bool
        ensures { result ≡ is_nothing self.now.types }
    {
        self.operands.is_empty()
    }

    /// Takes all operands, and what may stand below them. Where there are none, their list stays.
    #[inline(always)]
    pub(crate) fn take_all(&mut self, alloc: Global) -> Outer
        ensures types { outer_types result ≡ self.old.types }
        ensures any { result.any ≡ self.old.any }
        ensures left { self.new ≡ record self.old { types = []; any = false } }
    {
        if self.operands.is_empty() {
            return Outer {
                operands: Vec::new(alloc),
                any: replace(&mut self.any, false),
            };
        }
        self.hand_out(alloc)
    }

    /// Hands the list of operands out, for a list that a block is done with.
    #[inline(never)]
    fn hand_out(&mut self, alloc: Global) -> Outer
        ensures types { outer_types result ≡ self.old.types }
        ensures any { result.any ≡ self.old.any }
        ensures left { self.new ≡ record self.old { types = []; any = false } }
    {
        let mut fresh = self.spare.pop().unwrap_or(Vec::new(alloc));
        fresh.clear();
        Outer {
            operands: replace(&mut self.operands, fresh),
            any: replace(&mut self.any, false),
        }
    }

    /// Puts a list aside for a block to come, unless it has no memory or none can be had for it.
    fn put_aside(&mut self, list: Vec<Operand>)
        ensures { self.new ≡ self.old }
    {
        if list.capacity() > 0 {
            match self.spare.push(list) {
                Ok(()) | Err(_) => {}
            }
        }
    }

    /// Leaves a block, to what stood round it.
    #[inline(always)]
    pub(crate) fn close(&mut self, outer: Outer)
        ensures { self.new ≡ closed outer self.old }
    {
        if outer.operands.is_empty() {
            self.operands.clear();
            self.any = outer.any;
        } else {
            self.take_back(outer);
        }
    }

    /// Takes a list of operands back, and puts that of the block aside.
    #[inline(never)]
    fn take_back(&mut self, outer: Outer)
        ensures { self.new ≡ closed outer self.old }
    {
        let Outer { operands, any } = outer;
        let left = replace(&mut self.operands, operands);
        self.any = any;
        self.put_aside(left);
    }

    /// Notes that a local is set, and that it was not before, if so. `AllocError` only where memory
    /// is refused.
    #[inline(always)]
    pub(crate) fn set_local(&mut self, here: &mut Vec<u32>, local: u32) -> Result<(), AllocError>
        ensures sets { OnOk result (body.sets local self.old ≡ Some self.new) }
        ensures back { OnOk result (unset (reverse here.new.items) self.new.set ≡ unset (reverse here.old.items) self.old.set) }
    {
        let place = local as usize;
        if place < self.set.len() && !self.set[place] {
            here.push(local)?;
            self.set[place] = true;
        }
        Ok(())
    }

    /// Forgets that these locals were set.
    #[inline(always)]
    pub(crate) fn forget(&mut self, here: Vec<u32>)
        ensures { self.new ≡ before here.items self.old }
    {
        let mut left = here;
        'left: while let Some(local) = left.pop() {
            let place = local as usize;
            if place < self.set.len() {
                self.set[place] = false;
            }
        }
    }
}
