//! What the operands become by a row of the typing table (core specification 3.0, appendix,
//! Validation Algorithm).
ghost use Rattle.std.specs.Prelude.{◌≡◌, [], ◌∷◌, map, replicate, Some, OnOk, IfOk};
ghost use Rattle.gu_model.specs.TypingShape as typing;
ghost use Rattle.gu_model.specs.TypingReferences as fields;
ghost use Rattle.gu_valid_code.specs.Rows.{few_of, below_of, row_of, follows};
ghost use Rattle.gu_valid_code.specs.State.{Did};

use crate::env::Env;
use crate::references::field_value;
use crate::row::{Below, Few, Row, Then};
use crate::state::State;
use gu_types::{FieldType, ValType};
use std::alloc::AllocError;

impl State {
    /// Takes a few operands, the last of which is on top. Whether there are such.
    #[inline(always)]
    pub(crate) fn pop_few(&mut self, env: &Env<'_>, wants: Few) -> bool
        ensures { Did result (typing.pops env.now.types.now (few_of wants) self.old) self.new }
    {
        match wants {
            Few::Zero => true,
            Few::One(a) => self.pop(env, a),
            Few::Two(a, b) => self.pop(env, b) && self.pop(env, a),
            Few::Three(a, b, c) => self.pop(env, c) && self.pop(env, b) && self.pop(env, a),
            Few::Four(a, b, c, d) => {
                self.pop(env, d) && self.pop(env, c) && self.pop(env, b) && self.pop(env, a)
            }
            Few::Five(a, b, c, d, e) => {
                self.pop(env, e)
                    && self.pop(env, d)
                    && self.pop(env, c)
                    && self.pop(env, b)
                    && self.pop(env, a)
            }
        }
    }

    /// Takes the values of fields in order, the last of which is on top. Whether there are such.
    fn pop_fields(&mut self, env: &Env<'_>, wants: &[FieldType]) -> bool
        ensures { Did result (typing.pops env.now.types.now (map fields.field_value wants.now) self.old) self.new }
    {
        let mut left = wants;
        'wants: while let Some((last, before)) = left.split_last() {
            if !self.pop(env, field_value(*last)) {
                return false;
            }
            left = before;
        }
        true
    }

    /// Takes so many operands of a type. Whether there are such. It takes no longer than there are
    /// operands.
    #[inline(always)]
    fn pop_copies(&mut self, env: &Env<'_>, want: ValType, count: u32) -> bool
        ensures { Did result (typing.pops env.now.types.now (replicate count want) self.old) self.new }
    {
        let mut left = count;
        'copies: while left > 0 {
            if self.gives_all() {
                return true;
            }
            if !self.pop(env, want) {
                return false;
            }
            left -= 1;
        }
        true
    }

    /// Takes the lower operands of a row. Whether there are such.
    #[inline(always)]
    fn pop_below(&mut self, env: &Env<'_>, wants: Below<'_>) -> bool
        ensures { Did result (typing.pops env.now.types.now (below_of wants.entry) self.old) self.new }
    {
        match wants {
            Below::Nothing => true,
            Below::Types(types) => self.pop_all(env, types),
            Below::Fields(fields) => self.pop_fields(env, fields),
            Below::Copies(ty, count) => self.pop_copies(env, ty, count),
        }
    }

    /// Does what follows where the operands of a row were taken. `AllocError` only where memory is
    /// refused.
    #[inline(always)]
    fn follow(&mut self, then: Then<'_>) -> Result<(), AllocError>
        ensures { OnOk result (follows then.entry self.old ≡ Some self.new) }
    {
        match then {
            Then::Gives(None) => {}
            Then::Gives(Some(given)) => self.push_val(given)?,
            Then::GivesAll(given) => self.push_all(given)?,
            Then::GivesMore(given, last) => {
                self.push_all(given)?;
                self.push_val(last)?;
            }
            Then::Leaves => self.stop(),
        }
        Ok(())
    }

    /// Does what a row says. Whether its operands are there. `AllocError` only where memory is
    /// refused.
    #[inline(always)]
    pub(crate) fn apply(&mut self, env: &Env<'_>, row: &Row<'_>) -> Result<bool, AllocError>
        ensures { IfOk result (λ typed. Did typed (typing.type_row env.now.types.now (Some (row_of row.now)) self.old) self.new) }
    {
        if !self.pop_few(env, row.top) || !self.pop_below(env, row.below) {
            return Ok(false);
        }
        self.follow(row.then)?;
        Ok(true)
    }
}
