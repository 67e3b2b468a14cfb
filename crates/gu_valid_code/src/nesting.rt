//! What happens to the operands and to the locals that are set where a block begins and ends (core
//! specification 3.0, appendix, Validation Algorithm).
ghost use Rattle.std.specs.Prelude.{◌≡◌, true, is_some, Some, OnOk, IfOk};
ghost use Rattle.gu_model.specs.TypingShape as typing;
ghost use Rattle.gu_model.specs.Typing as body;
ghost use Rattle.gu_valid_code.specs.Body.{outer_types};

use crate::env::Env;
use crate::state::{Outer, State};
use gu_types::ValType;
use std::alloc::{AllocError, Global};

impl State {
    /// Enters a block, with its parameters alone. What stood round it is handed out. `AllocError`
    /// only where memory is refused.
    #[inline(always)]
    pub(crate) fn open(&mut self, alloc: Global, params: &[ValType]) -> Result<Outer, AllocError>
        ensures opened { OnOk result (self.new ≡ body.opened params.now self.old) }
        ensures types { IfOk result (λ outer. outer_types outer ≡ self.old.types) }
        ensures any { IfOk result (λ outer. outer.any ≡ self.old.any) }
    {
        let outer = self.take_all(alloc);
        self.push_all(params)?;
        Ok(outer)
    }

    /// Whether code ends with operands of these types and no more.
    #[inline(always)]
    pub(crate) fn ends_with(&mut self, env: &Env<'_>, results: &[ValType]) -> bool
        ensures ends { result ≡ is_some (typing.ends_with env.now.types.now results.now (Some self.old) (Some self.old)) }
        ensures set { result ≡ true → self.new.set ≡ self.old.set }
    {
        self.pop_all(env, results) && self.has_none()
    }
}
