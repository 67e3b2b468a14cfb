//! The bodies of functions (core specification 3.0, 3.5 Modules, functions).
ghost use Rattle.std.specs.Prelude.{◌≡◌, ◌==◌, ◌&&◌, not, false, length, map, IfOk};
ghost use Rattle.std.specs.List.{list_any};
ghost use Rattle.gu_model.specs.ValidContext.{body_of, needs_count_body};
ghost use Rattle.gu_model.specs.Typing.{is_typed_func};
ghost use Rattle.gu_model.specs.Valid.{CodeHolds};
ghost use Rattle.gu_model.specs.ValidContext.{context};
ghost use Rattle.gu_valid.specs.Check.{FindsFirstWithout};
ghost use Rattle.gu_valid.specs.Facts.{IsFacts, bodies_lack_count};

use crate::facts::Facts;
use crate::needs::{any_func_needs, func_needs};
use gu_syntax::Func;
use gu_valid_code::{Workspace, check_code_in};
use std::alloc::{AllocError, Global};

impl<'m> Facts<'m> {
    /// Whether a function's type index names a function type, and its body is typed.
    fn func_holds(
        &self,
        alloc: Global,
        workspace: &mut Workspace<'m>,
        func: &'m Func,
    ) -> Result<bool, AllocError>
        requires { IsFacts self.now }
        ensures { IfOk result (λ holds. holds ≡ is_typed_func (context self.now.module.now) func.now) }
    {
        check_code_in(alloc, &self.env, workspace, func)
    }

    /// Whether there are data segments, whose number is not said before the code, and a body needs it.
    /// Where there are none, a body that needs it is not typed.
    fn lacks_count(&self, func: &Func) -> bool
        ensures { result ≡ (not self.now.module.now.has_count && (not (length self.now.module.now.segs == 0) && needs_count_body (body_of func.now))) }
    {
        !self.module.has_count && !self.module.segs.as_slice().is_empty() && func_needs(func)
    }

    /// Whether the number of data segments is not said before the code and one of the bodies needs it.
    fn any_lacks_count(&self, funcs: &[Func]) -> bool
        ensures { result ≡ (not self.now.module.now.has_count && list_any needs_count_body (map body_of funcs.now)) }
    {
        !self.module.has_count && any_func_needs(funcs)
    }

    /// Whether the number of data segments is not said before the code and a body needs it, and else
    /// the number of the first defined function whose body is not typed. `AllocError` only where
    /// memory is refused.
    pub(crate) fn first_code(&self, alloc: Global) -> Result<(bool, Option<u32>), AllocError>
        requires { IsFacts self.now }
        ensures lack { IfOk result (λ found. found.0 ≡ bodies_lack_count self.now.module.now) }
        ensures first { IfOk result (λ found. found.0 ≡ false → FindsFirstWithout (length self.now.module.now.funcs) (CodeHolds self.now.module.now) found.1) }
    {
        let mut workspace = Workspace::new(alloc);
        for (number, func) in self.module.funcs.as_slice().iter().enumerate() {
            let lacks = self.lacks_count(func);
            if lacks {
                return Ok((true, None));
            }
            let holds = self.func_holds(alloc, &mut workspace, func)?;
            if !holds {
                let left = &self.module.funcs.as_slice()[number..];
                return Ok((self.any_lacks_count(left), Some(number as u32)));
            }
        }
        Ok((false, None))
    }
}
