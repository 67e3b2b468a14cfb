//! What stands round a place in a body (core specification 3.0, 3.1 Conventions, contexts).
ghost use Rattle.std.specs.Prelude.{◌≡◌, [], ◌∷◌, Some, None, OnOk, option_map, slice_get};
ghost use Rattle.gu_model.specs.Typing as typing;
ghost use Rattle.gu_valid_code.specs.Env.{function_of};
ghost use Rattle.gu_valid_code.specs.Scope.{left, parts_of};

use crate::env::Signature;
use crate::locals::declare;
use gu_types::ValType;
use std::alloc::{AllocError, Global};
use std::marker::Model;

/// The types that the labels take, the innermost last, those of the function's results and those of
/// its locals.
#[derive(Drop)]
pub(crate) struct Scope<'a> {
    labels: Vec<&'a [ValType]>,
    results: &'a [ValType],
    locals: Vec<ValType>,
}

impl<'a> Model for Scope<'a> {
    ghost use Rattle.std.specs.Prelude.{map, reverse};
    ghost use Rattle.gu_model.specs.TypingContext.{Around};

    ghost Value = { Around };

    ghost view = { λ scope. record { labels = map (λ label. label.now) (reverse scope.labels.items); results = scope.results.now; locals = scope.locals.items } };
}

/// The types before the last, and the last, or `None` where there are no types.
pub(crate) fn split_last(types: &[ValType]) -> Option<(&[ValType], ValType)>
    ensures { option_map parts_of result ≡ typing.split_last types.now }
{
    let (last, before) = types.split_last()?;
    Some((before, *last))
}

impl<'a> Scope<'a> {
    /// Round no code: no labels, results or locals.
    pub(crate) fn new(alloc: Global) -> Scope<'a>
        ensures { result ≡ record { labels = []; results = []; locals = [] } }
    {
        Scope {
            labels: Vec::new(alloc),
            results: &[],
            locals: Vec::new(alloc),
        }
    }

    /// Begins anew, round the body of a function of a type with these runs of locals. `AllocError`
    /// only where memory is refused.
    pub(crate) fn begin(
        &mut self,
        signature: Signature<'a>,
        runs: &[(u32, ValType)],
    ) -> Result<(), AllocError>
        ensures { OnOk result (self.new ≡ typing.around (function_of signature.entry) (typing.spread runs.now)) }
    {
        self.labels.clear();
        self.labels.push(signature.results)?;
        self.results = signature.results;
        self.locals.clear();
        self.locals.extend_from_slice(signature.params)?;
        declare(&mut self.locals, runs)
    }

    /// The types that a label takes, counted outwards from the innermost one.
    #[inline(always)]
    pub(crate) fn label(&self, index: u32) -> Option<&'a [ValType]>
        ensures { option_map (λ label. label.now) result ≡ slice_get self.now.labels index }
    {
        let place = self.labels.len().checked_sub(index as usize + 1)?;
        Some(self.labels[place])
    }

    /// The types of the function's results.
    pub(crate) fn results(&self) -> &'a [ValType]
        ensures { result.now ≡ self.now.results }
    {
        self.results
    }

    /// The type of a local.
    #[inline(always)]
    pub(crate) fn local(&self, index: u32) -> Option<ValType>
        ensures { result ≡ slice_get self.now.locals index }
    {
        self.locals.get(index as usize).copied()
    }

    /// Enters a block with a label. `AllocError` only where memory is refused.
    #[inline(always)]
    pub(crate) fn enter(&mut self, label: &'a [ValType]) -> Result<(), AllocError>
        ensures { OnOk result (self.new ≡ typing.inside self.old label.now) }
    {
        self.labels.push(label)?;
        Ok(())
    }

    /// Leaves the innermost block.
    #[inline(always)]
    pub(crate) fn leave(&mut self)
        ensures { self.new ≡ left self.old }
    {
        self.labels.pop();
    }
}
