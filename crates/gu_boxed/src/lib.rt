//! A value on the heap, so that what holds it is small. Contracts see it as the value.
#![tactic(auto)]

ghost use Rattle.std.specs.Borrow.{sem};
ghost use Rattle.std.specs.Prelude.{◌≡◌, IfOk};
ghost use Rattle.gu_boxed.specs.Lends.{lends_value};

use std::alloc::{AllocError, Global};
use std::marker::Model;

/// A value on the heap, in one allocation of the value's size. Contracts see it as the value.
#[derive(Debug, Drop)]
pub struct Boxed<T> {
    content: Box<T>,
}

impl<T> Model for Boxed<T> {
    ghost use Rattle.std.specs.Prelude.{ℕ};

    ghost Value = { T };

    ghost coded = { T.code };

    ghost view = { λ boxed. boxed.content.value };
}

impl<T: Drop> Boxed<T> {
    /// Moves a value to the heap. `AllocError` only where memory is refused: the value is then
    /// dropped.
    pub fn new(alloc: Global, value: T) -> Result<Boxed<T>, AllocError>
        ensures { IfOk result (λ boxed. boxed ≡ value) }
    {
        let content = Box::new(alloc, value)?;
        Ok(Boxed { content })
    }
}

impl<T> Boxed<T> {
    /// The value.
    pub fn get(&self) -> &T
        ensures { result.now ≡ self.now }
    {
        &self.content
    }

    /// The value, to be changed in place.
    pub fn get_mut(&mut self) -> &mut T
        ensures* writes_back { sem 𝓛 (lends_value T.row self.entry result) }
        ensures value { result.now ≡ self.old }
    {
        &mut self.content
    }

    /// The value, taken off the heap.
    pub fn into_inner(self) -> T
        ensures { result ≡ self }
    {
        let Boxed { content } = self;
        Box::into_inner(content)
    }
}

#[cfg(test)]
mod tests {
    use super::*;
    use std::test::Fail;

    #[test]
    fn holds_a_value_that_can_be_changed(rt: HostRuntime) -> Result<(), Fail> {
        let mut boxed = Boxed::new(rt.alloc(), (3u32, 5u64))?;
        boxed.get_mut().1 = 8;
        assert_eq!(rt; boxed.get().0, 3);
        assert_eq!(rt; boxed.into_inner(), (3, 8));
        Ok(())
    }
}
