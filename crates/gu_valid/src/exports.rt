//! Exports (core specification 3.0, 3.5 Modules, exports).
ghost use Rattle.std.specs.Prelude.{◌≡◌, length, IfOk};
ghost use Rattle.gu_model.specs.Valid.{ExportHolds};
ghost use Rattle.gu_valid.specs.Check.{FindsFirstWithout};
ghost use Rattle.gu_valid.specs.Facts.{IsFacts};

use crate::facts::Facts;
use std::alloc::{AllocError, Global};
use std::collections::BTreeSet;

impl Facts<'_> {
    /// The number of the first export whose index is out of range, or whose name an earlier one
    /// has. `AllocError` only where memory is refused.
    pub(crate) fn first_export(&self, alloc: Global) -> Result<Option<u32>, AllocError>
        requires { IsFacts self.now }
        ensures { IfOk result (λ found. FindsFirstWithout (length self.now.module.now.exports) (ExportHolds self.now.module.now) found) }
    {
        let mut names: BTreeSet<&[u8]> = BTreeSet::new(alloc);
        for (number, export) in self.module.exports.as_slice().iter().enumerate() {
            let is_new = names.insert(export.name.as_slice())?;
            if !is_new || !self.is_there(export.kind, export.index) {
                return Ok(Some(number as u32));
            }
        }
        Ok(None)
    }
}
