//! What may be missing at the end of a module.
ghost use Rattle.std.specs.Prelude.{◌≡◌};
ghost use Rattle.gu_read.specs.Parts.{is_missing_in};

use crate::parts::Late;

impl Late {
    /// Whether functions of these types, or data segments that are said, are missing.
    pub fn is_missing(&self, tys: &[u32]) -> bool
        ensures { result ≡ is_missing_in tys.now self.now }
    {
        if self.funcs.len() < tys.len() {
            return true;
        }
        match self.said {
            Some(count) => self.segs.as_slice().len() != count as usize,
            None => false,
        }
    }
}
