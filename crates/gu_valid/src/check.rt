//! Whether a module is valid, part by part (core specification 3.0, 3.5 Modules).
ghost use Rattle.std.specs.Prelude.{◌≡◌, ◌≤◌, ◌↔◌, ℕ, IfErr, IfOk, IsTrue, MatchOption, OnOk};
ghost use Rattle.gu_types.specs.Depth.{types_of, depth};
ghost use Rattle.gu_syntax.specs.Shape.{IsShaped};
ghost use Rattle.gu_model.specs.Valid.{Valid, ValidTypes};
ghost use Rattle.gu_model.specs.ValidFailure.{IsFirstFailure};
ghost use Rattle.gu_valid.specs.Check.{IsCounted, Refuses};
ghost use Rattle.gu_valid.specs.Facts.{IsFacts};

use crate::error::ValidErr;
use crate::facts::Facts;
use gu_model::{Part, ValidModule};
use gu_syntax::Module;
use gu_valid_types::{TypesErr, check_types};
use std::alloc::{AllocError, Global};

impl Facts<'_> {
    /// The first part that fails, where the types hold. `AllocError` only where memory is refused.
    fn first_failing(&self, alloc: Global) -> Result<Option<Part>, AllocError>
        requires facts { IsFacts self.now }
        requires types { ValidTypes self.now.module.now }
        ensures { IfOk result (λ found. MatchOption found (IsShaped self.now.module.now → Valid self.now.module.now) (IsFirstFailure self.now.module.now)) }
    {
        if let Some(number) = self.first_import() {
            return Ok(Some(Part::Import(number)));
        }
        if let Some(number) = self.first_func() {
            return Ok(Some(Part::Func(number)));
        }
        if let Some(number) = self.first_table(alloc)? {
            return Ok(Some(Part::Table(number)));
        }
        if let Some(number) = self.first_memory() {
            return Ok(Some(Part::Memory(number)));
        }
        if let Some(number) = self.first_tag() {
            return Ok(Some(Part::Tag(number)));
        }
        if let Some(number) = self.first_global(alloc)? {
            return Ok(Some(Part::Global(number)));
        }
        if let Some(number) = self.first_export(alloc)? {
            return Ok(Some(Part::Export(number)));
        }
        if !self.start_holds() {
            return Ok(Some(Part::Start));
        }
        if let Some(number) = self.first_element(alloc)? {
            return Ok(Some(Part::Element(number)));
        }
        let (bodies_lack, first_code) = self.first_code(alloc)?;
        if !self.count_holds(bodies_lack) {
            return Ok(Some(Part::Count));
        }
        if let Some(number) = first_code {
            return Ok(Some(Part::Code(number)));
        }
        if let Some(number) = self.first_seg(alloc)? {
            return Ok(Some(Part::DataSeg(number)));
        }
        Ok(None)
    }
}

/// How many entries are too many for a section: its numbers are counted in 31 bits.
const TOO_MANY: usize = 1 << 31;

/// Whether no section has 2^31 entries or more.
fn is_small(m: &Module) -> bool
    ensures { IsTrue result ↔ IsCounted m.now }
{
    m.imports.as_slice().len() < TOO_MANY
        && m.funcs.as_slice().len() < TOO_MANY
        && m.tables.as_slice().len() < TOO_MANY
        && m.memories.as_slice().len() < TOO_MANY
        && m.tags.as_slice().len() < TOO_MANY
        && m.globals.as_slice().len() < TOO_MANY
        && m.exports.as_slice().len() < TOO_MANY
        && m.elems.as_slice().len() < TOO_MANY
        && m.segs.as_slice().len() < TOO_MANY
}

/// The first part that fails, of a module whose sections are small. `AllocError` only where memory
/// is refused.
fn first_part(alloc: Global, m: &Module) -> Result<Option<Part>, AllocError>
    requires counted { IsCounted m.now }
    requires shallow { (i : ℕ) → depth (types_of m.now.types) i ≤ 63 }
    ensures { IfOk result (λ found. MatchOption found (IsShaped m.now → Valid m.now) (IsFirstFailure m.now)) }
{
    let types = match check_types(alloc, &m.types) {
        Ok(types) => types,
        Err(TypesErr::NoMemory) => return Err(AllocError),
        Err(TypesErr::BadRef { ty }) => return Ok(Some(Part::Ty(ty))),
        Err(TypesErr::BadSuper { ty }) => return Ok(Some(Part::Ty(ty))),
    };
    let facts = Facts::new(alloc, m, &types)?;
    facts.first_failing(alloc)
}

/// Whether a module is valid (core specification 3.0, 3.5 Modules). It stays as it is. All parts are
/// gone over once, in their order, and none is looked at behind the first that fails, but that code
/// is looked at once for both the count and its types.
///
/// `Invalid` with the first part that fails, exactly where the module is not valid. `NoMemory` only
/// where memory is refused, where a section has 2^31 entries or more, or where there are 2^32 types
/// or more.
pub fn check_module(alloc: Global, m: &Module) -> Result<(), ValidErr>
    requires shaped { IsShaped m.now }
    requires shallow { (i : ℕ) → depth (types_of m.now.types) i ≤ 63 }
    ensures ok { OnOk result (Valid m.now) }
    ensures err { IfErr result (λ e. Refuses e m.now) }
{
    if !is_small(m) {
        return Err(ValidErr::NoMemory);
    }
    match first_part(alloc, m)? {
        Some(part) => Err(ValidErr::Invalid { part }),
        None => Ok(()),
    }
}

/// The same module, known to be valid (core specification 3.0, 3.5 Modules). The module comes back
/// where it is not.
///
/// `Invalid` with the first part that fails, exactly where the module is not valid. `NoMemory` only
/// where memory is refused, where a section has 2^31 entries or more, or where there are 2^32 types
/// or more.
pub fn validate(alloc: Global, m: Module) -> Result<ValidModule, (Module, ValidErr)>
    requires shaped { IsShaped m }
    requires shallow { (i : ℕ) → depth (types_of m.types) i ≤ 63 }
    ensures same { IfOk result (λ valid. valid ≡ m) }
    ensures ok { OnOk result (Valid m) }
    ensures back { IfErr result (λ refused. refused.0 ≡ m) }
    ensures err { IfErr result (λ refused. Refuses refused.1 m) }
{
    match check_module(alloc, &m) {
        Ok(()) => Ok(ValidModule::new(m)),
        Err(error) => Err((m, error)),
    }
}
