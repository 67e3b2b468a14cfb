//! What is kept of types, one by one, for the limits on them.
ghost use Rattle.std.specs.Prelude.{◌≡◌, [], IfOk, OnOk};
ghost use Rattle.gu_types.specs.Depth.{types_in};
ghost use Rattle.gu_read.specs.Limits.{params_of, results_of, fields_of};
ghost use Rattle.gu_read.specs.Seen as spec;
ghost use Rattle.gu_read.specs.Seen.{Sees, SeesMore, IsDepthBehind};

use gu_types::{Comp, RecGroup, SubType};
use std::alloc::{AllocError, Global};

/// How many supertypes may stand above a type.
const DEEPEST: u8 = 63;

/// What is kept of types that were looked at in order: where the first stand that exceed a limit.
#[derive(Drop)]
pub struct Seen {
    /// How many supertypes stand above each type, or 64 where there are more than 63.
    pub depths: Vec<u8>,
    /// The index of the first type with more than 1,000 parameters.
    pub params: Option<usize>,
    /// The index of the first type with more than 1,000 results.
    pub results: Option<usize>,
    /// The index of the first type with more than 10,000 fields.
    pub fields: Option<usize>,
    /// The index of the first type with more than 63 supertypes above it.
    pub deeper: Option<usize>,
}

impl Seen {
    /// What is kept of no types.
    fn none(alloc: Global) -> Seen
        ensures { Sees result [] }
    {
        Seen {
            depths: Vec::new(alloc),
            params: None,
            results: None,
            fields: None,
            deeper: None,
        }
    }

    /// Looks at one more type.
    fn add(&mut self, ty: &SubType) -> Result<(), AllocError>
        ensures { OnOk result (SeesMore self.old ty.now self.new) }
    {
        let depths = self.depths.as_slice();
        let index = depths.len();
        let depth = depth_behind(depths, ty);
        let (params, results, fields) = sizes(&ty.comp);
        self.depths.push(depth)?;
        keep_above(&mut self.params, 1_000, params, index);
        keep_above(&mut self.results, 1_000, results, index);
        keep_above(&mut self.fields, 10_000, fields, index);
        keep_above(&mut self.deeper, DEEPEST as usize, depth as usize, index);
        Ok(())
    }
}

/// What is kept of the types of groups, in order.
pub fn see_types(alloc: Global, groups: &[RecGroup]) -> Result<Seen, AllocError>
    ensures { IfOk result (λ seen. Sees seen (types_in groups.now)) }
{
    let mut seen = Seen::none(alloc);
    'groups: for group in groups {
        let types = group.types.as_slice();
        'types: for ty in types {
            seen.add(ty)?;
        }
    }
    Ok(seen)
}

/// Keeps what was found first, or this index where nothing was and the number that stands there is more
/// than so many. Few numbers are, so nothing is written but then.
#[inline(always)]
fn keep_above(found: &mut Option<usize>, most: usize, number: usize, index: usize)
    ensures { found.new ≡ spec.or_above most number index found.old }
{
    if most < number && found.is_none() {
        *found = Some(index);
    }
}

/// How many parameters, results and fields a type has.
fn sizes(comp: &Comp) -> (usize, usize, usize)
    ensures params { result.0 ≡ params_of comp.now }
    ensures results { result.1 ≡ results_of comp.now }
    ensures fields { result.2 ≡ fields_of comp.now }
{
    match comp {
        Comp::Func { params, results } => (params.as_slice().len(), results.as_slice().len(), 0),
        Comp::Struct(fields) => (0, 0, fields.as_slice().len()),
        Comp::Array(_) => (0, 0, 0),
    }
}

/// How many supertypes stand above a type behind others of these depths, or 64 where there are more
/// than 63.
fn depth_behind(depths: &[u8], ty: &SubType) -> u8
    ensures { IsDepthBehind depths.now ty.now result }
{
    match ty.supers.as_slice().first() {
        Some(above) if (*above as usize) < depths.len() => depths[*above as usize].min(DEEPEST) + 1,
        _ => 0,
    }
}
