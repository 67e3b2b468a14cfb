//! Laws on equality of types and on subtyping, for every list of types. Each is the contract of a
//! function that does nothing.
ghost use Rattle.gu_rec.specs.Laws.{SameIsEquivalence, SubIsAnOrder, SameIsDecided, SubIsDecided};

/// Every type is the same as itself; sameness goes both ways, and from one module to the next
/// (core specification 3.0, 3.1.2 Defined Types). Where each type names only indices below its
/// group's end and declares at most one supertype, of smaller index, subtyping is an order on heap
/// types, of which the same ones count as one (3.3 Matching).
pub fn types_are_ordered()
    ensures same { SameIsEquivalence }
    ensures order { SubIsAnOrder }
{}

/// The test for sameness is true exactly where two indices denote one type; on such lists the test
/// for subtyping is true exactly where the first heap type is a subtype of the second.
pub fn decisions_are_exact()
    ensures same { SameIsDecided }
    ensures sub { SubIsDecided }
{}
