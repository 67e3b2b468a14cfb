//! Laws on contents, for all facts. Each is the contract of a function that does nothing.
ghost use Rattle.std.specs.Prelude.{ℕ, List};
ghost use Rattle.gu_types.specs.declared.types.TypeList.{TypeList};
ghost use Rattle.gu_contents.specs.declared.facts.Facts.{Facts};
ghost use Rattle.gu_contents.specs.Laws.{ContentsAreALattice, AnswersBelong, AnswersAreListed, CodesAreExact, CommonIsExact, LeastIsExact};

/// On contents that belong to the facts of a module, the order is one, with nothing least and all
/// values greatest. The join of two is the least that is at least both. `filter`, `minus`, `test`,
/// `is_null`, `equal`, `pack` and `extend` are monotone: of a greater content they give no less.
/// A greater content that is not the same has a higher rank, and no rank is higher than 70. What
/// `join`, `all` and these give belongs to the facts too, and no cone in a content that does is
/// deeper than 66.
pub fn contents_are_a_lattice()
    ensures lattice { (f : Facts) → ContentsAreALattice f }
    ensures answers { (f : Facts) → AnswersBelong f }
{}

/// The least index of a type, by which contents name it, denotes the same type, and no smaller one
/// does. Where the indices in the types hold, the first heap type on the line above one that
/// another is a subtype of is the least common supertype of both (core specification 3.0, 3.3
/// Matching).
pub fn names_are_exact()
    ensures least { (list : TypeList) → LeastIsExact list }
    ensures common { CommonIsExact }
{}

/// Over a list of 64-bit literals, the content of a code is the one that it codes, and different
/// contents have different codes, where no cone is deeper than 66 and a 64-bit literal is in the
/// list. The code of `Empty` is 0.
pub fn codes_are_exact()
    ensures { (longs : List ℕ) → CodesAreExact longs }
{}

/// Where the 64-bit literals of contents are in a list, so are those of what is made of them.
pub fn literals_stay_listed()
    ensures { (f : Facts) (longs : List ℕ) → AnswersAreListed f longs }
{}
