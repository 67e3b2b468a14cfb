//! Laws on validity, runs and traces, for every module. Each is the contract of a function that does nothing.
ghost use Rattle.gu_model.specs.Laws.{TracesGrow, LevelsSuffice, IsEquivalence, SameStepsIsSame, NeverWrong, CutIsSame, CutIsValid};
ghost use Rattle.gu_model.specs.Same.{Same, SameSteps};
ghost use Rattle.gu_model.specs.ValidLaws.{FailureIsOne, ValidHasNone};

/// A module has one first part that fails at most, and a valid module has none (core specification
/// 3.0, 3.5 Modules).
pub fn one_first_failure()
    ensures one { FailureIsOne }
    ensures none { ValidHasNone }
{}

/// More steps show what fewer steps show, and perhaps more. The evaluator's levels are as many as
/// the steps, and what lies below them is never asked.
pub fn traces_grow()
    ensures grow { TracesGrow }
    ensures levels { LevelsSuffice }
{}

/// No embedder can tell a module from itself; if it cannot tell the first from the second, it
/// cannot tell the second from the first; and what it cannot tell from one another, step by step
/// along a chain, it cannot tell at the chain's ends. So it is with equal steps too, which is
/// the stronger of the two.
pub fn same_is_an_equivalence()
    ensures same { IsEquivalence Same }
    ensures same_steps { IsEquivalence SameSteps }
    ensures stronger { SameStepsIsSame }
{}

/// A run of a valid module, by any script and within any number of steps, does not end for want of
/// an operand, a local or anything that an index names, nor since one is of another kind than an
/// instruction needs (core specification 3.0, appendix, Soundness).
pub fn valid_is_never_wrong()
    ensures { NeverWrong }
{}

/// A module whose code behind each unconditional branch is removed shows what it showed before, in
/// as many steps (core specification 3.0, 4.6 Instructions), and a valid one stays valid (3.5
/// Modules).
pub fn cut_keeps_meaning()
    ensures same { CutIsSame }
    ensures valid { CutIsValid }
{}
