//! Laws on the operators, over all numbers (core specification 3.0, 4.3.2, Integer Operations). Each
//! is the contract of a function that does nothing.
ghost use Rattle.gu_num.specs.Laws.{OneFits, TwoFit, OneNeverTraps, Division, Rotations};

/// Numbers of an operator's operand type give a number of its result type, or a trap.
pub fn results_fit()
    ensures one { OneFits }
    ensures two { TwoFit }
{}

/// An operator of one operand never traps.
pub fn one_operand_never_traps()
    ensures { OneNeverTraps }
{}

/// Signed quotients and remainders belong together.
pub fn quotients_and_remainders()
    ensures { Division }
{}

/// A rotation turns the bits of a number.
pub fn rotations_turn_bits()
    ensures { Rotations }
{}
