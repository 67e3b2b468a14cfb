//! Laws on the table of operators. Each is the contract of a function that does nothing.
ghost use Rattle.gu_optab.specs.Laws.{CodesAreDistinct, CodesAreOfRows};

/// Rows and codes name the same operators: no two rows share a code.
pub fn one_code_a_row()
    ensures distinct { CodesAreDistinct }
    ensures of_rows { CodesAreOfRows }
{}
