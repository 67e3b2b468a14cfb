//! Laws on the spellings of integers, over all texts and numbers (core specification 3.0, 5.2.2
//! Integers). Each is the contract of a function that does nothing.
ghost use Rattle.gu_bytes.specs.Laws.{OneUnsigned, OneSigned, UnsignedAgain, SignedAgain};
ghost use Rattle.gu_bytes.specs.Laws.{UnsignedTaken, SignedTaken, UnsignedFits, SignedFits};
ghost use Rattle.gu_bytes.specs.Laws.{LeastUnsignedSpells, LeastSignedSpells};
ghost use Rattle.gu_bytes.specs.Laws.{LeastUnsignedIsLeast, LeastSignedIsLeast};
ghost use Rattle.gu_bytes.specs.Laws.{UnsignedBytes, SignedBytes};

/// A text begins with at most one integer of a width: two spellings at its front are the same bytes
/// and spell the same integer.
pub fn one_number()
    ensures unsigned { OneUnsigned }
    ensures signed { OneSigned }
{}

/// The decoding functions read what is spelled, whatever follows it, and nothing else.
pub fn decoding_reads_spellings()
    ensures unsigned_again { UnsignedAgain }
    ensures unsigned_taken { UnsignedTaken }
    ensures signed_again { SignedAgain }
    ensures signed_taken { SignedTaken }
{}

/// The least spelling of an integer of a width spells it at that width.
pub fn least_spells()
    ensures unsigned { LeastUnsignedSpells }
    ensures signed { LeastSignedSpells }
{}

/// No spelling of an integer, at any width, has fewer bytes than the least one.
pub fn least_is_least()
    ensures unsigned { LeastUnsignedIsLeast }
    ensures signed { LeastSignedIsLeast }
{}

/// What is spelled at a width is an integer of that width.
pub fn spelled_fits()
    ensures unsigned { UnsignedFits }
    ensures signed { SignedFits }
{}

/// A spelling is made of bytes, and is not empty.
pub fn spelled_bytes()
    ensures unsigned { UnsignedBytes }
    ensures signed { SignedBytes }
{}
