//! Laws on links, for all systems. Each is the contract of a function that does nothing.
ghost use Rattle.gu_links.specs.Ways.{ReadersAreFound};
ghost use Rattle.gu_links.specs.Laws.{LinksAreLocal, KnownIsEnough, LinksOfNothing, AskedIsProper, SolutionsMeet, LeastExists, LeastIsOne, ClosedIsNotOpen, CoreStatesStayBelow, SolvedCoreStateIsLeast};

/// Contents that agree on the cells on which a link rests have the same such cells, and the link
/// asks for the same. So what is known of all cells on which a link rests on what is known tells
/// what it asks for. A link that is no root asks for nothing to be joined where there is nothing in
/// each cell on which it rests.
pub fn links_are_local()
    ensures same { LinksAreLocal }
    ensures known { KnownIsEnough }
    ensures nothing { LinksOfNothing }
{}

/// Each link that reads a cell on some contents reads it by one of 64 ways: whatever the cells have,
/// or by way of a type that stands at most 63 declared supertypes above the cell's own.
pub fn readers_are_found()
    ensures { ReadersAreFound }
{}

/// What a link of a system asks for is of the system where all contents are. Where cells have at
/// most what a solution has, the solution meets all that the links ask for.
pub fn links_are_monotone()
    ensures proper { AskedIsProper }
    ensures met { SolutionsMeet }
{}

/// Every system of links has a least solution, with one content for each cell, and no other.
pub fn one_least_solution()
    ensures some { LeastExists }
    ensures one { LeastIsOne }
{}

/// After each list of events, in which one after another what a link asks for on the present
/// contents, or less, is joined into its cell, the contents are at most every solution. Where then
/// no link is open, they are the least solution. A link is closed exactly where it is not open.
pub fn core_states_stay_below()
    ensures below { CoreStatesStayBelow }
    ensures least { SolvedCoreStateIsLeast }
    ensures closed { ClosedIsNotOpen }
{}
