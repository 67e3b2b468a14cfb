//! The law of workers, for all systems of links. It is the contract of a function that does nothing.
ghost use Rattle.gu_workers.specs.Laws.{SettledIsLeast};

/// Contents that are at most the least solution, at least what every record has seen, and settled
/// by the records, are the least solution, where each record shows the work of one worker and the
/// shares of the workers are all root links.
pub fn settled_is_least()
    ensures { SettledIsLeast }
{}
