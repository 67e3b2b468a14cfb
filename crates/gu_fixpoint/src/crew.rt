//! How many workers have work.
ghost use Rattle.std.specs.Prelude.{◌≡◌, ◌<◌, ◌≤◌, ◌%◌, ℕ};
ghost use Rattle.gu_contents.specs.declared.content.Content.{Content};
ghost use Rattle.gu_links.specs.declared.link.Link.TheVariants.{Root};
ghost use Rattle.gu_fixpoint.specs.Hands.{AreBusy};

use gu_links::{Link, System};

/// From how many links on the time that starting a thread takes is small beside solving, so that
/// nobody looks for roots before the workers do.
const MANY: usize = 4_096;

/// How many workers there are, and how many of the first ones can have work.
#[derive(Clone, Copy, Debug)]
pub(crate) struct Crew {
    /// How many there are.
    pub(crate) workers: u32,
    /// How many can have work: all root links are in the shares of these.
    pub(crate) busy: u32,
}

/// How many of so many workers can have work for a system: all root links are in the shares of the
/// first ones, so many. A worker with no root in its share never joins anything, so it needs no
/// thread.
pub(crate) fn busy_workers(s: &System<'_>, workers: u32) -> u32
    requires { 0 < workers }
    ensures few { result ≤ workers }
    ensures busy { AreBusy s.now.links workers result }
{
    let links = s.links.as_slice();
    if links.len() >= MANY {
        return workers;
    }
    let mut busy = 0;
    'links: for number in 0..links.len() {
        busy = needed(&links[number], number, workers, busy);
    }
    busy
}

/// So many of the first workers, or more, if the link with a number is a root in the share of one
/// behind them.
fn needed(link: &Link, number: usize, workers: u32, busy: u32) -> u32
    requires some { 0 < workers }
    requires few { busy ≤ workers }
    ensures few { result ≤ workers }
    ensures more { busy ≤ result }
    ensures enough { (give : Content) (to : ℕ) → link.now ≡ Root give to → number % workers < result }
{
    if !matches!(link, Link::Root { .. }) {
        return busy;
    }
    let index = (number % workers as usize) as u32;
    if index < busy { busy } else { index + 1 }
}
