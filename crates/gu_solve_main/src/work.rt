//! What the words of the command line ask for.
ghost use Rattle.std.specs.Prelude.{◌≤◌, IfSome};
ghost use Rattle.gu_solve_main.specs.Work.{IsRunnable};

/// What kind of system is solved.
#[derive(Clone, Copy, Debug, PartialEq, Eq)]
pub enum Kind {
    /// Chains of cells.
    Chains,
    /// Cells from which others are filled.
    Stars,
    /// Fields of classes, through references to objects of any class.
    Cone,
    /// Fields of classes, through references to objects of one class or of it and its subclasses.
    Shallow,
}

/// How it is solved.
#[derive(Clone, Copy, Debug, PartialEq, Eq)]
pub enum Task {
    /// By the worklist, so many times.
    Close(u32),
    /// By so many workers, so many times.
    Solve(u32, u32),
    /// By so many workers, whose joins are counted.
    Joins(u32),
}

/// What is done: which task, with what kind of system, of about so many links.
#[derive(Clone, Copy, Debug, PartialEq, Eq)]
pub struct Work {
    /// How the system is solved.
    pub task: Task,
    /// Its kind.
    pub kind: Kind,
    /// How many links it has, about.
    pub links: u32,
}

/// What the words ask for. None where they are no such words, or a number is not below 2^32, or the
/// workers are not 1 to 64, of whom joins can be counted of 2 at least.
pub fn work_of(words: &[&str]) -> Option<Work>
    ensures { IfSome result (λ work. IsRunnable work.task) }
{
    let (task, kind, links) = match words {
        ["close", times, kind, links] => (Task::Close(times.parse().ok()?), *kind, *links),
        ["solve", workers, times, kind, links] => {
            let workers = number_within(workers, 1)?;
            (Task::Solve(workers, times.parse().ok()?), *kind, *links)
        }
        ["joins", workers, kind, links] => (Task::Joins(number_within(workers, 2)?), *kind, *links),
        _ => return None,
    };
    Some(Work {
        task,
        kind: kind_of(kind)?,
        links: links.parse().ok()?,
    })
}

/// A number of workers, of so many at least.
fn number_within(word: &str, least: u32) -> Option<u32>
    ensures { IfSome result (λ workers. (least ≤ workers) × (workers ≤ 64)) }
{
    let workers = word.parse::<u32>().ok()?;
    if least <= workers && workers <= 64 {
        Some(workers)
    } else {
        None
    }
}

/// The kind with a name. None where no kind has the name.
fn kind_of(name: &str) -> Option<Kind> {
    match name {
        "chains" => Some(Kind::Chains),
        "stars" => Some(Kind::Stars),
        "cone" => Some(Kind::Cone),
        "shallow" => Some(Kind::Shallow),
        _ => None,
    }
}
