//! What the words of the command line ask for.
ghost use Rattle.std.specs.Prelude.{◌≤◌, length, IsSome};

/// A step of the work on a module, and how often it is done.
#[derive(Clone, Copy, Debug, PartialEq, Eq)]
pub enum Step {
    /// Reading the module.
    Read(u32),
    /// Looking whether the module is valid.
    Check(u32),
    /// Making the module's least spelling.
    Write(u32),
    /// Asking whether types are subtypes.
    Types(u32),
    /// Making the module's least spelling once, to be put out.
    Copy,
}

/// A step of the work on a module whose turns are timed by the clock, and how often it is done.
#[derive(Clone, Copy, Debug, PartialEq, Eq)]
pub enum Timed {
    /// Reading the module.
    Read(u32),
    /// Making the module's least spelling.
    Write(u32),
}

/// What is done.
#[derive(Clone, Copy, Debug, PartialEq, Eq)]
pub enum Work {
    /// A step on the module that is the input.
    Step(Step),
    /// A step on the module that is the input, with the time that each turn takes.
    Timed(Timed),
    /// Looking whether the module on each line of the input is valid.
    Lines,
}

/// What the words ask for: `copy` or `lines` alone, `read`, `check`, `write` or `types` with a number
/// below 2^32, or `clock` before `read` or `write` with such a number. None where they are no such words.
pub fn work_of(words: &[&str]) -> Option<Work>
    ensures few { IsSome result → length words.now ≤ 3 }
{
    match words {
        ["copy"] => Some(Work::Step(Step::Copy)),
        ["lines"] => Some(Work::Lines),
        ["clock", step, times] => {
            let times = times.parse::<u32>().ok()?;
            Some(Work::Timed(timed_of(step, times)?))
        }
        [step, times] => {
            let times = times.parse::<u32>().ok()?;
            Some(Work::Step(step_of(step, times)?))
        }
        _ => None,
    }
}

/// The step with a name, done so many times. None where no step has the name.
fn step_of(name: &str, times: u32) -> Option<Step> {
    match name {
        "read" => Some(Step::Read(times)),
        "check" => Some(Step::Check(times)),
        "write" => Some(Step::Write(times)),
        "types" => Some(Step::Types(times)),
        _ => None,
    }
}

/// The timed step with a name, done so many times. None where no timed step has the name.
fn timed_of(name: &str, times: u32) -> Option<Timed> {
    match name {
        "read" => Some(Timed::Read(times)),
        "write" => Some(Timed::Write(times)),
        _ => None,
    }
}
