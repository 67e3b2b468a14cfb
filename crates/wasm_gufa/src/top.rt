//! The top call.

ghost use Rattle.std.specs.Prelude.{◌≡◌, ◌≢◌, ◌≤◌, ◌<◌, ◌↔◌, ℕ, List, length, Some, IfOk, IfErr, IfSome};
ghost use Rattle.gu_model.specs.Cut as dead;
ghost use Rattle.gu_outside.specs.Outside.{Rose};
ghost use Rattle.gu_report.specs.Lines.{line_of, IsTold};
ghost use Rattle.wasm_gufa.specs.Answers.{Accepts, Optimises, BreaksOff, IsDue};
ghost use Rattle.wasm_gufa.specs.Answers.{IsMalformed, IsOutside, IsInvalid, IsLimit};
ghost use Rattle.wasm_gufa.specs.Answers.{IfMalformed, IfOutOfProfile, IfInvalid, IfLimit, Keeps};
ghost use Rattle.wasm_gufa.specs.Steps.{Blames, IsEarly, IsLate, Says, of_run};

use gu_body::cut_module;
use gu_model::ValidModule;
use gu_outside::{Sink, Source, put_all, read_to_limit};
use gu_read::read_module;
use gu_report::{Status, fault_line};
use gu_valid::{ValidErr, validate};
use gu_write::write_module;
use std::alloc::Global;
use std::thread::Threads;

/// The most bytes of input that are read.
const INPUT_LIMIT: usize = 16_777_216;

/// The module that the bytes spell, where it is within the limits and valid.
fn accepted(rt: &(impl Threads + Sync), alloc: Global, bytes: &[u8]) -> Result<ValidModule, Status>
    ensures ok { IfOk result (Accepts bytes.now) }
    ensures err { IfErr result (Blames bytes.now) }
{
    let module = read_module(rt, alloc, bytes)?;
    match validate(alloc, module) {
        Ok(valid) => Ok(valid),
        Err((_, ValidErr::Invalid { part })) => Err(Status::Invalid { part }),
        Err((_, ValidErr::NoMemory)) => Err(Status::NoMemory),
    }
}

/// The module that the source gives, where it is within the limits and valid. The bytes are let go.
fn taken<R: Source>(
    rt: &(impl Threads + Sync),
    alloc: Global,
    input: &mut R,
) -> Result<ValidModule, Status>
    ensures ok { IfOk result (λ m. IfSome (R.left input.old) (λ bytes. Accepts bytes m)) }
    ensures err { IfErr result (λ status. status ≢ Status.ReadFault → IfSome (R.left input.old) (λ bytes. Blames bytes status)) }
    ensures early { IfErr result IsEarly }
    ensures read_fault { IfErr result (λ status. status ≡ Status.ReadFault → Rose (R.faults input.old) (R.faults input.new)) }
    ensures never_falls { R.faults input.old ≤ R.faults input.new }
{
    let bytes = read_to_limit(alloc, input, INPUT_LIMIT)?;
    accepted(rt, alloc, bytes.as_slice())
}

/// Puts the least text of a module, without its dead tails, and keeps the module. The text is let go
/// before it: with the module's many small blocks free, the allocator would join them all once a large
/// one is freed.
fn put_least<K: Sink>(
    rt: &(impl Threads + Sync),
    alloc: Global,
    module: ValidModule,
    output: &mut K,
    kept: &mut Option<ValidModule>,
) -> Result<(), Status>
    ensures says { (bytes : List ℕ) → Accepts bytes «module» → Says (of_run result) bytes (K.held output.old) (K.held output.new) }
    ensures write_fault { of_run result ≡ Status.WriteFault → Rose (K.faults output.old) (K.faults output.new) }
    ensures untouched { of_run result ≢ Status.Done → of_run result ≢ Status.WriteFault → output.new ≡ output.old }
    ensures later { IfErr result IsLate }
    ensures never_falls { K.faults output.old ≤ K.faults output.new }
    ensures keeps { of_run result ≡ Status.Done → kept.new ≡ Some (dead.cut_module «module») }
    ensures keeps_none { of_run result ≢ Status.Done → kept.new ≡ kept.old }
{
    let cut = cut_module(module);
    let text = write_module(rt, alloc, cut.get())?;
    match put_all(output, text.as_slice()) {
        Ok(()) => {
            *kept = Some(cut);
            Ok(())
        }
        Err(_) => Err(Status::WriteFault),
    }
}

/// Reads, optimises and puts a module, unless there is a word, and keeps it.
fn run<R: Source, K: Sink>(
    rt: &(impl Threads + Sync),
    alloc: Global,
    words: &[&str],
    input: &mut R,
    output: &mut K,
    kept: &mut Option<ValidModule>,
) -> Result<(), Status>
    ensures usage { (of_run result ≡ Status.Usage) ↔ (0 < length words.now) }
    ensures says { IfSome (R.left input.old) (λ bytes. Says (of_run result) bytes (K.held output.old) (K.held output.new)) }
    ensures read_fault { of_run result ≡ Status.ReadFault → Rose (R.faults input.old) (R.faults input.new) }
    ensures write_fault { of_run result ≡ Status.WriteFault → Rose (K.faults output.old) (K.faults output.new) }
    ensures untouched { of_run result ≢ Status.Done → of_run result ≢ Status.WriteFault → output.new ≡ output.old }
    ensures unread { of_run result ≡ Status.Usage → input.new ≡ input.old }
    ensures input_never_falls { R.faults input.old ≤ R.faults input.new }
    ensures output_never_falls { K.faults output.old ≤ K.faults output.new }
    ensures keeps { of_run result ≡ Status.Done → IfSome (R.left input.old) (λ bytes. Keeps bytes kept.new) }
    ensures keeps_none { of_run result ≢ Status.Done → kept.new ≡ kept.old }
{
    if !words.is_empty() {
        return Err(Status::Usage);
    }
    let module = taken(rt, alloc, input)?;
    put_least(rt, alloc, module, output, kept)
}

/// Reads one WebAssembly module from `input` up to its end, and puts it on `output` in its least
/// spelling, with the code behind each unconditional branch removed (core specification 3.0, chapters
/// Binary Format, Validation and Execution). On a failure the line of the status is put on `report`.
///
/// The answers, in the order in which they are found: `Usage` exactly where there is a word, and then
/// nothing is read; `ReadFault` only where the source failed; `Limit` with `Size` and 16,777,216
/// exactly where the source gave more bytes than that; `Malformed`, `OutOfProfile` or `Limit` with
/// `Nesting`, with the place, where the bytes spell no module that nests at most 1,000 deep; `Limit`
/// with the first counted limit that the module exceeds, and the count or index there; `Invalid` with
/// the first part that fails; `Limit` with `Output` and 268,435,456 exactly where the output would
/// have more bytes than that; `WriteFault` only where the sink failed, and then it holds a beginning
/// of the output. `NoMemory` comes wherever the allocator refuses. Nothing is put before all bytes of
/// the output were made.
///
/// Code entries are read and written in as many threads as there are processors; where a thread
/// cannot be started, its work is done in this one. The answer does not depend on it.
pub fn wasm_gufa<R: Source, K: Sink, L: Sink>(
    rt: &(impl Threads + Sync),
    alloc: Global,
    words: &[&str],
    input: &mut R,
    output: &mut K,
    report: &mut L,
) -> Status
    ensures usage { (result ≡ Status.Usage) ↔ (0 < length words.now) }
    ensures done { result ≡ Status.Done → IfSome (R.left input.old) (λ bytes. Optimises bytes (K.held output.old) (K.held output.new)) }
    ensures limit { IfLimit result (λ which at. IfSome (R.left input.old) (λ bytes. IsLimit bytes which at)) }
    ensures malformed { IfMalformed result (λ at. IfSome (R.left input.old) (λ bytes. IsMalformed bytes at)) }
    ensures out_of_profile { IfOutOfProfile result (λ at code. IfSome (R.left input.old) (λ bytes. IsOutside bytes at code)) }
    ensures invalid { IfInvalid result (λ part. IfSome (R.left input.old) (λ bytes. IsInvalid bytes part)) }
    ensures read_fault { result ≡ Status.ReadFault → Rose (R.faults input.old) (R.faults input.new) }
    ensures write_fault { result ≡ Status.WriteFault → Rose (K.faults output.old) (K.faults output.new) }
    ensures broken_off { result ≡ Status.WriteFault → IfSome (R.left input.old) (λ bytes. BreaksOff bytes (K.held output.old) (K.held output.new)) }

    // Which answer comes where there is no word and nothing outside failed.
    ensures due { length words.now ≡ 0 → (Rose (R.faults input.old) (R.faults input.new) → ⊥) → (Rose (K.faults output.old) (K.faults output.new) → ⊥) → IfSome (R.left input.old) (λ bytes. IsDue bytes result) }

    ensures unread { result ≡ Status.Usage → input.new ≡ input.old }
    ensures untouched { result ≢ Status.Done → result ≢ Status.WriteFault → output.new ≡ output.old }
    ensures told { IsTold (L.held report.old) (L.held report.new) (L.faults report.old) (L.faults report.new) (line_of result) }
    ensures input_never_falls { R.faults input.old ≤ R.faults input.new }
    ensures output_never_falls { K.faults output.old ≤ K.faults output.new }
    ensures report_never_falls { L.faults report.old ≤ L.faults report.new }
{
    let mut kept = None;
    wasm_gufa_and_keep(rt, alloc, words, input, output, report, &mut kept)
}

/// As `wasm_gufa`, and a module that was written is put into `kept`, for the caller to let go. After any
/// other answer than `Done`, `kept` is as it was. A program that ends next may forget the module: the
/// system takes the memory back at once, and not block by block.
pub fn wasm_gufa_and_keep<R: Source, K: Sink, L: Sink>(
    rt: &(impl Threads + Sync),
    alloc: Global,
    words: &[&str],
    input: &mut R,
    output: &mut K,
    report: &mut L,
    kept: &mut Option<ValidModule>,
) -> Status
    ensures usage { (result ≡ Status.Usage) ↔ (0 < length words.now) }
    ensures done { result ≡ Status.Done → IfSome (R.left input.old) (λ bytes. Optimises bytes (K.held output.old) (K.held output.new)) }
    ensures limit { IfLimit result (λ which at. IfSome (R.left input.old) (λ bytes. IsLimit bytes which at)) }
    ensures malformed { IfMalformed result (λ at. IfSome (R.left input.old) (λ bytes. IsMalformed bytes at)) }
    ensures out_of_profile { IfOutOfProfile result (λ at code. IfSome (R.left input.old) (λ bytes. IsOutside bytes at code)) }
    ensures invalid { IfInvalid result (λ part. IfSome (R.left input.old) (λ bytes. IsInvalid bytes part)) }
    ensures read_fault { result ≡ Status.ReadFault → Rose (R.faults input.old) (R.faults input.new) }
    ensures write_fault { result ≡ Status.WriteFault → Rose (K.faults output.old) (K.faults output.new) }
    ensures broken_off { result ≡ Status.WriteFault → IfSome (R.left input.old) (λ bytes. BreaksOff bytes (K.held output.old) (K.held output.new)) }

    // Which answer comes where there is no word and nothing outside failed.
    ensures due { length words.now ≡ 0 → (Rose (R.faults input.old) (R.faults input.new) → ⊥) → (Rose (K.faults output.old) (K.faults output.new) → ⊥) → IfSome (R.left input.old) (λ bytes. IsDue bytes result) }

    ensures unread { result ≡ Status.Usage → input.new ≡ input.old }
    ensures untouched { result ≢ Status.Done → result ≢ Status.WriteFault → output.new ≡ output.old }
    ensures told { IsTold (L.held report.old) (L.held report.new) (L.faults report.old) (L.faults report.new) (line_of result) }
    ensures input_never_falls { R.faults input.old ≤ R.faults input.new }
    ensures output_never_falls { K.faults output.old ≤ K.faults output.new }
    ensures report_never_falls { L.faults report.old ≤ L.faults report.new }

    // What is kept is the module whose least text was put.
    ensures keeps { result ≡ Status.Done → IfSome (R.left input.old) (λ bytes. Keeps bytes kept.new) }
    ensures keeps_none { result ≢ Status.Done → kept.new ≡ kept.old }
{
    match run(rt, alloc, words, input, output, kept) {
        Ok(()) => Status::Done,
        Err(status) => {
            fault_line(report, &status);
            status
        }
    }
}
