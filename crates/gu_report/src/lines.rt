//! The line that tells a status.

ghost use Rattle.std.specs.Prelude.{◌≡◌, ◌≤◌, ◌++◌, flat_map, OnOk, OnErr};
ghost use Rattle.gu_outside.specs.Outside.{Rose, Appended, PrefixAdded};
ghost use Rattle.gu_report.specs.Lines.{line_of, limit_name, part_name, IsTold, line_text};

use crate::Status;
use crate::hex::HexBuffer;
use gu_model::Part;
use gu_outside::{Failed, Sink, put_all};
use gu_read_parts::Which;
use itoa::Buffer;

/// What stands on the report where the words are none that the program knows.
const USAGE: &str =
    "usage: wasm-gufa [--workers N] [--rounds K] [--report] [--generate S] [--calls] [--allocs] [--unused]\n";

/// Puts the line of a status on the report, which is none for `Done`. It takes no memory. Where the report
/// fails, a beginning of the line stands there.
pub fn fault_line<L: Sink>(report: &mut L, s: &Status)
    ensures told { IsTold (L.held report.old) (L.held report.new) (L.faults report.old) (L.faults report.new) (line_of s.now) }
    ensures never_falls { L.faults report.old ≤ L.faults report.new }
{
    let mut decimal = Buffer::new();
    let mut hex = HexBuffer::new();
    let line = made_line(s, &mut decimal, &mut hex);
    let _ = put_each(
        report,
        &[line.head, line.name, line.link, line.number, line.end],
    );
}

/// Puts texts one behind the other. After `Failed` a beginning of them was put, and not all.
fn put_each<L: Sink>(report: &mut L, pieces: &[&[u8]]) -> Result<(), Failed>
    ensures all { OnOk result (Appended (L.held report.old) (L.held report.new) (flat_map (λ piece. piece.now) pieces.now)) }
    ensures part { OnErr result (PrefixAdded (L.held report.old) (L.held report.new) (flat_map (λ piece. piece.now) pieces.now)) }
    ensures failed { OnErr result (Rose (L.faults report.old) (L.faults report.new)) }
    ensures never_falls { L.faults report.old ≤ L.faults report.new }
{
    for piece in pieces {
        put_all(report, piece)?;
    }
    Ok(())
}

/// A line in its pieces, some of which may be empty.
#[derive(Clone, Copy)]
struct Line<'a> {
    head: &'a [u8],
    name: &'a [u8],
    link: &'a [u8],
    number: &'a [u8],
    end: &'a [u8],
}

impl<'a> Line<'a> {
    /// A line of fixed text.
    fn fixed(text: &'a str) -> Line<'a>
        ensures { line_text result ≡ text.now }
    {
        Line {
            head: text.as_bytes(),
            name: b"",
            link: b"",
            number: b"",
            end: b"",
        }
    }
}

/// The line of a status. The digits of its numbers stand in the buffers.
fn made_line<'a>(s: &Status, decimal: &'a mut Buffer, hex: &'a mut HexBuffer) -> Line<'a>
    ensures { line_text result ≡ line_of s.now }
{
    match *s {
        Status::Done => Line::fixed(""),
        Status::Usage => Line::fixed(USAGE),
        Status::Malformed { at } => Line {
            head: b"wasm-gufa: malformed at ",
            name: b"",
            link: b"",
            number: decimal.format(at).as_bytes(),
            end: b"\n",
        },
        Status::OutOfProfile { at, code } => Line {
            head: b"wasm-gufa: not in profile at ",
            name: decimal.format(at).as_bytes(),
            link: b", code 0x",
            number: hex.format(code),
            end: b"\n",
        },
        Status::Invalid { part } => {
            let (name, number) = part_words(part, decimal);
            Line {
                head: b"wasm-gufa: invalid, ",
                name: name.as_bytes(),
                link: b"",
                number: number.as_bytes(),
                end: b"\n",
            }
        }
        Status::Limit { which, at } => Line {
            head: b"wasm-gufa: limit ",
            name: limit_words(which).as_bytes(),
            link: b" at ",
            number: decimal.format(at).as_bytes(),
            end: b"\n",
        },
        Status::ReadFault => Line::fixed("wasm-gufa: read failed\n"),
        Status::WriteFault => Line::fixed("wasm-gufa: write failed\n"),
        Status::NoMemory => Line::fixed("wasm-gufa: no memory\n"),
    }
}

/// The words that name a part of a module: its kind, and its number where it has one.
fn part_words(part: Part, decimal: &mut Buffer) -> (&'static str, &str)
    ensures { result.0.now ++ result.1.now ≡ part_name part }
{
    match part {
        Part::Ty(i) => ("type ", decimal.format(i)),
        Part::Import(i) => ("import ", decimal.format(i)),
        Part::Func(i) => ("function ", decimal.format(i)),
        Part::Table(i) => ("table ", decimal.format(i)),
        Part::Memory(i) => ("memory ", decimal.format(i)),
        Part::Tag(i) => ("tag ", decimal.format(i)),
        Part::Global(i) => ("global ", decimal.format(i)),
        Part::Export(i) => ("export ", decimal.format(i)),
        Part::Start => ("start", ""),
        Part::Element(i) => ("element ", decimal.format(i)),
        Part::Count => ("data count", ""),
        Part::Code(i) => ("code ", decimal.format(i)),
        Part::DataSeg(i) => ("data ", decimal.format(i)),
    }
}

/// The words that name a limit.
fn limit_words(which: Which) -> &'static str
    ensures { result.now ≡ limit_name which }
{
    match which {
        Which::Size => "size",
        Which::Nesting => "nesting",
        Which::Types => "types",
        Which::Funcs => "functions",
        Which::Globals => "globals",
        Which::Params => "parameters",
        Which::Results => "results",
        Which::Fields => "fields",
        Which::Locals => "locals",
        Which::ModuleLocals => "module locals",
        Which::Depth => "depth",
        Which::Output => "output",
    }
}
