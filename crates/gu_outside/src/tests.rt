//! What no clause says: that calls succeed with ample memory, and that the adapters count what a reader
//! or writer of std answers.

use crate::{
    Failed, MemSink, MemSource, ReadError, Sink, Source, StdSink, StdSource, SureSink, SureSource,
    put_all, read_to_limit,
};
use std::io::{self, ErrorKind, Read, Write};
use std::test::Fail;

const LETTERS: &[u8; 20] = b"abcdefghijklmnopqrst";

/// Takes through the bound, as the product does.
fn taken<R: Source>(source: &mut R, into: &mut [u8]) -> Result<usize, Failed> {
    source.take(into)
}

/// Puts through the bound, as the product does.
fn put<K: Sink>(sink: &mut K, piece: &[u8]) -> Result<usize, Failed> {
    sink.put(piece)
}

#[test]
fn source_in_memory_fails_at_its_second_take(rt: HostRuntime) -> Result<(), Fail> {
    let bytes = Vec::from_slice(rt.alloc(), LETTERS)?;
    let fails = Vec::from_slice(rt.alloc(), &[2])?;
    let mut source = MemSource::new(bytes, fails, 8);
    let mut into = [0u8; 16];

    assert_eq!(rt; taken(&mut source, &mut into), Ok(8));
    assert_eq!(rt; into, *b"abcdefgh\0\0\0\0\0\0\0\0");
    assert_eq!(rt; taken(&mut source, &mut into), Err(Failed));
    assert_eq!(rt; source.left(), b"ijklmnopqrst".as_slice());
    assert_eq!(rt; taken(&mut source, &mut into), Ok(8));
    assert_eq!(rt; into, *b"ijklmnop\0\0\0\0\0\0\0\0");
    assert_eq!(rt; taken(&mut source, &mut into), Ok(4));
    assert_eq!(rt; taken(&mut source, &mut into), Ok(0));
    Ok(())
}

#[test]
fn sink_in_memory_fails_at_its_second_put_and_past_its_room(rt: HostRuntime) -> Result<(), Fail> {
    let fails = Vec::from_slice(rt.alloc(), &[2])?;
    let mut sink = MemSink::new(rt.alloc(), fails, 10);
    sink.reserve(15)?;

    assert_eq!(rt; put(&mut sink, LETTERS), Ok(10));
    assert_eq!(rt; put(&mut sink, b"klmnopqrst"), Err(Failed));
    assert_eq!(rt; put(&mut sink, b"klmnopqrst"), Err(Failed));
    assert_eq!(rt; put(&mut sink, b"klmno"), Ok(5));
    assert_eq!(rt; sink.as_slice(), b"abcdefghijklmno".as_slice());
    Ok(())
}

#[test]
fn sure_objects_do_all_that_is_asked(rt: HostRuntime) -> Result<(), Fail> {
    let mut source = SureSource::new(Vec::from_slice(rt.alloc(), LETTERS)?);
    let mut into = [0u8; 16];
    assert_eq!(rt; taken(&mut source, &mut into), Ok(16));
    assert_eq!(rt; into, *b"abcdefghijklmnop");
    assert_eq!(rt; taken(&mut source, &mut into), Ok(4));
    assert_eq!(rt; put(&mut SureSink::new(), LETTERS), Ok(20));
    Ok(())
}

#[test]
fn read_to_limit_gives_all_or_says_why(rt: HostRuntime) -> Result<(), Fail> {
    let bytes = Vec::from_slice(rt.alloc(), LETTERS)?;
    let mut source = MemSource::new(bytes, Vec::new(rt.alloc()), 8);
    let read = read_to_limit(rt.alloc(), &mut source, 20).expect(&rt, "ample memory");
    assert_eq!(rt; read.as_slice(), LETTERS.as_slice());

    let bytes = Vec::from_slice(rt.alloc(), LETTERS)?;
    let mut source = MemSource::new(bytes, Vec::new(rt.alloc()), 8);
    let refused = read_to_limit(rt.alloc(), &mut source, 19).err();
    assert_eq!(rt; refused, Some(ReadError::TooLong));

    let bytes = Vec::from_slice(rt.alloc(), LETTERS)?;
    let mut source = MemSource::new(bytes, Vec::from_slice(rt.alloc(), &[2])?, 8);
    let refused = read_to_limit(rt.alloc(), &mut source, usize::MAX).err();
    assert_eq!(rt; refused, Some(ReadError::Fault));
    Ok(())
}

#[test]
fn put_all_puts_all_or_a_beginning(rt: HostRuntime) -> Result<(), Fail> {
    let mut sink = MemSink::new(rt.alloc(), Vec::new(rt.alloc()), 8);
    sink.reserve(20)?;
    assert_eq!(rt; put_all(&mut sink, LETTERS), Ok(()));
    assert_eq!(rt; sink.as_slice(), LETTERS.as_slice());

    let mut sink = MemSink::new(rt.alloc(), Vec::from_slice(rt.alloc(), &[3])?, 8);
    sink.reserve(20)?;
    assert_eq!(rt; put_all(&mut sink, LETTERS), Err(Failed));
    assert_eq!(rt; sink.as_slice(), b"abcdefghijklmnop".as_slice());
    Ok(())
}

/// A reader that gives a letter a call, but an error at its second call.
#[derive(Drop)]
struct Faltering {
    calls: u8,
}

impl Read for Faltering {
    fn read(&mut self, buf: &mut [u8]) -> io::Result<usize> {
        self.calls = self.calls.saturating_add(1);
        if self.calls == 2 {
            return Err(ErrorKind::Interrupted.into());
        }
        match buf.first_mut() {
            Some(first) => {
                *first = b'x';
                Ok(1)
            }
            None => Ok(0),
        }
    }
}

#[test]
fn std_source_fails_where_its_reader_does(rt: HostRuntime) -> Result<(), Fail> {
    let mut source = StdSource::new(Faltering { calls: 0 });
    let mut into = [0u8; 4];
    assert_eq!(rt; taken(&mut source, &mut into), Ok(1));
    assert_eq!(rt; into, *b"x\0\0\0");
    assert_eq!(rt; taken(&mut source, &mut into), Err(Failed));
    assert_eq!(rt; taken(&mut source, &mut into), Ok(1));
    Ok(())
}

/// A writer that takes half of each piece.
#[derive(Drop)]
struct Halving;

impl Write for Halving {
    fn write(&mut self, buf: &[u8]) -> io::Result<usize> {
        Ok(buf.len() / 2)
    }

    fn flush(&mut self) -> io::Result<()> {
        Ok(())
    }
}

#[test]
fn std_sink_fails_where_its_writer_takes_nothing(rt: HostRuntime) -> Result<(), Fail> {
    let mut sink = StdSink::new(Halving);
    assert_eq!(rt; put(&mut sink, LETTERS), Ok(10));
    assert_eq!(rt; put(&mut sink, b"a"), Err(Failed));
    assert_eq!(rt; put(&mut sink, b""), Ok(0));
    Ok(())
}
