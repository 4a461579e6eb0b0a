//! Each object once on its way, and a call that fails in mid-stream.

ghost use Rattle.std.specs.Prelude.{◌<◌, length};

use super::*;
use std::io;
use std::io::{Read, Write};
use std::test::Fail;

// Whether one read of at most three bytes gives these.
fn gives<S: Source>(source: &mut S, want: &[u8]) -> bool {
    let mut into = [0u8; 3];
    match source.read(&mut into) {
        Ok(n) => &into[..n] == want,
        Err(Failed) => false,
    }
}

// Whether one read fails.
fn fails<S: Source>(source: &mut S) -> bool {
    source.read(&mut [0u8; 3]).is_err()
}

// How much of a piece one write takes, where it doesn't fail.
fn taken<K: Sink>(sink: &mut K, piece: &[u8]) -> Option<usize>
    requires { 0 < length piece.now }
{
    sink.write(piece).ok()
}

#[test]
fn a_source_in_memory_fails_at_the_second_call_and_goes_on(rt: HostRuntime) -> Result<(), Fail> {
    let bytes = b"hello".to_vec(rt.alloc())?;
    let listed = [2u64].to_vec(rt.alloc())?;
    let mut source = MemSource::new(bytes, 2, listed);
    assert!(rt; gives(&mut source, b"he"));
    assert!(rt; fails(&mut source));
    assert!(rt; gives(&mut source, b"ll"));
    assert!(rt; gives(&mut source, b"o"));
    assert!(rt; gives(&mut source, b""));
    Ok(())
}

#[test]
fn a_sink_in_memory_fails_at_the_second_call_and_goes_on(rt: HostRuntime) -> Result<(), Fail> {
    let mut sink = MemSink::new(rt.alloc(), [2u64].to_vec(rt.alloc())?);
    assert_eq!(rt; sink.reserve(5), Ok(()));
    assert_eq!(rt; taken(&mut sink, b"abc"), Some(3));
    assert_eq!(rt; taken(&mut sink, b"lost"), None);
    assert_eq!(rt; taken(&mut sink, b"de"), Some(2));
    assert_eq!(rt; taken(&mut sink, b"past the room"), Some(13));
    assert_eq!(rt; sink.held(), b"abcdepast the room".as_slice());
    Ok(())
}

// A reader whose second read fails.
#[derive(Drop)]
struct Broken {
    reads: u64,
}

impl Read for Broken {
    fn read(&mut self, buf: &mut [u8]) -> io::Result<usize> {
        self.reads = self.reads.saturating_add(1);
        if self.reads == 2 || buf.is_empty() {
            return Err(io::Error::from(io::ErrorKind::Other));
        }
        buf[0] = b'x';
        Ok(1)
    }
}

#[test]
fn readers_of_std_are_sources(rt: HostRuntime) {
    let mut whole = StdSource::new(b"hello".as_slice());
    assert!(rt; gives(&mut whole, b"hel"));
    assert!(rt; gives(&mut whole, b"lo"));
    assert!(rt; gives(&mut whole, b""));
    let mut broken = StdSource::new(Broken { reads: 0 });
    assert!(rt; gives(&mut broken, b"x"));
    assert!(rt; fails(&mut broken));
    assert!(rt; gives(&mut broken, b"x"));
}

#[test]
fn a_writer_of_std_that_takes_nothing_fails(rt: HostRuntime) {
    let mut room = [0u8; 3];
    let mut sink = StdSink::new(room.as_mut_slice());
    assert_eq!(rt; taken(&mut sink, b"ab"), Some(2));
    assert_eq!(rt; taken(&mut sink, b"cd"), Some(1));
    assert_eq!(rt; taken(&mut sink, b"d"), None);
}

#[test]
fn no_source_gives_nothing(rt: HostRuntime) {
    let mut source = NoSource::new();
    assert!(rt; fails(&mut source));
    assert!(rt; fails(&mut source));
}

#[test]
fn a_command_names_its_files(rt: HostRuntime) {
    let paths = Paths {
        image: Some("disk.img"),
        script: Some("-"),
        front: None,
    };
    assert!(rt; paths != Paths::default());
}

// A writer that takes one byte a call, into five bytes of room.
#[derive(Drop)]
struct Slow {
    room: [u8; 5],
    taken: usize,
}

impl Write for Slow {
    fn write(&mut self, buf: &[u8]) -> io::Result<usize> {
        if buf.is_empty() || self.taken >= 5 {
            return Ok(0);
        }
        self.room[self.taken] = buf[0];
        self.taken += 1;
        Ok(1)
    }

    fn flush(&mut self) -> io::Result<()> {
        Ok(())
    }
}

#[test]
fn bytes_are_handed_out_piece_by_piece(rt: HostRuntime) {
    let mut slow = Slow {
        room: [0; 5],
        taken: 0,
    };
    let mut sink = StdSink::new(&mut slow);
    assert_eq!(rt; write_all(&mut sink, b""), Ok(()));
    assert_eq!(rt; write_all(&mut sink, b"hel"), Ok(()));
    assert_eq!(rt; write_all(&mut sink, b"lo, lost"), Err(Failed));
    drop(sink);
    assert_eq!(rt; &slow.room, b"hello");
}

#[test]
fn a_minus_alone_is_no_option(rt: HostRuntime) {
    assert!(rt; is_option("--format"));
    assert!(rt; is_option("-x"));
    assert!(rt; !is_option("-"));
    assert!(rt; !is_option(""));
    assert!(rt; !is_option("x-y"));
}
