//! mps_dev: sources and sinks give and take their bytes, fail from the call on that they should, and ask std once.
ghost use Rattle.std.specs.Prelude.{◌+◌, ◌^◌, ◌<◌, ◌≤◌, take, IfOk};
ghost use Rattle.std.specs.Io.KnownBytes.{Appends, Consumes};

use mps_dev::*;
use std::alloc::{AllocError, Global};
use std::io::{self, ErrorKind, Read, Write};
use std::test::Fail;

// What up to ten reads of at most four bytes give, until the end or a failure, and whether that was
// a failure.
fn drained<S: Source>(alloc: Global, source: &mut S) -> Result<(Vec<u8>, bool), AllocError>
    requires { S.calls source.old < 2 ^ 62 }
    ensures calls { S.calls source.new ≤ S.calls source.old + 10 }
    ensures bytes { IfOk result (λ r.
        Consumes (S.remaining source.old) (S.remaining source.new) r.0.items) }
{
    let mut bytes = Vec::new(alloc);
    for _turn in 0..10u8 {
        let mut buf = [0; 4];
        match source.read(&mut buf) {
            Ok(0) => return Ok((bytes, false)),
            Ok(n) => bytes.extend_from_slice(&buf[..n])?,
            Err(Failed) => return Ok((bytes, true)),
        }
    }
    Ok((bytes, false))
}

// How many of the bytes up to ten writes hand over, until a failure.
fn handed_over<K: Sink>(sink: &mut K, bytes: &[u8]) -> usize
    requires { K.failed_calls sink.old < 2 ^ 62 }
    ensures bytes { Appends (K.taken sink.old) (K.taken sink.new) (take result bytes.now) }
{
    let mut at = 0;
    for _turn in 0..10u8 {
        match sink.write(&bytes[at..]) {
            Ok(n) => at += n,
            Err(Failed) => return at,
        }
    }
    at
}

// A device that fails once, by an error of this kind, and counts its calls. As a reader it then
// gives two bytes and ends, as a writer it then takes what comes.
#[derive(Drop)]
struct FailsOnce {
    kind: ErrorKind,
    calls: u8,
}

impl FailsOnce {
    fn new(kind: ErrorKind) -> Self {
        FailsOnce { kind, calls: 0 }
    }
}

impl Read for FailsOnce {
    fn read(&mut self, buf: &mut [u8]) -> io::Result<usize> {
        self.calls = self.calls.saturating_add(1);
        match self.calls {
            1 => Err(self.kind.into()),
            2 if buf.len() >= 2 => {
                buf[0] = 8;
                buf[1] = 9;
                Ok(2)
            }
            _ => Ok(0),
        }
    }
}

impl Write for FailsOnce {
    fn write(&mut self, buf: &[u8]) -> io::Result<usize> {
        self.calls = self.calls.saturating_add(1);
        match self.calls {
            1 => Err(self.kind.into()),
            _ => Ok(buf.len()),
        }
    }

    fn flush(&mut self) -> io::Result<()> {
        Ok(())
    }
}

// Kinds of errors, of which std's own loops ask again after the first.
const KINDS: [ErrorKind; 3] = [
    ErrorKind::Interrupted,
    ErrorKind::ConnectionReset,
    ErrorKind::Other,
];

// A writer that counts its calls. It has room for so many bytes, and once it is full it fails by
// this error, or takes nothing where there is none.
#[derive(Drop)]
struct Stuck {
    room: usize,
    error: Option<ErrorKind>,
    calls: u8,
}

impl Stuck {
    fn new(room: usize, error: Option<ErrorKind>) -> Self {
        Stuck {
            room,
            error,
            calls: 0,
        }
    }
}

impl Write for Stuck {
    fn write(&mut self, buf: &[u8]) -> io::Result<usize> {
        self.calls = self.calls.saturating_add(1);
        let count = self.room.min(buf.len());
        self.room -= count;
        match self.error {
            Some(kind) if count == 0 => Err(kind.into()),
            _ => Ok(count),
        }
    }

    fn flush(&mut self) -> io::Result<()> {
        Ok(())
    }
}

// Three pieces: the bytes 1 and 2, no byte, and the byte 3.
fn three_pieces(alloc: Global) -> Result<Vec<Vec<u8>>, AllocError> {
    Ok(vec![in alloc; vec![in alloc; 1, 2]?, vec![in alloc]?, vec![in alloc; 3]?]?)
}

// `mps_dev::Pieces` gives bytes of one piece alone in a read, passes over an empty one, and gives 0 at the end.
#[test]
fn a_read_gives_bytes_of_one_piece_alone(rt: HostRuntime) -> Result<(), Fail> {
    let mut source = Pieces::new(three_pieces(rt.alloc())?, None);
    let mut buf = [0; 4];
    assert_eq!(rt; source.read(&mut buf), Ok(2), "the first piece");
    assert_eq!(rt; source.read(&mut buf), Ok(1), "past the empty piece");
    // the 3 stands in front of the 2 of the read before
    assert_eq!(rt; buf, [3, 2, 0, 0], "the last piece");
    assert_eq!(rt; source.read(&mut buf), Ok(0), "the end");
    Ok(())
}

// `mps_dev::Pieces` gives one byte in a read with room for one. With room for none it gives 0, which isn't the end.
#[test]
fn a_piece_is_given_in_parts(rt: HostRuntime) -> Result<(), Fail> {
    let mut source = Pieces::new(three_pieces(rt.alloc())?, None);
    let mut buf = [0; 1];
    assert_eq!(rt; source.read(&mut []), Ok(0), "no room");
    for byte in [1, 2, 3] {
        assert_eq!(rt; source.read(&mut buf), Ok(1), "byte {byte}");
        assert_eq!(rt; buf, [byte], "byte {byte}");
    }
    assert_eq!(rt; source.read(&mut buf), Ok(0), "the end");
    Ok(())
}

// `mps_dev::Pieces` with `Some(2)` fails at the second read, and at each one after it: only the first piece comes.
#[test]
fn each_read_from_the_second_on_fails(rt: HostRuntime) -> Result<(), Fail> {
    let mut source = Pieces::new(three_pieces(rt.alloc())?, Some(2));
    let (bytes, failed) = drained(rt.alloc(), &mut source)?;
    assert_eq!(rt;
        bytes.as_slice(),
        [1, 2].as_slice(),
        "the first piece alone"
    );
    assert!(rt; failed, "the second read fails");
    Ok(())
}

// `mps_dev::Short::new(3)` takes 3 of 5 bytes, and then fails where bytes come. One with room for 9 takes all 5.
#[test]
fn a_short_sink_fails_when_full(rt: HostRuntime) -> Result<(), Fail> {
    let mut sink = Short::new(rt.alloc(), 3)?;
    assert_eq!(rt; sink.write(&[5, 6, 7, 8, 9]), Ok(3), "3 of 5 bytes fit");
    assert_eq!(rt; sink.write(&[8, 9]), Err(Failed), "it is full");
    assert_eq!(rt; sink.write(&[]), Ok(0), "no byte fits always");
    assert_eq!(rt; sink.bytes(), [5, 6, 7].as_slice(), "the bytes that fit");
    let mut larger = Short::new(rt.alloc(), 9)?;
    assert_eq!(rt;
        handed_over(&mut larger, &[5, 6, 7, 8, 9]),
        5,
        "all 5 fit into 9"
    );
    Ok(())
}

// `mps_dev::Discard` takes as many bytes as come, also none, and never fails.
#[test]
fn a_sink_that_keeps_nothing_takes_all(rt: HostRuntime) {
    assert_eq!(rt; Discard.write(&[5, 6, 7]), Ok(3), "3 bytes");
    assert_eq!(rt; Discard.write(&[]), Ok(0), "no byte");
    assert_eq!(rt; handed_over(&mut Discard, &[5, 6, 7, 8]), 4, "4 bytes");
}

// `mps_dev::OverRead` gives the bytes of std's reader, here in reads of at most 4, and then the reader back, which is
// empty.
#[test]
fn a_reader_of_std_is_read_to_its_end(rt: HostRuntime) -> Result<(), Fail> {
    let text = [1u8, 2, 3, 4, 5];
    let mut source = OverRead::new(text.as_slice());
    let (bytes, failed) = drained(rt.alloc(), &mut source)?;
    assert_eq!(rt; bytes.as_slice(), text.as_slice(), "all bytes in order");
    assert!(rt; !failed, "no read fails");
    assert!(rt;
        source.into_inner().is_empty(),
        "the reader is read to its end"
    );
    Ok(())
}

// `mps_dev::OverWrite` hands all bytes to std's writer. Where the writer takes none of some bytes, that is a failure.
#[test]
fn a_writer_of_std_gets_all_bytes(rt: HostRuntime) -> Result<(), Fail> {
    let mut sink = OverWrite::new(Vec::new(rt.alloc()));
    assert_eq!(rt; handed_over(&mut sink, &[5, 6, 7]), 3, "3 bytes");
    assert_eq!(rt;
        sink.into_inner().as_slice(),
        [5, 6, 7].as_slice(),
        "the bytes in order"
    );

    let mut stuck = OverWrite::new(Stuck::new(0, None));
    assert_eq!(rt; stuck.write(&[1]), Err(Failed), "a writer that takes none");
    assert_eq!(rt; stuck.write(&[]), Ok(0), "no byte is no failure");
    Ok(())
}

// `mps_dev::OverRead` makes one read of its reader in a read: after an error of any kind the reader was asked once
// (`calls`).
#[test]
fn a_failed_read_is_not_asked_again(rt: HostRuntime) -> Result<(), Fail> {
    for kind in KINDS {
        let mut buf = [0; 4];
        let mut once = OverRead::new(FailsOnce::new(kind));
        assert_eq!(rt;
            once.read(&mut buf),
            Err(Failed),
            "the first read, {kind:?}"
        );
        assert_eq!(rt;
            once.into_inner().calls,
            1,
            "the calls of one read, {kind:?}"
        );

        // three calls: one that fails, one that gives the bytes 8 and 9, and one that finds the end
        let mut source = OverRead::new(FailsOnce::new(kind));
        assert_eq!(rt;
            source.read(&mut buf),
            Err(Failed),
            "the first of three reads, {kind:?}"
        );
        assert_eq!(rt;
            source.read(&mut buf),
            Ok(2),
            "the second of three reads, {kind:?}"
        );
        assert_eq!(rt; buf, [8, 9, 0, 0], "the bytes of the second read, {kind:?}");
        assert_eq!(rt;
            source.read(&mut buf),
            Ok(0),
            "the third of three reads, {kind:?}"
        );
        assert_eq!(rt;
            source.into_inner().calls,
            3,
            "the calls of three reads, {kind:?}"
        );
    }
    Ok(())
}

// `mps_dev::OverWrite` makes one write to its writer in a write: after an error it was asked once, and after one more
// write twice.
#[test]
fn a_failed_write_is_not_asked_again(rt: HostRuntime) -> Result<(), Fail> {
    for kind in KINDS {
        let mut once = OverWrite::new(FailsOnce::new(kind));
        assert_eq!(rt;
            once.write(&[5, 6]),
            Err(Failed),
            "the first write, {kind:?}"
        );
        assert_eq!(rt;
            once.into_inner().calls,
            1,
            "the calls of one write, {kind:?}"
        );

        let mut sink = OverWrite::new(FailsOnce::new(kind));
        assert_eq!(rt;
            sink.write(&[5, 6]),
            Err(Failed),
            "the first of two writes, {kind:?}"
        );
        assert_eq!(rt;
            sink.write(&[5, 6]),
            Ok(2),
            "the second of two writes, {kind:?}"
        );
        assert_eq!(rt;
            sink.into_inner().calls,
            2,
            "the calls of two writes, {kind:?}"
        );
    }
    Ok(())
}

// `mps_dev::OverWrite` asks a writer that takes no byte once, and that counts as a failure.
#[test]
fn a_stuck_writer_is_not_asked_again(rt: HostRuntime) -> Result<(), Fail> {
    let mut stuck = OverWrite::new(Stuck::new(0, None));
    assert_eq!(rt; stuck.write(&[5]), Err(Failed), "it counts as a failure");
    assert_eq!(rt; stuck.into_inner().calls, 1, "it was asked once");
    Ok(())
}

// `mps_dev::OverWrite` asks a writer once to take two bytes, and it takes one. The next write is one call too, and
// fails.
#[test]
fn a_short_write_is_not_asked_again(rt: HostRuntime) -> Result<(), Fail> {
    for error in [None, Some(ErrorKind::Interrupted), Some(ErrorKind::Other)] {
        let mut once = OverWrite::new(Stuck::new(1, error));
        assert_eq!(rt;
            once.write(&[5, 6]),
            Ok(1),
            "the one write, before {error:?}"
        );
        assert_eq!(rt;
            once.into_inner().calls,
            1,
            "the calls of one write, before {error:?}"
        );

        let mut sink = OverWrite::new(Stuck::new(1, error));
        assert_eq!(rt;
            sink.write(&[5, 6]),
            Ok(1),
            "the first of two writes, before {error:?}"
        );
        assert_eq!(rt;
            sink.write(&[6]),
            Err(Failed),
            "the second of two writes, with {error:?}"
        );
        assert_eq!(rt;
            sink.into_inner().calls,
            2,
            "the calls of two writes, with {error:?}"
        );
    }
    Ok(())
}
