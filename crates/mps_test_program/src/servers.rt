//! mps_program (`serve_to`), mps_hub: a server answers a client over a socket, then tells how long its journals are.

use mps_dev::{Pieces, Short};
use mps_hub::{Hub, Limits};
use mps_open::Merging;
use mps_program::{Entrance, load_opening, rooms_of, serve_to};
use std::alloc::Global;
use std::fs::File;
use std::io::{Read, Write};
use std::net::{Net, Shutdown, SocketAddr, TcpListener, TcpStream};
use std::process::Abort;
use std::rt::Files;
use std::sync::Wait;
use std::test::Fail;
use std::thread::{Threads, join};
use std::time::{Clock, Duration};
use std::{io, thread};

// a gives b an int, and b gives c one.
const RELAY: &[u8] = b"roles a b c ; a -> b : int . b -> c : int . end";

// a gives b an int, b gives c one, and c tells a `ok` or `no`.
const VERDICT: &[u8] =
    b"roles a b c ; a -> b : int . b -> c : int . c -> a { ok : end , no : end }";

// One connection, which may be silent as long as it likes.
const ONE: Limits = Limits {
    connections: Some(1),
    idle: None,
    strict: false,
    share: None,
};

// What a server of so many sessions of the protocol writes, where one client comes. The first session has that number.
fn written<R>(
    rt: &R,
    port: u16,
    protocol: &[u8],
    first: u64,
    sessions: u64,
) -> Result<Vec<u8>, Fail>
where
    R: Files<File = File>
        + AllocGlobal
        + Eprint
        + Net<Listener = TcpListener, Stream = TcpStream>
        + Clock
        + Threads
        + Wait
        + Sync
        + 'static,
{
    if first > 1 << 63 || sessions == 0 || sessions > 16 {
        return Err("1 to 16 sessions".into());
    }
    let alloc = rt.alloc();
    let text = vec![in alloc; Vec::from_slice(alloc, protocol)?]?;
    let mut writer = Short::new(alloc, 100)?;
    let Ok(opening) = load_opening(alloc, Merging::Plain, &mut Pieces::new(text, None)) else {
        return Err("a protocol".into());
    };
    let rooms = rooms_of(alloc, &opening, sessions)?;
    let Ok(hub) = Hub::of_restored(alloc, &opening.roles, first, rooms) else {
        return Err("no hub".into());
    };
    match serve_to(
        rt,
        &mut writer,
        hub,
        Vec::new(alloc),
        Entrance::at(port),
        ONE,
        false,
        None,
    ) {
        Ok(()) => Ok(Vec::from_slice(alloc, writer.bytes())?),
        Err(_) => Err("a fault".into()),
    }
}

// A connection to the port, once somebody listens there.
fn connected<R: Net<Stream = TcpStream> + Clock>(
    rt: &R,
    addr: SocketAddr,
) -> io::Result<TcpStream> {
    // for ten seconds at least
    for _ in 0..2_000 {
        if let Ok(stream) = TcpStream::connect(rt, addr) {
            return Ok(stream);
        }
        thread::sleep(rt, Duration::from_millis(5));
    }
    TcpStream::connect(rt, addr)
}

// What the client is answered to these lines.
fn answered<R: Net<Stream = TcpStream> + Clock>(
    rt: &R,
    alloc: Global,
    addr: SocketAddr,
    lines: &[u8],
) -> io::Result<Vec<u8>> {
    let mut stream = connected(rt, addr)?;
    stream.write_all(lines)?;
    stream.shutdown(Shutdown::Write)?;
    let mut text = Vec::new(alloc);
    stream.read_to_end(&mut text)?;
    Ok(text)
}

// A port that is free.
fn free_port<R: Net<Listener = TcpListener, Stream = TcpStream>>(rt: &R) -> io::Result<SocketAddr> {
    TcpListener::bind(rt, "127.0.0.1:0")?.local_addr()
}

// `mps_program::serve_to`: a server of two sessions tells its port, and once its one client, of session 2, has gone the
// length of each journal: 0, and 1 for the accepted send.
#[test]
fn a_server_tells_its_port_and_the_lengths_of_its_journals(rt: HostRuntime) -> Result<(), Fail> {
    let alloc = rt.alloc();
    let addr = free_port(&rt)?;
    let (lines, answers) = join(
        &rt,
        || written(&rt, addr.port(), RELAY, 1, 2),
        || answered(&rt, alloc, addr, b"join 2 a\nsend b 5\nsend b 6\n"),
    );
    let lines = lines?;
    let answers = answers?;
    assert_eq!(rt;
        answers.as_slice(),
        b"joined 2 a\ndone 1\nrefused ended\n".as_slice(),
        "what the client is answered"
    );
    assert!(rt; lines.starts_with(b"listening "), "the port is told first");
    assert!(rt;
        lines.ends_with(b"\nsession 1 0\nsession 2 1\n"),
        "the length of each journal"
    );
    Ok(())
}

// `mps_program::serve_to` numbers sessions from 2^63 (`1 << 63`), 9223372036854775808, the greatest first number. The
// next session has the next one.
#[test]
fn sessions_are_numbered_from_the_greatest_first_number(rt: HostRuntime) -> Result<(), Fail> {
    let alloc = rt.alloc();
    let addr = free_port(&rt)?;
    let (lines, answers) = join(
        &rt,
        || written(&rt, addr.port(), RELAY, 1 << 63, 2),
        || answered(&rt, alloc, addr, b"join 9223372036854775809 a\nmark m\n"),
    );
    let lines = lines?;
    let answers = answers?;
    assert_eq!(rt;
        answers.as_slice(),
        b"joined 9223372036854775809 a\ndone 1\n".as_slice(),
        "what the client is answered"
    );
    assert!(rt;
        lines.ends_with(b"\nsession 9223372036854775808 0\nsession 9223372036854775809 1\n"),
        "the numbers of the two sessions"
    );
    Ok(())
}

// Three of a's commands are accepted. Those that are refused don't count, nor does the question.
const COUNTED: &[u8] = b"join 1 a\nsend b 5\nsend b 6\nundo 1\nnews 0\nundo 1\nsend b 7\n";

const ANSWERS: &[u8] =
    b"joined 1 a\ndone 1\nrefused wrongact\nundone 1\nnews 2\nrefused nostep\ndone 2\n";

// `mps_program::serve_to` tells the length of a journal, which has an entry for each change that was accepted, 3 of
// these 6 lines.
#[test]
fn a_journal_has_an_entry_for_each_accepted_change(rt: HostRuntime) -> Result<(), Fail> {
    let alloc = rt.alloc();
    let addr = free_port(&rt)?;
    let (lines, answers) = join(
        &rt,
        || written(&rt, addr.port(), VERDICT, 1, 1),
        || answered(&rt, alloc, addr, COUNTED),
    );
    let lines = lines?;
    let answers = answers?;
    assert_eq!(rt; answers.as_slice(), ANSWERS, "what the client is answered");
    let wanted = format!(in alloc; "listening {}\nsession 1 3\n", addr.port())?;
    assert_eq!(rt;
        lines.as_slice(),
        wanted.as_bytes(),
        "the port and the length of the journal"
    );
    Ok(())
}
