//! mps_hub: a server's connections run in threads of their own, and a gate runs before each of their commands.
ghost use Rattle.std.specs.Prelude.{◌≡◌, false, IfOk};

use mps_base::{Name, Role, Roles, Sort};
use mps_hub::{Gate, Hub, Served, serve_with};
use mps_local::Local;
use mps_room::Room;
use std::alloc::Global;
use std::io::{Read, Write};
use std::net::{Net, Shutdown, SocketAddr, TcpListener, TcpStream};
use std::sync::Wait;
use std::sync::atomic::AtomicU64;
use std::sync::atomic::Ordering::SeqCst;
use std::test::Fail;
use std::thread::{Threads, yield_now};
use std::time::Clock;

// The roles a, b, c and d.
fn four_names(alloc: Global) -> Result<Roles, Fail> {
    let mut all = Vec::new(alloc);
    for text in ["a", "b", "c", "d"] {
        all.push(Name::read(text.as_bytes()).ok_or("a name")?)?;
    }
    Ok(Roles::of(alloc, all.as_slice())?)
}

// a gives b an int, and c gives d one.
fn two_pairs(alloc: Global) -> Result<Vec<Local>, Fail> {
    let mut types = Vec::new(alloc);
    for first in [0, 2] {
        let (giver, taker) = (Role::new(first), Role::new(first + 1));
        types.push(Local::send(alloc, taker, Sort::Int, Local::End)?)?;
        types.push(Local::recv(alloc, giver, Sort::Int, Local::End)?)?;
    }
    Ok(types)
}

// A hub with one session of two pairs.
fn hub_of_pairs(alloc: Global) -> Result<Hub, Fail>
    ensures { IfOk result (λ h. h.given ≡ false) }
{
    let names = four_names(alloc)?;
    let types = two_pairs(alloc)?;
    if names.count() != types.len() {
        return Err("as many names as types".into());
    }
    match Hub::open(alloc, &names, types.as_slice(), 1) {
        Ok(hub) => Ok(hub),
        Err(_) => Err("not opened".into()),
    }
}

// How often the one looks for the other.
const TURNS: u32 = 10_000_000;

// Holds the first command of either connection until the other's has come, for a time.
#[derive(Drop)]
struct Meeting {
    first: AtomicU64,
    second: AtomicU64,
    met: AtomicU64,
}

impl Meeting {
    // Waits for the other, and counts where it came.
    fn wait(&self, other: &AtomicU64) {
        for _ in 0..TURNS {
            if other.load(SeqCst) == 1 {
                self.met.fetch_add(1, SeqCst);
                return;
            }
            yield_now();
        }
    }
}

impl Gate for Meeting {
    fn before(&self, connection: u64, command: u64) {
        if command != 1 {
            return;
        }
        if connection == 1 {
            self.first.store(1, SeqCst);
            self.wait(&self.second);
        } else {
            self.second.store(1, SeqCst);
            self.wait(&self.first);
        }
    }
}

// A connection that sends the lines, and no more.
fn sent<R: Net<Stream = TcpStream>>(
    rt: &R,
    addr: SocketAddr,
    lines: &[u8],
) -> Result<TcpStream, Fail> {
    let mut stream = TcpStream::connect(rt, addr)?;
    stream.write_all(lines)?;
    stream.shutdown(Shutdown::Write)?;
    Ok(stream)
}

// Whether the answers are that it joined, and others of so many bytes, of which the last are these.
fn has_joined(
    alloc: Global,
    mut stream: TcpStream,
    joined: &[u8],
    bytes: usize,
    last: &[u8],
) -> Result<bool, Fail> {
    let mut text = Vec::new(alloc);
    stream.read_to_end(&mut text)?;
    let more = text.len().checked_sub(joined.len());
    Ok(text.starts_with(joined) && text.ends_with(last) && more == Some(bytes))
}

// Whether a server of one session attended to so many connections, which had come before.
fn has_served<R: Clock + Threads + Wait + Eprint + Sync + 'static, G: Gate + Sync + 'static>(
    rt: &R,
    alloc: Global,
    listener: &TcpListener,
    hub: &mut Hub,
    connections: u64,
    gate: &G,
) -> Result<bool, Fail>
    requires { hub.old.given ≡ false }
{
    let deal = hub.deal().ok_or("given")?;
    let desk = hub.desk_of(alloc, deal)?;
    match serve_with(rt, alloc, listener, &desk, connections, gate) {
        Ok(Served { ended, lost }) => Ok(ended == connections && lost == 0),
        Err(_) => Err("not served".into()),
    }
}

// How many entries the journal of the one session has.
fn entries(alloc: Global, hub: Hub) -> Result<u64, Fail> {
    let rooms = hub.close(alloc)?;
    let Some(Some(room)) = rooms.as_slice().first() else {
        return Err("no room".into());
    };
    Ok(Room::entries(room))
}

// What a client sends, and what it is told: that it joined, and so many bytes more, of which the last are these.
type Client = (&'static [u8], &'static [u8], usize, &'static [u8]);

// Connections of the clients, in order.
fn all_sent<R: Net<Stream = TcpStream>>(
    rt: &R,
    alloc: Global,
    addr: SocketAddr,
    clients: &[Client],
) -> Result<Vec<TcpStream>, Fail> {
    let mut streams = Vec::new(alloc);
    for client in clients {
        streams.push(sent(rt, addr, client.0)?)?;
    }
    Ok(streams)
}

// Whether each of them is told what it has to be. One that isn't is the failure.
fn have_joined(alloc: Global, streams: Vec<TcpStream>, clients: &[Client]) -> Result<bool, Fail> {
    for (stream, client) in streams.into_iter().zip(clients) {
        if !has_joined(alloc, stream, client.1, client.2, client.3)? {
            return Err(String::from_utf8_lossy(alloc, client.0)?.into());
        }
    }
    Ok(true)
}

// Whether a server of the hub attends to the clients, which have come before, and tells each what it has to.
fn has_told<
    R: Net<Listener = TcpListener, Stream = TcpStream>
        + Clock
        + Threads
        + Wait
        + Eprint
        + Sync
        + 'static,
    G: Gate + Sync + 'static,
>(rt: &R, alloc: Global, hub: &mut Hub, clients: &[Client], gate: &G) -> Result<bool, Fail>
    requires { hub.old.given ≡ false }
{
    let listener = TcpListener::bind(rt, "127.0.0.1:0")?;
    let streams = all_sent(rt, alloc, listener.local_addr()?, clients)?;
    let count = clients.len() as u64;
    Ok(has_served(rt, alloc, &listener, hub, count, gate)? && have_joined(alloc, streams, clients)?)
}

// How many entries a new session of two pairs has after that.
fn entries_after<
    R: Net<Listener = TcpListener, Stream = TcpStream>
        + Clock
        + Threads
        + Wait
        + Eprint
        + Sync
        + 'static,
    G: Gate + Sync + 'static,
>(rt: &R, alloc: Global, clients: &[Client], gate: &G) -> Result<Option<u64>, Fail> {
    let mut hub = hub_of_pairs(alloc)?;
    if has_told(rt, alloc, &mut hub, clients, gate)? {
        Ok(Some(entries(alloc, hub)?))
    } else {
        Ok(None)
    }
}

// Two clients. Which is first isn't said, so of `done` and a number only the length is known: a digit and an LF.
const TWO: &[Client] = &[
    (b"join 1 a\n1 send b 1\n", b"joined 1 a\ndone ", 2, b"\n"),
    (b"join 1 c\nsend d 2\n", b"joined 1 c\ndone ", 2, b"\n"),
];

// `mps_hub::serve_with` attends to two connections at once: each waits at the gate till the other is there, and both
// are done.
#[test]
fn two_connections_meet_at_the_gate(rt: HostRuntime) -> Result<(), Fail> {
    let gate = Meeting {
        first: AtomicU64::new(0),
        second: AtomicU64::new(0),
        met: AtomicU64::new(0),
    };
    let entries = entries_after(&rt, rt.alloc(), TWO, &gate)?;
    assert_eq!(rt; entries, Some(2), "the entries of both clients");
    assert_eq!(rt; gate.met.load(SeqCst), 2, "the connections that have met");
    Ok(())
}

// Holds the commands of the first two connections until the other two have come to their second one, for a time.
#[derive(Drop)]
struct Order {
    sent: AtomicU64,
}

impl Gate for Order {
    fn before(&self, connection: u64, command: u64) {
        if connection > 2 {
            if command == 2 {
                self.sent.fetch_add(1, SeqCst);
            }
            return;
        }
        for _ in 0..TURNS {
            if self.sent.load(SeqCst) == 2 {
                return;
            }
            yield_now();
        }
    }
}

// Four clients. The numbers of steps aren't known: `done` goes on with a digit, a space, the value and an LF, which are
// 4 bytes, or with a digit and `refused nostep`, which with their LFs are 17.
const FOUR: &[Client] = &[
    (b"join 1 b\nrecv a x\n", b"joined 1 b\ndone ", 4, b" 1\n"),
    (b"join 1 d\nrecv c x\n", b"joined 1 d\ndone ", 4, b" 2\n"),
    (
        b"join 1 a\nsend b 1\nundo 9\n",
        b"joined 1 a\ndone ",
        17,
        b"\nrefused nostep\n",
    ),
    (
        b"join 1 c\nsend d 2\nundo 9\n",
        b"joined 1 c\ndone ",
        17,
        b"\nrefused nostep\n",
    ),
];

// `mps_hub::serve_with` attends to four connections at once: b and d come first, and are held till what they receive is
// sent.
#[test]
fn four_clients_share_a_session(rt: HostRuntime) -> Result<(), Fail> {
    let gate = Order {
        sent: AtomicU64::new(0),
    };
    let entries = entries_after(&rt, rt.alloc(), FOUR, &gate)?;
    assert_eq!(rt; entries, Some(4), "the entries of all four clients");
    Ok(())
}
