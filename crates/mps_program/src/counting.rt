//! The counts of a server, told by HTTP.

use http1::{BodySize, Event, Header, Limits, Progress, Server};
use httparse::spans::EMPTY_HEADER_SPAN;
use libc::types::timespec;
use mps_watch::{Health, Watch};
use std::alloc::{AllocError, Global};
use std::io::{Read, Write};
use std::net::{TcpListener, TcpStream};
use std::sync::Arc;
use std::time::Duration;

// For how many milliseconds a part of a request is waited for, or for the answer to be taken: others wait meanwhile.
const PATIENCE: u64 = 250;

// How many parts a request may come in.
const PARTS: u64 = 16;

// How many bytes one part has at most.
const PART: usize = 1_024;

// How many nanoseconds are waited after a connection that couldn't be accepted.
const PAUSE: i64 = 100_000_000;

// The reply to what is no request.
const NO_REQUEST: &[u8] =
    b"HTTP/1.1 400 Bad Request\r\ncontent-length: 0\r\nconnection: close\r\n\r\n";

// What is asked for.
#[derive(Clone, Copy, Debug, PartialEq, Eq)]
enum Asked {
    Counts,
    Health,
    // nothing that there is
    Other,
    // by another method than GET
    Otherwise,
}

// What a request asks for.
fn asked_for(method: &[u8], path: &[u8]) -> Asked {
    if method != b"GET".as_slice() {
        return Asked::Otherwise;
    }
    if path == b"/metrics".as_slice() {
        Asked::Counts
    } else if path == b"/health".as_slice() {
        Asked::Health
    } else {
        Asked::Other
    }
}

// A reply: its status, what that is called, and its text.
#[derive(Drop)]
struct Reply {
    status: u16,
    reason: &'static [u8],
    text: Vec<u8>,
}

// The reply of that status with that text.
fn reply_with(
    alloc: Global,
    status: u16,
    reason: &'static [u8],
    text: &[u8],
) -> Result<Reply, AllocError> {
    let mut kept = Vec::new(alloc);
    kept.extend_from_slice(text)?;
    Ok(Reply {
        status,
        reason,
        text: kept,
    })
}

// Appends when the process began to be watched, in seconds since 1970, under the name that all such programs use.
fn write_start(alloc: Global, began: u64, out: &mut Vec<u8>) -> Result<(), AllocError> {
    let name = "process_start_time_seconds";
    let about = "When the process began, in seconds since 1970.";
    let lines = format!(in alloc; "# HELP {name} {about}\n# TYPE {name} gauge\n{name} {began}\n")?;
    out.extend_from_slice(lines.as_bytes())
}

// What is told of that.
fn reply_to(alloc: Global, watch: &Watch, began: u64, asked: Asked) -> Result<Reply, AllocError> {
    match asked {
        Asked::Counts => {
            let mut text = Vec::new(alloc);
            watch.counts.write(alloc, watch.is_ending(), &mut text)?;
            write_start(alloc, began, &mut text)?;
            Ok(Reply {
                status: 200,
                reason: b"OK",
                text,
            })
        }
        Asked::Health => match watch.health() {
            Health::Taken => reply_with(alloc, 200, b"OK", b"ok\n"),
            Health::Starting => reply_with(alloc, 503, b"Service Unavailable", b"starting\n"),
            Health::Ending => reply_with(alloc, 503, b"Service Unavailable", b"ending\n"),
        },
        Asked::Other => reply_with(alloc, 404, b"Not Found", b"/metrics and /health\n"),
        // without a text, since an answer to HEAD has none
        Asked::Otherwise => reply_with(alloc, 405, b"Method Not Allowed", b""),
    }
}

// Reads a request, as far as its head goes: what it asks for, if it is one.
fn request_of(alloc: Global, mut stream: &TcpStream, server: &mut Server) -> Option<Asked> {
    let mut came = Vec::new(alloc);
    let mut piece = [0u8; PART];
    let mut headers = [EMPTY_HEADER_SPAN; 32];
    for _ in 0..PARTS {
        let count = stream.read(&mut piece).ok()?;
        let new = piece.get(..count)?;
        if new.is_empty() {
            return None;
        }
        came.extend_from_slice(new).ok()?;
        match server.read(came.as_slice(), &mut headers) {
            Ok(
                Progress {
                    event: Event::Head(head),
                    ..
                },
            ) => {
                let method = head.method.of(came.as_slice());
                let path = head.path.of(came.as_slice());
                return Some(asked_for(method, path));
            }
            // nothing is consumed before a head but blank lines, which no client sends
            Ok(
                Progress {
                    consumed: 0,
                    event: Event::NeedMore,
                },
            ) => {}
            _ => return None,
        }
    }
    None
}

// The bytes of the reply.
fn response(alloc: Global, server: &mut Server, reply: &Reply) -> Option<Vec<u8>> {
    let headers = [
        Header {
            name: b"content-type",
            value: b"text/plain; version=0.0.4; charset=utf-8",
        },
        Header {
            name: b"connection",
            value: b"close",
        },
        Header {
            name: b"allow",
            value: b"GET",
        },
    ];
    let mut out = Vec::new(alloc);
    let size = BodySize::Known(reply.text.len() as u64);
    let status = reply.status;
    server
        .write_response(&mut out, status, reply.reason, &headers, size)
        .ok()?;
    if !reply.text.is_empty() {
        server.write_data(&mut out, reply.text.as_slice()).ok()?;
    }
    server.write_end(&mut out, &[]).ok()?;
    Some(out)
}

// Answers one request, after which the connection is closed.
fn answer(alloc: Global, mut stream: &TcpStream, watch: &Watch, began: u64) -> Option<()> {
    let patience = Some(Duration::from_millis(PATIENCE));
    stream.set_read_timeout(patience).ok()?;
    stream.set_write_timeout(patience).ok()?;
    let mut server = Server::new(Limits::default());
    let Some(asked) = request_of(alloc, stream, &mut server) else {
        return stream.write_all(NO_REQUEST).ok();
    };
    let reply = reply_to(alloc, watch, began, asked).ok()?;
    let out = response(alloc, &mut server, &reply)?;
    stream.write_all(out.as_slice()).ok()
}

/// Answers requests one after the other, as long as the process lives: `/metrics` with the counts, and `/health` with 200
/// while joins are taken, and 503 before and after. A client has a quarter of a second for each part of its request, of which
/// there may be 16. The process began so many seconds after 1970 began.
pub(crate) fn answer_all(
    alloc: Global,
    listener: TcpListener,
    watch: Arc<Watch, Global>,
    began: u64,
) {
    for _ in 0..u64::MAX {
        match listener.accept() {
            Ok((stream, _)) => {
                let _answered = answer(alloc, &stream, &watch, began);
            }
            Err(_) => {
                let pause = timespec {
                    tv_sec: 0,
                    tv_nsec: PAUSE,
                };
                let mut left = timespec {
                    tv_sec: 0,
                    tv_nsec: 0,
                };
                let _slept = libc::nanosleep(&pause, &mut left);
            }
        }
    }
}
