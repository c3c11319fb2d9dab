//! mps_words: the words of a call become an order, or are refused.

use mps_program::{ToolFault, status};
use mps_words::order;
use std::alloc::{AllocError, Global};
use std::test::Fail;

// What the words are read as, or the status of the fault.
fn ordered(alloc: Global, words: &[&str]) -> Result<String, AllocError> {
    match order(alloc, words) {
        Ok(order) => format!(in alloc; "{order:?}"),
        Err(fault) => format!(in alloc; "{}", status(&ToolFault::from(fault))),
    }
}

// Words, and what they are read as begins with: an order as it is shown (`Debug`), or the status 2 of a fault of use.
struct Words(&'static [&'static str], &'static str);

const ORDERS: &[Words] = &[
    // tasks without a network, each with its files
    Words(
        &["mps_tool", "run", "a.protocol", "a.script"],
        "Offline { task: Run { file: ProtocolFile { name: \"a.protocol\", merging: Plain }, script: \"a.script\", strict: false }, verbose: false }",
    ),
    Words(
        &["mps_tool", "run", "--strict", "a.protocol", "-"],
        "Offline { task: Run { file: ProtocolFile { name: \"a.protocol\", merging: Plain }, script: \"-\", strict: true }, verbose: false }",
    ),
    Words(
        &["mps_tool", "same", "a.protocol", "a.script", "b.script"],
        "Offline { task: Same { file: ProtocolFile { name: \"a.protocol\", merging: Plain }, first: \"a.script\", second: \"b.script\" }, verbose: false }",
    ),
    Words(
        &["mps_tool", "check", "a.protocol"],
        "Offline { task: Check { file: ProtocolFile { name: \"a.protocol\", merging: Plain } }, verbose: false }",
    ),
    // a server: which connections it accepts, and where it records
    Words(
        &[
            "mps_tool",
            "serve",
            "a.protocol",
            "--port=0",
            "--sessions=2",
            "--endless",
        ],
        "Serve { file: ProtocolFile { name: \"a.protocol\", merging: Plain }, port: 0, sessions: 2, first: 1, connections: None, idle: None, wait: None, share: 100, journal: None, watched: Watched { log: None, metrics: None, drain: false }, listener: None, verbose: false }",
    ),
    Words(
        &[
            "mps_tool",
            "serve",
            "a.protocol",
            "--port=0",
            "--sessions=2",
            "--connections=3",
            "-v",
        ],
        "Serve { file: ProtocolFile { name: \"a.protocol\", merging: Plain }, port: 0, sessions: 2, first: 1, connections: Some(3), idle: None, wait: None, share: 100, journal: None, watched: Watched { log: None, metrics: None, drain: false }, listener: None, verbose: true }",
    ),
    Words(
        &[
            "mps_tool",
            "serve",
            "a.protocol",
            "--port=0",
            "--sessions=2",
            "--journal=kept",
        ],
        "Serve { file: ProtocolFile { name: \"a.protocol\", merging: Plain }, port: 0, sessions: 2, first: 1, connections: None, idle: None, ",
    ),
    // which connections it accepts is said in one way, unless it has a journal
    Words(
        &[
            "mps_tool",
            "serve",
            "a.protocol",
            "--port=0",
            "--sessions=2",
        ],
        "2",
    ),
    Words(
        &[
            "mps_tool",
            "serve",
            "a.protocol",
            "--port=0",
            "--sessions=2",
            "--connections=3",
            "--endless",
        ],
        "2",
    ),
    // `-v` may stand anywhere, and more than once
    Words(
        &["mps_tool", "-v", "check", "a.protocol"],
        "Offline { task: Check { file: ProtocolFile { name: \"a.protocol\", merging: Plain } }, verbose: true }",
    ),
    Words(
        &["mps_tool", "check", "--verbose", "a.protocol"],
        "Offline { task: Check { file: ProtocolFile { name: \"a.protocol\", merging: Plain } }, verbose: true }",
    ),
    Words(
        &[
            "mps_tool",
            "-v",
            "-v",
            "check",
            "-vv",
            "a.protocol",
            "--verbose",
        ],
        "Offline { task: Check { file: ProtocolFile { name: \"a.protocol\", merging: Plain } }, verbose: true }",
    ),
    // the greatest number of a first session, 2^63
    Words(
        &[
            "mps_tool",
            "serve",
            "a.protocol",
            "--port=0",
            "--sessions=2",
            "--first=9223372036854775808",
            "--endless",
        ],
        "Serve { file: ProtocolFile { name: \"a.protocol\", merging: Plain }, port: 0, sessions: 2, first: 9223372036854775808, ",
    ),
    // a host: how many sessions are open, and, where they are recorded, for how long
    Words(
        &["mps_tool", "host", "a.protocol", "--port=0"],
        "Host { file: ProtocolFile { name: \"a.protocol\", merging: Plain }, port: 0, open: 10000, keep: 10, idle: None, wait: None, share: 50, journal: None, watched: Watched { log: None, metrics: None, drain: false }, listener: None, verbose: false }",
    ),
    Words(
        &[
            "mps_tool",
            "host",
            "a.protocol",
            "--port=0",
            "--journal=kept",
            "--keep=3",
            "--open=1048576",
        ],
        "Host { file: ProtocolFile { name: \"a.protocol\", merging: Plain }, port: 0, open: 1048576, keep: 3, idle: None, wait: None, share: 50, journal: Some(",
    ),
    Words(&["mps_tool", "host", "a.protocol"], "2"),
    Words(
        &["mps_tool", "host", "a.protocol", "--port=0", "--keep=3"],
        "2",
    ),
    Words(
        &["mps_tool", "host", "a.protocol", "--port=0", "--open=0"],
        "2",
    ),
    // the share of a session that one role may fill
    Words(
        &["mps_tool", "host", "a.protocol", "--port=0", "--share=100"],
        "Host { file: ProtocolFile { name: \"a.protocol\", merging: Plain }, port: 0, open: 10000, keep: 10, idle: None, wait: None, share: 100, ",
    ),
    Words(
        &["mps_tool", "host", "a.protocol", "--port=0", "--share=101"],
        "2",
    ),
    Words(
        &["mps_tool", "host", "a.protocol", "--port=0", "--share=0"],
        "2",
    ),
    Words(
        &[
            "mps_tool",
            "serve",
            "a.protocol",
            "--port=0",
            "--sessions=2",
            "--endless",
            "--share=1",
        ],
        "Serve { file: ProtocolFile { name: \"a.protocol\", merging: Plain }, port: 0, sessions: 2, first: 1, connections: None, idle: None, wait: None, share: 1, ",
    ),
    // for how many seconds an answer may wait
    Words(
        &["mps_tool", "host", "a.protocol", "--port=0", "--wait=3600"],
        "Host { file: ProtocolFile { name: \"a.protocol\", merging: Plain }, port: 0, open: 10000, keep: 10, idle: None, wait: Some(3600), share: 50, ",
    ),
    Words(
        &["mps_tool", "host", "a.protocol", "--port=0", "--wait=3601"],
        "2",
    ),
    Words(
        &["mps_tool", "host", "a.protocol", "--port=0", "--wait=0"],
        "2",
    ),
    Words(
        &[
            "mps_tool",
            "serve",
            "a.protocol",
            "--port=0",
            "--sessions=2",
            "--endless",
            "--wait=1",
        ],
        "Serve { file: ProtocolFile { name: \"a.protocol\", merging: Plain }, port: 0, sessions: 2, first: 1, connections: None, idle: None, wait: Some(1), share: 100, ",
    ),
    // who watches a server, and which socket it is given
    Words(
        &["mps_tool", "host", "a.protocol", "--port=0", "--log"],
        "Host { file: ProtocolFile { name: \"a.protocol\", merging: Plain }, port: 0, open: 10000, keep: 10, idle: None, wait: None, share: 50, journal: None, watched: Watched { log: Some(Events), metrics: None, drain: false }, listener: None, ",
    ),
    Words(
        &[
            "mps_tool",
            "host",
            "a.protocol",
            "--port=0",
            "--log=lines",
            "--metrics=65535",
            "--drain",
            "--listener=3",
        ],
        "Host { file: ProtocolFile { name: \"a.protocol\", merging: Plain }, port: 0, open: 10000, keep: 10, idle: None, wait: None, share: 50, journal: None, watched: Watched { log: Some(Lines), metrics: Some(65535), drain: true }, listener: Some(3), ",
    ),
    Words(
        &[
            "mps_tool",
            "serve",
            "a.protocol",
            "--port=0",
            "--sessions=2",
            "--endless",
            "--log",
            "lines",
            "--metrics=1",
            "--drain",
            "--listener=1023",
        ],
        "Serve { file: ProtocolFile { name: \"a.protocol\", merging: Plain }, port: 0, sessions: 2, first: 1, connections: None, idle: None, wait: None, share: 100, journal: None, watched: Watched { log: Some(Lines), metrics: Some(1), drain: true }, listener: Some(1023), ",
    ),
    Words(
        &["mps_tool", "host", "a.protocol", "--port=0", "--log=all"],
        "2",
    ),
    Words(
        &["mps_tool", "host", "a.protocol", "--port=0", "--metrics=0"],
        "2",
    ),
    Words(
        &["mps_tool", "host", "a.protocol", "--port=0", "--listener=2"],
        "2",
    ),
    Words(
        &[
            "mps_tool",
            "host",
            "a.protocol",
            "--port=0",
            "--listener=1024",
        ],
        "2",
    ),
    // how branches are merged
    Words(
        &["mps_tool", "check", "--merging", "full", "a.protocol"],
        "Offline { task: Check { file: ProtocolFile { name: \"a.protocol\", merging: Full } }, verbose: false }",
    ),
    Words(
        &[
            "mps_tool",
            "serve",
            "a.protocol",
            "--port=0",
            "--sessions=2",
            "--endless",
            "--merging=full",
        ],
        "Serve { file: ProtocolFile { name: \"a.protocol\", merging: Full }, port: 0, ",
    ),
    Words(
        &[
            "mps_tool",
            "host",
            "a.protocol",
            "--port=0",
            "--merging=full",
        ],
        "Host { file: ProtocolFile { name: \"a.protocol\", merging: Full }, port: 0, ",
    ),
    Words(&["mps_tool", "check", "a.protocol", "--merging"], "2"),
    Words(&["mps_tool", "check", "a.protocol", "--merging=half"], "2"),
    // use and version
    Words(&["mps_tool", "--help"], "Offline { task: Help { text: "),
    Words(
        &["mps_tool", "--version"],
        "Offline { task: Help { text: \"mps_tool 0.2.0\" }, verbose: false }",
    ),
    // words too few, too many, or unknown
    Words(&["mps_tool"], "2"),
    Words(&["mps_tool", "fly"], "2"),
    Words(&["mps_tool", "check"], "2"),
    Words(&["mps_tool", "check", "a.protocol", "more"], "2"),
    Words(&["mps_tool", "run"], "2"),
    Words(&["mps_tool", "run", "a.protocol"], "2"),
    Words(&["mps_tool", "run", "a.protocol", "a.script", "more"], "2"),
    Words(&["mps_tool", "same", "a.protocol", "a.script"], "2"),
    Words(
        &[
            "mps_tool",
            "same",
            "a.protocol",
            "a.script",
            "b.script",
            "more",
        ],
        "2",
    ),
];

// `mps_words::order` reads each command, with its options but for a server's `--sync`, `--strict` and `--idle`, and
// refuses words that are none.
#[test]
fn words_become_an_order_or_are_refused(rt: HostRuntime) -> Result<(), Fail> {
    for Words(words, want) in ORDERS {
        let found = ordered(rt.alloc(), words)?;
        assert!(rt;
            found.as_str().starts_with(want),
            "{words:?}: found {found}, wanted {want} in front"
        );
    }
    Ok(())
}
