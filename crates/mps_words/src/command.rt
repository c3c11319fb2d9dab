//! What the program can do.

use mps_local::Merging;
use mps_watch::Detail;

/// The file with the protocol, and how branches are merged for roles that take no part in a choice.
#[derive(Clone, Copy, Debug, PartialEq, Eq)]
pub struct ProtocolFile<'a> {
    pub name: &'a str,
    pub merging: Merging,
}

/// What the program is told to do.
#[derive(Debug, Drop)]
pub enum Order<'a> {
    /// A task that needs no network.
    Offline {
        task: Task<'a>,
        /// Whether more is told of what went wrong.
        verbose: bool,
    },
    /// Serve so many sessions of the protocol in the file at that port.
    Serve {
        file: ProtocolFile<'a>,
        port: u16,
        sessions: u64,
        /// The number of the first session. Those after it have the next numbers.
        first: u64,
        /// How many connections are accepted. `None` is all that come.
        connections: Option<u64>,
        /// For how many seconds a connection may send nothing. `None` is for ever.
        idle: Option<u64>,
        /// For how many seconds an answer may wait. `None`: none does.
        wait: Option<u64>,
        /// How many percent of the entries of its session each role may make.
        share: u64,
        /// Where the sessions are kept, if they are.
        journal: Option<JournalFolder<'a>>,
        watched: Watched,
        /// The descriptor of what listens already, if something does.
        listener: Option<u64>,
        /// Whether more is told of what went wrong.
        verbose: bool,
    },
    /// Open each session of the protocol in the file that somebody joins at that port.
    Host {
        file: ProtocolFile<'a>,
        port: u16,
        /// How many sessions are open at once at most.
        open: u64,
        /// For how many seconds a kept session stays open in which nobody is.
        keep: u64,
        /// For how many seconds a connection may send no line. `None` is for ever.
        idle: Option<u64>,
        /// For how many seconds an answer may wait. `None`: none does.
        wait: Option<u64>,
        /// How many percent of the entries of its session each role may make.
        share: u64,
        /// Where the sessions are kept, if they are.
        journal: Option<JournalFolder<'a>>,
        watched: Watched,
        /// The descriptor of what listens already, if something does.
        listener: Option<u64>,
        /// Whether more is told of what went wrong.
        verbose: bool,
    },
}

/// How a server is watched.
#[derive(Clone, Copy, Debug, PartialEq, Eq)]
pub struct Watched {
    /// How much is told of what befalls it, if something is.
    pub log: Option<Detail>,
    /// The port at which its counts are told, if they are.
    pub metrics: Option<u16>,
    /// Whether it ends once its standard input has.
    pub drain: bool,
}

/// Where sessions are kept.
#[derive(Clone, Copy, Debug, PartialEq, Eq)]
pub struct JournalFolder<'a> {
    pub folder: &'a str,
    /// Whether nothing is answered before the disk has said that it is kept.
    pub sync: bool,
    /// Whether a session that can't be kept stops the others too.
    pub strict: bool,
}

/// What the program does without a network.
#[derive(Debug, Drop)]
pub enum Task<'a> {
    /// Say how the program is used, or which version it is.
    Help {
        text: String,
    },
    /// Show each role's local type of the protocol in the file.
    Check {
        file: ProtocolFile<'a>,
    },
    /// Run the script on a session of the protocol in the file.
    Run {
        file: ProtocolFile<'a>,
        script: &'a str,
        /// Whether to stop at the first refused line.
        strict: bool,
    },
    /// Say whether two scripts come to the same on sessions of the protocol in the file.
    Same {
        file: ProtocolFile<'a>,
        first: &'a str,
        second: &'a str,
    },
}
