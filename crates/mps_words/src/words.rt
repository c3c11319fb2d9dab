//! The words that the program is called with.

ghost use Rattle.std.specs.Prelude.{◌≤◌, IfErr, IfOk, IfSome};
ghost use Rattle.mps_words.specs.Orders.{IsInRange, IsWatchedInRange};
ghost use Rattle.mps_words.specs.Uses.{Says, no_text};
ghost use Rattle.mps_words.specs.Private.Uses.{missing};

use crate::command::{JournalFolder, Order, ProtocolFile, Task, Watched};
use crate::faults::{UseFault, usage};
use clap::builder::ValueParser;
use clap::error::ErrorKind;
use clap::{Arg, ArgAction, ArgGroup, ArgMatches, Command, Error};
use mps_local::Merging;
use mps_watch::Detail;
use std::alloc::{AllocError, Global};
use std::rt::Env;
use std::{env, io};

// The version of the program.
const VERSION: &str = "0.2.0";

// The name of the option of all commands.
const VERBOSE: &str = "verbose";

// What is said of words of which one is no text.
const NO_TEXT: &str = "error: a word is not UTF-8";

// What is said of words that lack one.
const MISSING: &str = "error: a word is missing";

// How an option is given.
#[derive(Clone, Copy)]
enum Given {
    // always, with a word
    Always,
    // with a word, or not at all
    Sometimes,
    // without a word, or not at all
    Alone,
    // the same, together with that other option
    AloneWith(&'static str),
    // with a word and together with that other option, or not at all
    SometimesWith(&'static str),
    // the same, without that other option
    AloneWithout(&'static str),
}

// The numbers from one to another, both included.
#[derive(Clone, Copy)]
struct Range {
    least: u64,
    most: u64,
}

// What a word may be.
#[derive(Clone, Copy)]
enum Takes {
    // any text
    Text,
    // a number in the range
    Number(Range),
    // one of these words
    OneOf(&'static [&'static str]),
    // the same, or no word, which stands for that one
    OneOfOrNone(&'static str, &'static [&'static str]),
}

// A word that a command needs, or an option: what it stands for, what the help says of it, and what it may be.
struct Word {
    name: &'static str,
    help: &'static str,
    given: Given,
    takes: Takes,
}

// The ports that there are; 0 stands for any that is free.
const PORTS: Range = Range {
    least: 0,
    most: 65_535,
};

// How many sessions a server has.
const SESSION_COUNTS: Range = Range { least: 1, most: 16 };

// The number of its first session.
const FIRST_NUMBERS: Range = Range {
    least: 1,
    most: 1 << 63,
};

// How many connections it accepts, where it doesn't accept all.
const CONNECTION_COUNTS: Range = Range { least: 1, most: 64 };

// For how many seconds a connection may be silent.
const IDLE_SECONDS: Range = Range {
    least: 1,
    most: 86_400,
};

// For how many seconds an answer may wait.
const WAIT_SECONDS: Range = Range {
    least: 1,
    most: 3_600,
};

// The protocol, with which each command begins.
const FILE: Word = Word {
    name: "FILE",
    help: "The protocol",
    given: Given::Always,
    takes: Takes::Text,
};

// The words for the kinds of merging.
const PLAIN: &str = "plain";

const FULL: &str = "full";

// How branches are merged.
const MERGING: Word = Word {
    name: "merging",
    help: "How branches are merged for roles that take no part in a choice: plain, if it isn't given, or full, by which a label of their own may tell them of the branch",
    given: Given::Sometimes,
    takes: Takes::OneOf(&[PLAIN, FULL]),
};

// The script that is run.
const SCRIPT: Word = Word {
    name: "SCRIPT",
    help: "A command on each line; - stands for the standard input",
    given: Given::Always,
    takes: Takes::Text,
};

// Whether a run ends with the first refused line.
const STRICT: Word = Word {
    name: "strict",
    help: "Ends with status 1 at the first line that is refused",
    given: Given::Alone,
    takes: Takes::Text,
};

// The first of two scripts that are compared.
const FIRST: Word = Word {
    name: "FIRST",
    help: "A script, as for run",
    given: Given::Always,
    takes: Takes::Text,
};

// The second of two scripts that are compared.
const SECOND: Word = Word {
    name: "SECOND",
    help: "Another script",
    given: Given::Always,
    takes: Takes::Text,
};

// The port that a server listens on.
const PORT: Word = Word {
    name: "port",
    help: "The port of 127.0.0.1, 0 for any that is free",
    given: Given::Always,
    takes: Takes::Number(PORTS),
};

// How many sessions a server has.
const SESSIONS: Word = Word {
    name: "sessions",
    help: "How many sessions are opened, 1 to 16",
    given: Given::Always,
    takes: Takes::Number(SESSION_COUNTS),
};

// The number of a server's first session.
const FIRST_SESSION: Word = Word {
    name: "first",
    help: "The number of the first session, 1 to 9223372036854775808; 1, if it isn't given",
    given: Given::Sometimes,
    takes: Takes::Number(FIRST_NUMBERS),
};

// How many connections a server accepts.
const CONNECTIONS: Word = Word {
    name: "connections",
    help: "How many connections are accepted, 1 to 64; all that come, if it isn't given with --journal",
    given: Given::Sometimes,
    takes: Takes::Number(CONNECTION_COUNTS),
};

// Whether it accepts all that come.
const ENDLESS: Word = Word {
    name: "endless",
    help: "Connections are accepted until the process is ended",
    given: Given::AloneWithout("connections"),
    takes: Takes::Text,
};

// Where the sessions are kept.
const JOURNAL: Word = Word {
    name: "journal",
    help: "A folder that keeps the sessions, or tcp:PORT, a recorder that does; the next server with it goes on where this one stopped",
    given: Given::Sometimes,
    takes: Takes::Text,
};

// Whether the disk is waited for.
const SYNC: Word = Word {
    name: "sync",
    help: "With --journal: answers wait until the disk has what they tell",
    given: Given::AloneWith("journal"),
    takes: Takes::Text,
};

// Whether a session that can't be kept stops the others too.
const STRICT_SESSIONS: Word = Word {
    name: "strict",
    help: "With --journal: a session that can't be kept ends the server, or keeps it from starting",
    given: Given::AloneWith("journal"),
    takes: Takes::Text,
};

// How long a connection may be silent.
const IDLE: Word = Word {
    name: "idle",
    help: "Ends a connection that sends nothing for so many seconds, 1 to 86400",
    given: Given::Sometimes,
    takes: Takes::Number(IDLE_SECONDS),
};

// How long an answer may wait.
const WAIT: Word = Word {
    name: "wait",
    help: "Answers may wait for what others do, where their lines say so, for so many seconds at most, 1 to 3600",
    given: Given::Sometimes,
    takes: Takes::Number(WAIT_SECONDS),
};

// The words for how much is told.
const EVENTS: &str = "events";

const LINES: &str = "lines";

// What is told of a server.
const LOG: Word = Word {
    name: "log",
    help: "Tells on standard error what befalls the server, a line for each event; with lines each line and answer too",
    given: Given::Sometimes,
    takes: Takes::OneOfOrNone(EVENTS, &[EVENTS, LINES]),
};

// The ports at which counts may be told.
const COUNT_PORTS: Range = Range {
    least: 1,
    most: 65_535,
};

// Where counts are told.
const METRICS: Word = Word {
    name: "metrics",
    help: "Tells its counts at this port of 127.0.0.1, 1 to 65535, by HTTP: /metrics for Prometheus, /health",
    given: Given::Sometimes,
    takes: Takes::Number(COUNT_PORTS),
};

// Whether a server ends with its input.
const DRAIN: Word = Word {
    name: "drain",
    help: "Ends the server once its standard input ends: lines that run are answered, no more are read",
    given: Given::Alone,
    takes: Takes::Text,
};

// The descriptors that a listening socket may have; lower ones are the standard streams.
const DESCRIPTORS: Range = Range {
    least: 3,
    most: 1_023,
};

// What listens already.
const LISTENER: Word = Word {
    name: "listener",
    help: "Takes connections from the socket that it was given as this descriptor, 3 to 1023, as systemd gives it; it has to be bound to that port of a loopback address",
    given: Given::Sometimes,
    takes: Takes::Number(DESCRIPTORS),
};

// How many sessions are open at once.
const OPEN_COUNTS: Range = Range {
    least: 1,
    most: 1 << 20,
};

// How many are, where it isn't given.
const OPEN_COUNT: u64 = 10_000;

// For how many seconds a session stays open in which nobody is.
const KEEP_SECONDS: Range = Range {
    least: 1,
    most: 86_400,
};

// For how many it does, where it isn't given.
const KEEP_TIME: u64 = 10;

// How many sessions may be open.
const OPEN: Word = Word {
    name: "open",
    help: "How many sessions are open at once at most, 1 to 1048576; 10000, if it isn't given",
    given: Given::Sometimes,
    takes: Takes::Number(OPEN_COUNTS),
};

// How long a session stays open.
const KEEP: Word = Word {
    name: "keep",
    help: "With --journal: for how many seconds a session stays open in which nobody is, 1 to 86400; 10, if it isn't given",
    given: Given::SometimesWith("journal"),
    takes: Takes::Number(KEEP_SECONDS),
};

// How many percent of the entries of its session each role may make.
const SHARES: Range = Range {
    least: 1,
    most: 100,
};

// How many it may of a served session, where it isn't given: as many as there are.
const SERVED_SHARE: u64 = 100;

// How many of a hosted one.
const HOSTED_SHARE: u64 = 50;

// How much of a served session each role may fill.
const SHARE: Word = Word {
    name: "share",
    help: "How many percent of the 100000 entries of its session each role may make, 1 to 100; 100, if it isn't given",
    given: Given::Sometimes,
    takes: Takes::Number(SHARES),
};

// How much of a hosted one.
const SHARE_OF_HOST: Word = Word {
    name: "share",
    help: "How many percent of the 100000 entries of its session each role may make, 1 to 100; 50, if it isn't given",
    given: Given::Sometimes,
    takes: Takes::Number(SHARES),
};

// A command of the program, the words that have to follow it, and its options. Of some options one at least is given.
struct Form {
    name: &'static str,
    about: &'static str,
    words: &'static [Word],
    options: &'static [Word],
    some_of: &'static [&'static str],
}

// The commands of the program.
const FORMS: &[Form] = &[
    Form {
        name: "check",
        about: "Shows each role's local type",
        words: &[FILE],
        options: &[MERGING],
        some_of: &[],
    },
    Form {
        name: "run",
        about: "Runs a script and prints the answers",
        words: &[FILE, SCRIPT],
        options: &[STRICT, MERGING],
        some_of: &[],
    },
    Form {
        name: "same",
        about: "Says whether two scripts come to the same",
        words: &[FILE, FIRST, SECOND],
        options: &[MERGING],
        some_of: &[],
    },
    Form {
        name: "serve",
        about: "Serves sessions to connections",
        words: &[FILE],
        options: &[
            PORT,
            SESSIONS,
            FIRST_SESSION,
            CONNECTIONS,
            ENDLESS,
            JOURNAL,
            SYNC,
            STRICT_SESSIONS,
            IDLE,
            WAIT,
            SHARE,
            MERGING,
            LOG,
            METRICS,
            DRAIN,
            LISTENER,
        ],
        some_of: &["connections", "endless", "journal"],
    },
    Form {
        name: "host",
        about: "Opens each session that somebody joins",
        words: &[FILE],
        options: &[
            PORT,
            JOURNAL,
            SYNC,
            KEEP,
            OPEN,
            IDLE,
            WAIT,
            SHARE_OF_HOST,
            MERGING,
            LOG,
            METRICS,
            DRAIN,
            LISTENER,
        ],
        some_of: &[],
    },
];

// The argument, which takes numbers of the range alone.
fn ranged<'a>(argument: Arg<'a>, range: Range) -> Arg<'a> {
    argument.value_parser(ValueParser::Unsigned(range.least, range.most))
}

// The argument that a `Word` describes: its name, help and what it may be, and whether it is required or takes no value. What
// makes it an option, and on which other option it depends, is set by `option`.
fn argument<'a>(alloc: Global, word: &Word) -> Arg<'a> {
    let argument = Arg::new(alloc, word.name).help(word.help);
    let argument = match word.takes {
        Takes::Text => argument,
        Takes::Number(range) => ranged(argument, range),
        Takes::OneOf(words) => argument.value_parser(ValueParser::Names(words)),
        Takes::OneOfOrNone(word, words) => argument
            .value_parser(ValueParser::Names(words))
            .num_args(0..=1)
            .default_missing_value(word),
    };
    match word.given {
        Given::Always => argument.required(true),
        Given::Sometimes | Given::SometimesWith(_) => argument,
        Given::Alone | Given::AloneWith(_) | Given::AloneWithout(_) => {
            argument.action(ArgAction::SetTrue)
        }
    }
}

// The option of all commands that says more; it may stand before a command or after it, once or more often.
fn verbose<'a>(alloc: Global) -> Result<Arg<'a>, AllocError> {
    Arg::new(alloc, VERBOSE)
        .long(VERBOSE)
        .short('v')
        .help(
            "Tells more on standard error: the system's reason for a fault, which lines of scripts were unreadable or how many refused, connections that were lost",
        )
        .action(ArgAction::SetTrue)
        .global(true)
        .overrides_with(VERBOSE)
}

// The option that a `Word` describes: its argument, given as `--NAME`, with the option that it requires or excludes.
fn option<'a>(alloc: Global, word: &Word) -> Result<Arg<'a>, AllocError> {
    let option = argument(alloc, word).long(word.name);
    match word.given {
        Given::AloneWith(other) | Given::SometimesWith(other) => option.requires_arg(other),
        Given::AloneWithout(other) => option.conflicts_with(other),
        _ => Ok(option),
    }
}

// The command with the options that these `Word`s describe.
fn with_options<'a>(
    alloc: Global,
    mut command: Command<'a>,
    options: &[Word],
) -> Result<Command<'a>, AllocError> {
    for word in options {
        command = command.arg(option(alloc, word)?)?;
    }
    Ok(command)
}

// The command that a `Form` describes: its name and help, its words, its options, and those of which one at least is
// given.
fn command<'a>(alloc: Global, form: &Form) -> Result<Command<'a>, AllocError> {
    let mut command = Command::new(alloc, form.name).about(form.about);
    for word in form.words {
        command = command.arg(argument(alloc, word))?;
    }
    let command = with_options(alloc, command, form.options)?;
    if form.some_of.is_empty() {
        return Ok(command);
    }
    let group = ArgGroup::new(alloc, "some").args(form.some_of)?;
    command.group(group.multiple(true).required(true))
}

// The program with its commands, of which one is required.
fn program<'a>(alloc: Global) -> Result<Command<'a>, AllocError> {
    let mut program = Command::new(alloc, "mps_tool")
        .about("A monitor for multiparty sessions")
        .version(VERSION)
        .arg(verbose(alloc)?)?
        .subcommand_required(true);
    for form in FORMS {
        program = program.subcommand(command(alloc, form)?)?;
    }
    Ok(program)
}

// The number that the option was given; none where it wasn't, or isn't in the range.
fn number_in<'a>(found: &ArgMatches<'a>, name: &str, range: Range) -> Option<u64>
    ensures { IfSome result (λ n. (range.least ≤ n) × (n ≤ range.most)) }
{
    let number = found.get_one::<u64>(name)?;
    // clap has seen to that, but no clause of clap's says so
    if number < range.least || number > range.most {
        return None;
    }
    Some(number)
}

// The number that the option was given, or `Some(None)` where it wasn't given; none where it isn't in the range, which
// clap has seen to.
fn bound_in<'a>(found: &ArgMatches<'a>, name: &str, range: Range) -> Option<Option<u64>>
    ensures { IfSome result (λ given. IfSome given (λ n. (range.least ≤ n) × (n ≤ range.most))) }
{
    match found.get_str(name) {
        Some(_) => Some(Some(number_in(found, name, range)?)),
        None => Some(None),
    }
}

// The folder of `--journal`, and whether `--sync` came with it; `None` without `--journal`, where clap lets no `--sync` come,
// and no `--strict`.
fn journal_in<'a>(found: &ArgMatches<'a>, strict: bool) -> Option<JournalFolder<'a>> {
    let folder = found.get_str("journal")?;
    Some(JournalFolder {
        folder,
        sync: found.get_flag("sync"),
        strict,
    })
}

// How a server is watched, by `--log`, `--metrics` and `--drain`. The port is below 2^16 by its range.
fn watched_in<'a>(found: &ArgMatches<'a>) -> Option<Watched>
    ensures { IfSome result IsWatchedInRange }
{
    let log = match found.get_str("log") {
        Some(LINES) => Some(Detail::Lines),
        Some(_) => Some(Detail::Events),
        None => None,
    };
    let metrics = match bound_in(found, "metrics", COUNT_PORTS)? {
        Some(port) => Some(port as u16),
        None => None,
    };
    Some(Watched {
        log,
        metrics,
        drain: found.get_flag("drain"),
    })
}

// The file with the protocol, and the merging of `--merging`, which is plain where it isn't given; none where a word is
// missing, which clap has seen to.
fn file_in<'a>(found: &ArgMatches<'a>) -> Option<ProtocolFile<'a>> {
    let name = found.get_str("FILE")?;
    let merging = match found.get_str("merging") {
        Some(FULL) => Merging::Full,
        _ => Merging::Plain,
    };
    Some(ProtocolFile { name, merging })
}

// The order to serve the file, with what the options were given. The port is below 2^16 by its range.
fn serve_in<'a>(file: ProtocolFile<'a>, found: &ArgMatches<'a>) -> Option<Order<'a>>
    ensures { IfSome result IsInRange }
{
    let port = number_in(found, "port", PORTS)?;
    let sessions = number_in(found, "sessions", SESSION_COUNTS)?;
    let first = bound_in(found, "first", FIRST_NUMBERS)?.unwrap_or(1);
    let connections = bound_in(found, "connections", CONNECTION_COUNTS)?;
    let idle = bound_in(found, "idle", IDLE_SECONDS)?;
    let wait = bound_in(found, "wait", WAIT_SECONDS)?;
    let share = bound_in(found, "share", SHARES)?.unwrap_or(SERVED_SHARE);
    let journal = journal_in(found, found.get_flag("strict"));
    let watched = watched_in(found)?;
    let listener = bound_in(found, "listener", DESCRIPTORS)?;
    let verbose = found.get_flag(VERBOSE);
    Some(Order::Serve {
        file,
        port: port as u16,
        sessions,
        first,
        connections,
        idle,
        wait,
        share,
        journal,
        watched,
        listener,
        verbose,
    })
}

// The order to host sessions of the file's protocol, with what the options were given.
fn host_in<'a>(file: ProtocolFile<'a>, found: &ArgMatches<'a>) -> Option<Order<'a>>
    ensures { IfSome result IsInRange }
{
    let port = number_in(found, "port", PORTS)?;
    let open = bound_in(found, "open", OPEN_COUNTS)?.unwrap_or(OPEN_COUNT);
    let keep = bound_in(found, "keep", KEEP_SECONDS)?.unwrap_or(KEEP_TIME);
    let idle = bound_in(found, "idle", IDLE_SECONDS)?;
    let wait = bound_in(found, "wait", WAIT_SECONDS)?;
    let share = bound_in(found, "share", SHARES)?.unwrap_or(HOSTED_SHARE);
    let journal = journal_in(found, false);
    let watched = watched_in(found)?;
    let listener = bound_in(found, "listener", DESCRIPTORS)?;
    let verbose = found.get_flag(VERBOSE);
    Some(Order::Host {
        file,
        port: port as u16,
        open,
        keep,
        idle,
        wait,
        share,
        journal,
        watched,
        listener,
        verbose,
    })
}

// The task to compare two scripts on sessions of the file's protocol; none where a word is missing, which clap has seen
// to.
fn same_in<'a>(file: ProtocolFile<'a>, found: &ArgMatches<'a>) -> Option<Task<'a>> {
    let first = found.get_str("FIRST")?;
    let second = found.get_str("SECOND")?;
    Some(Task::Same {
        file,
        first,
        second,
    })
}

// The task to run a script on a session of the file's protocol; none where a word is missing, which clap has seen to.
fn run_in<'a>(file: ProtocolFile<'a>, found: &ArgMatches<'a>) -> Option<Task<'a>> {
    let script = found.get_str("SCRIPT")?;
    let strict = found.get_flag("strict");
    Some(Task::Run {
        file,
        script,
        strict,
    })
}

// The task of that command; none of `serve` and `host`, which are orders of their own, or of an unknown one.
fn task_in<'a>(command: &str, file: ProtocolFile<'a>, found: &ArgMatches<'a>) -> Option<Task<'a>> {
    match command {
        "check" => Some(Task::Check { file }),
        "run" => run_in(file, found),
        "same" => same_in(file, found),
        _ => None,
    }
}

// The order that stands in the words, as they matched the commands. There is one, since clap has looked at each word;
// no clause of clap's says so.
fn order_in<'a>(matches: &ArgMatches<'a>) -> Option<Order<'a>>
    ensures { IfSome result IsInRange }
{
    let (command, found) = matches.subcommand()?;
    let file = file_in(found)?;
    match command {
        "serve" => return serve_in(file, found),
        "host" => return host_in(file, found),
        _ => {}
    }
    Some(Order::Offline {
        task: task_in(command, file, found)?,
        verbose: found.get_flag(VERBOSE),
    })
}

// What clap says of words that match no command, without blanks at its end.
fn text_of(alloc: Global, error: &Error) -> Result<String, AllocError> {
    let text = format!(in alloc; "{error}")?;
    String::from_str(alloc, text.as_str().trim_end())
}

// What comes of words that match no command: they ask how the program is used, or are refused.
fn unmatched<'a>(alloc: Global, error: &Error) -> Result<Order<'a>, UseFault>
    ensures { IfOk result IsInRange }
{
    if error.kind() == ErrorKind::OutOfMemory {
        return Err(UseFault::Memory);
    }
    let text = text_of(alloc, error)?;
    if error.use_stderr() {
        return Err(UseFault::Usage { text });
    }
    Ok(Order::Offline {
        task: Task::Help { text },
        verbose: false,
    })
}

// The order that stands in the words, as they matched the commands. If there is none after all, a word is missing.
fn matched<'a>(alloc: Global, matches: &ArgMatches<'a>) -> Result<Order<'a>, UseFault>
    ensures range { IfOk result IsInRange }
    ensures fault { IfErr result (Says missing) }
{
    match order_in(matches) {
        Some(order) => Ok(order),
        None => Err(usage(alloc, MISSING)),
    }
}

/// Reads the order that stands in the words, of which the first is the program's name. Words that ask for help or the
/// version are an order too; of wrong ones the fault has what clap says.
pub fn order<'a>(alloc: Global, words: &'a [&'a str]) -> Result<Order<'a>, UseFault>
    ensures ranges { IfOk result IsInRange }
{
    match program(alloc)?.try_get_matches_from(words) {
        Ok(matches) => matched(alloc, &matches),
        Err(error) => unmatched(alloc, &error),
    }
}

/// The words that the program is called with, of which the first is its name. One that is no UTF-8 is a fault of use.
pub fn words_of<R: Env + AllocGlobal>(rt: &R) -> Result<Vec<String>, UseFault>
    ensures { IfErr result (Says no_text) }
{
    match env::args(rt) {
        Ok(words) => Ok(words.collect(rt.alloc())?),
        Err(error) if error.kind() == io::ErrorKind::OutOfMemory => Err(UseFault::Memory),
        Err(_) => Err(usage(rt.alloc(), NO_TEXT)),
    }
}
