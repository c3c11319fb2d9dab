//! Makes one call, and tells by its status what it came to. Whoever runs it may refuse requests for memory.
//!
//! The words are a group, a call's name, and how far to go. `before` and `after` end right before and after the call,
//! with status 0, so that the call's own requests can be counted. `whole` ends with 0 where the call was answered as
//! with ample memory, and with 3 where it was answered that memory ran out, nothing had changed, and asked again it was
//! answered as with ample memory. 4: memory ran out before the call, or in what looks at it. 5: the answer is another,
//! or something had changed. With no words each call is made, and its group and name are printed.
#![tactic(auto)]

mod calls;
mod cells;
mod groups;
mod lines;
mod outcomes;
mod parties;
mod rows;
mod three;

use crate::groups::{GROUPS, Group, made, name, named};
use crate::outcomes::{Outcome, Until, until_named};
use std::alloc::AllocGlobal;
use std::env;
use std::io::Print;
use std::process::ExitCode;
use std::sync::Wait;
use std::time::Clock;

// More calls than a group has.
const MANY: usize = 99;

// The status of what a run came to.
fn status(outcome: Option<Outcome>) -> u8 {
    match outcome {
        Some(Outcome::Reached) | Some(Outcome::Answered) => 0,
        Some(Outcome::Memory) => 3,
        None => 4,
        Some(Outcome::Other) => 5,
    }
}

// Makes the group's call of that name, and gives the status.
fn called<R: AllocGlobal + Wait + Clock + Eprint + 'static>(
    rt: &R,
    group: Group,
    word: &str,
    until: Until,
) -> u8 {
    for k in 0..MANY {
        if name(group, k) == Some(word) {
            return status(made(rt, rt.alloc(), group, k, until));
        }
    }
    2
}

// Makes the call that the words name, of which the first is the program's own name.
fn asked<R: AllocGlobal + Wait + Clock + Eprint + 'static>(rt: &R, words: &[String]) -> u8 {
    let [_, group, word, until] = words else {
        return 2;
    };
    match (named(group.as_bytes()), until_named(until.as_bytes())) {
        (Some(group), Some(until)) => called(rt, group, word.as_str(), until),
        _ => 2,
    }
}

// Makes each call of the group, and prints its name after the group's word. Gives the status of the first that isn't
// answered.
fn all_of<R: AllocGlobal + Print + Eprint + Wait + Clock + 'static>(
    rt: &R,
    word: &str,
    group: Group,
) -> u8 {
    for k in 0..MANY {
        let Some(name) = name(group, k) else {
            return 0;
        };
        let status = status(made(rt, rt.alloc(), group, k, Until::Over));
        if status != 0 {
            return status;
        }
        if println!(rt; "{word} {name}").is_err() {
            return 1;
        }
    }
    0
}

// Makes each call, and prints its name.
fn all<R: AllocGlobal + Print + Eprint + Wait + Clock + 'static>(rt: &R) -> u8 {
    for (word, group) in GROUPS {
        let status = all_of(rt, word, *group);
        if status != 0 {
            return status;
        }
    }
    0
}

fn main(rt: HostRuntime) -> ExitCode {
    let Ok(words) = env::args(&rt) else {
        return ExitCode::from(4);
    };
    let words: Vec<String> = match words.collect(rt.alloc()) {
        Ok(words) => words,
        Err(_) => return ExitCode::from(4),
    };
    if words.len() <= 1 {
        return ExitCode::from(all(&rt));
    }
    ExitCode::from(asked(&rt, words.as_slice()))
}
