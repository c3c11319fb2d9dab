//! mps_cell: passes in one thread and in several are answered in one journal, and a try or a look never waits.
ghost use Rattle.std.specs.Prelude.{◌≡◌, false, IfOk, IfSome, All};
ghost use Rattle.mps_cell.specs.Cells.{IsDealOf};

use crate::texts::{TWO_PAIRS, VERDICT, asked, opened, told};
use mps_base::{Name, Role, StepId, Value};
use mps_cell::{Busy, Cell, Deal, Leave, Pass, PassFault, Pause, meet};
use mps_command::{Answer, Command, Forward};
use mps_room::Room;
use std::alloc::Global;
use std::cmp::Ordering;
use std::sync::Wait;
use std::sync::atomic::AtomicU64;
use std::sync::atomic::Ordering::SeqCst;
use std::test::Fail;
use std::thread;
use std::thread::{Threads, join};
use std::time::{Clock, Duration};

// Eight roles that have nothing to say.
const SILENCE: &str = "roles a b c d e f g h ; end";

// A cell of the protocol.
pub(crate) fn cell(alloc: Global, protocol: &str) -> Result<Cell, Fail>
    ensures given { IfOk result (λ c. c.given ≡ false) }
{
    let (names, session) = opened(alloc, protocol)?;
    Ok(Cell::open(alloc, names, session)?)
}

// ---- rows

// A line, and what it is answered.
type Row = (&'static str, &'static str);

// a's send can be undone once b's receipt of it is.
const UNDONE: &[Row] = &[
    ("a send b 5", "done 1"),
    ("b recv a x", "done 2 5"),
    ("a undo 1", "refused needed 2"),
    ("b undo 2", "undone 2"),
    ("a undo 1", "undone 1"),
];

// The place of the line's role, and its command.
fn asked_of(alloc: Global, all: &[Pass<'_>], line: &str) -> Result<(usize, Command), Fail> {
    let pass = all.first().ok_or("a pass")?;
    let (role, command) = asked(alloc, pass.names(), line)?;
    Ok((role.index(), command))
}

// What the line is answered by a call of its role's pass.
fn call_of<R: Wait>(
    rt: &R,
    alloc: Global,
    all: &mut [Pass<'_>],
    line: &str,
) -> Result<Answer, Fail> {
    let (place, command) = asked_of(alloc, all, line)?;
    match all.get_mut(place) {
        Some(pass) => Ok(pass.call(rt, command)),
        None => Err("a pass".into()),
    }
}

// What the line is answered by a try of its role's pass, where the cell is free.
fn try_of(alloc: Global, all: &mut [Pass<'_>], line: &str) -> Result<Answer, Fail> {
    let (place, command) = asked_of(alloc, all, line)?;
    match all.get_mut(place) {
        Some(pass) => match pass.try_call(command) {
            Ok(answer) => Ok(answer),
            Err(_) => Err("busy".into()),
        },
        None => Err("a pass".into()),
    }
}

// Whether the row is answered as it says, by a call of its role's pass.
fn is_called<R: Wait>(rt: &R, alloc: Global, all: &mut [Pass<'_>], row: Row) -> Result<bool, Fail> {
    let answer = call_of(rt, alloc, all, row.0)?;
    Ok(told(alloc, &answer)?.as_str() == row.1)
}

// Whether the row is answered as it says, by a try of its role's pass, where the cell is free.
fn is_tried(alloc: Global, all: &mut [Pass<'_>], row: Row) -> Result<bool, Fail> {
    let answer = try_of(alloc, all, row.0)?;
    Ok(told(alloc, &answer)?.as_str() == row.1)
}

// Each row is answered as it says, one after the other, or its line is the failure.
fn are_called<R: Wait>(rt: &R, alloc: Global, all: &mut [Pass<'_>]) -> Result<(), Fail> {
    for row in UNDONE {
        if !is_called(rt, alloc, all, *row)? {
            return Err(row.0.into());
        }
    }
    Ok(())
}

// Each row is answered as it says by a try of a free cell, one after the other, or its line is the failure.
fn are_tried(alloc: Global, all: &mut [Pass<'_>]) -> Result<(), Fail> {
    for row in UNDONE {
        if !is_tried(alloc, all, *row)? {
            return Err(row.0.into());
        }
    }
    Ok(())
}

// All passes of the cell.
fn passes(cell: &mut Cell) -> Result<Vec<Pass<'_>>, Fail> {
    match cell.passes() {
        Ok(all) => Ok(all),
        Err(_) => Err("passes".into()),
    }
}

// `mps_cell::Pass::call` is answered as a room answers after the calls before it, whichever passes made them.
#[test]
fn a_call_is_answered_as_the_room_answers(rt: HostRuntime) -> Result<(), Fail> {
    let mut cell = cell(rt.alloc(), VERDICT)?;
    let mut all = passes(&mut cell)?;
    are_called(&rt, rt.alloc(), all.as_mut_slice())
}

// `mps_cell::Pass::try_call` never finds the cell busy where no call is under way, and is answered as a call is.
#[test]
fn a_try_of_a_free_cell_is_answered_as_a_call(rt: HostRuntime) -> Result<(), Fail> {
    let mut cell = cell(rt.alloc(), VERDICT)?;
    let mut all = passes(&mut cell)?;
    are_tried(rt.alloc(), all.as_mut_slice())
}

// ---- passes

// Whether the passes are those of the first roles, in order.
fn are_in_order(all: &[Pass<'_>], count: usize) -> bool {
    let mut place = 0;
    for pass in all {
        if pass.role().index() != place {
            return false;
        }
        place = usize::wrapping_add(place, 1);
    }
    place == count
}

// Whether the cell gives four passes in order.
fn gives_four(cell: &mut Cell) -> bool {
    match cell.passes() {
        Ok(all) => are_in_order(all.as_slice(), 4),

        // where memory is refused on purpose
        Err(fault) => fault == PassFault::Memory,
    }
}

// Whether it has given its passes.
fn has_given(cell: &mut Cell) -> bool {
    matches!(cell.passes(), Err(PassFault::Given))
}

// `mps_cell::Cell::passes` gives a pass for each of the four roles, in order, and says to two further calls that they
// were given.
#[test]
fn a_cell_gives_its_passes_once(rt: HostRuntime) -> Result<(), Fail> {
    let mut cell = cell(rt.alloc(), TWO_PAIRS)?;
    assert!(rt;
        gives_four(&mut cell),
        "the first call gives four passes in order"
    );
    assert!(rt;
        has_given(&mut cell),
        "the second call says that they were given"
    );
    assert!(rt;
        has_given(&mut cell),
        "the third call says that they were given"
    );
    Ok(())
}

// The passes of a and c, of those of the four roles; the others go.
fn of_a_and_c(mut all: Vec<Pass<'_>>) -> Option<(Pass<'_>, Pass<'_>)> {
    all.truncate(3);
    let c = all.pop()?;
    all.truncate(1);
    Some((all.pop()?, c))
}

// A command of a pass.
#[derive(Clone, Copy)]
enum Ask {
    // a's message to b
    Send,
    Mark,
}

// The command itself.
fn command(ask: Ask) -> Option<Command> {
    match ask {
        Ask::Send => Some(Command::Forward(Forward::Send {
            to: Role::new(1),
            value: Value::Int(1),
        })),
        Ask::Mark => {
            let name = Name::read(b"m")?;
            Some(Command::Forward(Forward::Mark { name }))
        }
    }
}

// Whether the answer is that step 1 is done.
fn is_first(answer: &Answer) -> bool {
    matches!(answer, Answer::Done(done) if done.id.number() == 1 && done.got.is_none())
}

// The last of these passes of the cell.
#[tactic(auto, using(crate::proofs::Popping::popped_rest, crate::proofs::Popping::popped_last))]
fn last<'a>(cell: &'a Cell, all: &mut Vec<Pass<'a>>) -> Option<Pass<'a>>
    requires all { All (λ p. p.cell ≡ cell.now.cell) all.old.items }
    ensures rest { All (λ p. p.cell ≡ cell.now.cell) all.new.items }
    ensures last { IfSome result (λ p. p.cell ≡ cell.now.cell) }
{
    let _ = cell;
    all.pop()
}

// A call of the pass.
fn called<R: Wait>(rt: &R, pass: &mut Pass<'_>, ask: Ask) -> Option<Answer>
    ensures cell { pass.new.cell ≡ pass.old.cell }
{
    Some(pass.call(rt, command(ask)?))
}

// Whether the answer shows a session.
fn is_shown(answer: &Answer) -> bool {
    matches!(answer, Answer::Shown(_))
}

// How long the journal is that a try of `show` shows to the pass.
fn shown(pass: &mut Pass<'_>) -> Option<u64>
    ensures cell { pass.new.cell ≡ pass.old.cell }
{
    match pass.try_call(Command::Show) {
        Ok(answer) if is_shown(&answer) => Some(pass.seen()),
        _ => None,
    }
}

// How two passes compare.
fn compared(first: &mut Pass<'_>, second: &mut Pass<'_>) -> Ordering
    requires cell { second.old.cell ≡ first.old.cell }
    ensures first { first.new.cell ≡ first.old.cell }
    ensures second { second.new.cell ≡ second.old.cell }
{
    meet(first, second)
}

// How the passes compare when the first has made a call: the first with the second and the other way round, and then
// how much the second has seen.
fn compared_both(first: &mut Pass<'_>, second: &mut Pass<'_>) -> (Ordering, Ordering, u64)
    requires cell { second.old.cell ≡ first.old.cell }
    ensures first { first.new.cell ≡ first.old.cell }
    ensures second { second.new.cell ≡ second.old.cell }
{
    let there = compared(first, second);
    let back = compared(second, first);
    (there, back, second.seen())
}

// a gives a message, and c has a look: how they compare in between and afterwards.
fn meetings<R: Wait>(rt: &R, a: &mut Pass<'_>, c: &mut Pass<'_>) -> Option<bool>
    requires cell { c.old.cell ≡ a.old.cell }
    ensures cell { c.new.cell ≡ c.old.cell }
{
    let answer = called(rt, a, Ask::Send);
    let before = compared_both(a, c);
    let seen = shown(c);
    let after = compared_both(a, c);
    Some(
        is_first(&answer?)
            && before == (Ordering::Greater, Ordering::Less, 0)
            && seen == Some(1)
            && after == (Ordering::Equal, Ordering::Equal, 1),
    )
}

// Lets the last of these passes of the cell go. Says whether there was one.
fn skip<'a>(cell: &'a Cell, all: &mut Vec<Pass<'a>>) -> bool
    requires all { All (λ p. p.cell ≡ cell.now.cell) all.old.items }
    ensures rest { All (λ p. p.cell ≡ cell.now.cell) all.new.items }
{
    last(cell, all).is_some()
}

// Whether c meets the last of these passes of the cell as it has to.
fn meets_last<'a, R: Wait>(
    rt: &R,
    cell: &'a Cell,
    c: &mut Pass<'a>,
    all: &mut Vec<Pass<'a>>,
) -> bool
    requires c { c.old.cell ≡ cell.now.cell }
    requires all { All (λ p. p.cell ≡ cell.now.cell) all.old.items }
    ensures cell { c.new.cell ≡ c.old.cell }
{
    match last(cell, all) {
        Some(mut a) => meetings(rt, &mut a, c) == Some(true),
        None => false,
    }
}

// c's leave, once a and c of the cell's four passes have met as they have to.
fn met<R: Wait>(rt: &R, cell: &Cell, deal: Deal) -> Option<Leave>
    requires { IsDealOf cell.now.cell cell.now.opening deal }
    ensures { IfSome result (λ leave. leave.cell ≡ cell.now.cell) }
{
    let mut all = cell.passes_of(deal).ok()?;
    if !skip(cell, &mut all) {
        return None;
    }
    let mut c = last(cell, &mut all)?;
    if skip(cell, &mut all) && meets_last(rt, cell, &mut c, &mut all) {
        Some(c.leave())
    } else {
        None
    }
}

// How many entries the room has that the cell is closed to, once a and c have met as they have to.
fn entries_after<R: Wait>(rt: &R, mut cell: Cell) -> Option<u64> {
    let deal = cell.deal()?;
    let leave = met(rt, &cell, deal)?;
    Some(cell.close_with(leave)?.entries())
}

// `mps_cell::meet` tells which pass has seen more: a after its call, neither after a look of c. The closed room has a's
// entry.
#[test]
fn meet_tells_which_of_two_passes_has_seen_more(rt: HostRuntime) -> Result<(), Fail> {
    let cell = cell(rt.alloc(), TWO_PAIRS)?;
    assert!(rt;
        entries_after(&rt, cell) == Some(1),
        "a's entry alone, once a has seen more than c, and then c as much"
    );
    Ok(())
}

// ---- a room that is out

// What another pass finds while the room is out.
#[derive(Drop)]
struct Probe<'a, 'b> {
    other: &'b mut Pass<'a>,
    // how often the pause ran
    pauses: u64,
    length: u64,
    // how many of a thousand further lengths were equal to it
    same: u64,
    busy: Option<u64>,
}

// How many of so many lengths are this number.
fn same_lengths(pass: &mut Pass<'_>, length: u64, times: u64) -> u64 {
    let mut same = 0;
    for _ in 0..times {
        if pass.front() == length {
            same = u64::wrapping_add(same, 1);
        }
    }
    same
}

// What a try of a mark found, where the cell was busy.
fn found_busy(pass: &mut Pass<'_>) -> Option<u64> {
    match pass.try_call(command(Ask::Mark)?) {
        Ok(_) => None,
        Err(Busy { found }) => Some(found),
    }
}

impl Pause for Probe<'_, '_> {
    fn pause(&mut self) {
        self.pauses = u64::wrapping_add(self.pauses, 1);
        self.length = self.other.front();
        self.same = same_lengths(self.other, self.length, 1000);
        self.busy = found_busy(self.other);
    }
}

// a's `send b 1` with c's probe in its pause: whether all is as it has to be.
fn probed<R: Wait>(rt: &R, a: &mut Pass<'_>, c: &mut Pass<'_>) -> Option<bool> {
    let mut probe = Probe {
        other: c,
        pauses: 0,
        // a length that no look finds: the journal is empty then
        length: 9,
        same: 0,
        busy: None,
    };
    let answer = a.call_with(rt, command(Ask::Send)?, &mut probe);
    Some(
        is_first(&answer)
            && probe.pauses == 1
            && probe.length == 0
            && probe.same == 1000
            && probe.busy == Some(0)
            && probe.other.front() == 1,
    )
}

// The session after a's send, as it is shown.
const SENT: &str =
    r#"{"history":[[1,"a","send","b",1]],"queues":[["a","b",[1]]],"roles":[{"expects":"end","past":[1],"role":"a","store":[]},{"expects":"recv a int","past":[],"role":"b","store":[]},{"expects":"send d int","past":[],"role":"c","store":[]},{"expects":"recv c int","past":[],"role":"d","store":[]}]}"#;

// Whether the answer shows a's message.
fn is_sent(answer: &Answer) -> bool {
    matches!(answer, Answer::Shown(text) if text.as_bytes() == SENT.as_bytes())
}

// Whether the pass is shown a's message.
fn is_shown_sent<R: Wait>(rt: &R, pass: &mut Pass<'_>) -> bool {
    is_sent(&pass.call(rt, Command::Show))
}

// Whether c finds the room out while a sends, and a is shown its message then.
fn is_found_out<R: Wait>(rt: &R, all: Vec<Pass<'_>>) -> bool {
    match of_a_and_c(all) {
        Some((mut a, mut c)) => {
            probed(rt, &mut a, &mut c) == Some(true) && is_shown_sent(rt, &mut a)
        }
        None => false,
    }
}

// `mps_cell::Pass::try_call` of c is busy while a's call has the room, and neither it nor `front` waits: both tell the
// length, 0.
#[test]
fn a_try_and_a_look_do_not_wait_for_the_room(rt: HostRuntime) -> Result<(), Fail> {
    let mut cell = cell(rt.alloc(), TWO_PAIRS)?;
    assert!(rt;
        is_found_out(&rt, passes(&mut cell)?),
        "c finds the room out while a sends, and a is shown its message"
    );
    Ok(())
}

// ---- threads

// The step that the answer says is done.
fn done(answer: &Answer) -> Option<StepId> {
    match answer {
        Answer::Done(done) => Some(done.id),
        _ => None,
    }
}

// Whether the answer is that steps were taken back.
fn is_undone(answer: &Answer) -> bool {
    matches!(answer, Answer::Undone(_))
}

// A command of the pass and its undo: whether both were accepted.
fn made_and_undone<R: Wait>(rt: &R, pass: &mut Pass<'_>, ask: Ask) -> bool
    ensures cell { pass.new.cell ≡ pass.old.cell }
{
    match called(rt, pass, ask) {
        Some(answer) => match done(&answer) {
            Some(id) => is_undone(&pass.call(rt, Command::Undo(id))),
            None => false,
        },
        None => false,
    }
}

// So many of them: whether all were accepted.
fn many<R: Wait>(rt: &R, mut pass: Pass<'_>, ask: Ask, times: u64) -> bool {
    for _ in 0..times {
        if !made_and_undone(rt, &mut pass, ask) {
            return false;
        }
    }
    true
}

// a's sends and c's marks, in two threads.
fn both<R: Threads + Wait + Sync>(rt: &R, all: Vec<Pass<'_>>) -> Option<(bool, bool)> {
    let (a, c) = of_a_and_c(all)?;
    Some(join(
        rt,
        move || many(rt, a, Ask::Send, 1000),
        move || many(rt, c, Ask::Mark, 1000),
    ))
}

// How many entries, surviving steps and numbers there are. A step and its undo make two entries, and take one number.
fn counts(room: &Room) -> (u64, usize, u64) {
    let session = room.session();
    (room.entries(), session.len(), session.issued())
}

// What the cell's room counts, if it is at home.
fn counts_at_home(cell: Cell) -> Option<(u64, usize, u64)> {
    match cell.close() {
        Some(room) => Some(counts(&room)),
        None => None,
    }
}

// `mps_cell::Pass::call` in two threads: a sends and undoes 1,000 times, c marks and undoes as often. All is accepted:
// the one journal has 4,000 entries, no step survives, and 2,000 numbers were given out.
#[test]
fn two_threads_share_a_journal(rt: HostRuntime) -> Result<(), Fail> {
    let mut cell = cell(rt.alloc(), TWO_PAIRS)?;
    let done = both(&rt, passes(&mut cell)?);
    assert!(rt; done == Some((true, true)), "all are accepted");
    assert!(rt;
        counts_at_home(cell) == Some((4000, 0, 2000)),
        "the entries, steps and numbers"
    );
    Ok(())
}

// A thousand marks and their undos.
fn marks<R: Wait>(rt: &R, pass: &mut Pass<'_>)
    ensures cell { pass.new.cell ≡ pass.old.cell }
{
    for _ in 0..1000 {
        let _made = made_and_undone(rt, pass, Ask::Mark);
    }
}

// The passes mark, each in a thread of its own.
fn all_mark<R: Threads + Wait + Sync>(rt: &R, cell: &Cell, all: &mut [Pass<'_>])
    requires all { All (λ p. p.cell ≡ cell.now.cell) all.old }
    ensures all { All (λ p. p.cell ≡ cell.now.cell) all.new }
{
    let _ = cell;
    thread::for_each_mut(rt, all, 8, &|_, pass| marks(rt, pass));
}

// How many of the passes are shown so many entries.
fn all_shown(cell: &Cell, all: &mut [Pass<'_>], entries: u64) -> usize
    requires all { All (λ p. p.cell ≡ cell.now.cell) all.old }
    ensures all { All (λ p. p.cell ≡ cell.now.cell) all.new }
{
    let _ = cell;
    let mut count = 0;
    for i in 0..all.len() {
        if shown(&mut all[i]) == Some(entries) {
            count = usize::wrapping_add(count, 1);
        }
    }
    count
}

// How many of the others have seen as much as the first.
fn equals(cell: &Cell, first: &mut Pass<'_>, others: &mut [Pass<'_>]) -> usize
    requires first { first.old.cell ≡ cell.now.cell }
    requires others { All (λ p. p.cell ≡ cell.now.cell) others.old }
    ensures others { All (λ p. p.cell ≡ cell.now.cell) others.new }
{
    let _ = cell;
    let mut count = 0;
    for i in 0..others.len() {
        if compared(first, &mut others[i]) == Ordering::Equal {
            count = usize::wrapping_add(count, 1);
        }
    }
    count
}

// How many pairs of the passes have seen equally much.
fn equal_pairs<'a>(cell: &'a Cell, mut all: Vec<Pass<'a>>) -> usize
    requires all { All (λ p. p.cell ≡ cell.now.cell) all.items }
{
    let mut count = 0;
    for _ in 0..8 {
        let Some(mut pass) = last(cell, &mut all) else {
            return count;
        };
        count = usize::wrapping_add(count, equals(cell, &mut pass, all.as_mut_slice()));
    }
    count
}

// How many of the cell's passes are shown so many entries once all have marked, and how many pairs of them have seen
// equally much then.
fn marked_by_all<R: Threads + Wait + Sync>(
    rt: &R,
    cell: &Cell,
    deal: Deal,
    entries: u64,
) -> Option<(usize, usize)>
    requires { IsDealOf cell.now.cell cell.now.opening deal }
{
    let mut all = cell.passes_of(deal).ok()?;
    all_mark(rt, cell, all.as_mut_slice());
    let shown = all_shown(cell, all.as_mut_slice(), entries);
    Some((shown, equal_pairs(cell, all)))
}

// `mps_cell::Pass::call` in eight threads, each with a pass that does a step and its undo 1,000 times. All are shown
// the one journal of 16,000 entries, so in each of their 28 pairs both have seen equally much.
#[test]
fn eight_threads_share_a_journal(rt: HostRuntime) -> Result<(), Fail> {
    let mut cell = cell(rt.alloc(), SILENCE)?;
    let deal = cell.deal().ok_or("given")?;
    assert!(rt;
        marked_by_all(&rt, &cell, deal, 16_000) == Some((8, 28)),
        "eight passes shown, 28 pairs alike"
    );
    assert!(rt;
        counts_at_home(cell) == Some((16_000, 0, 8_000)),
        "the entries, steps and numbers"
    );
    Ok(())
}

// ---- calls that overlap

// How often a thread looks for a sign of the other one, and for how many milliseconds it sleeps between.
const LOOKS: u32 = 10_000;

const NAP: u64 = 1;

// For how many milliseconds a's pause goes on once c has tried, so that c's call comes meanwhile.
const REST: u64 = 100;

// How far the two threads are: 1 where it has come to that.
#[derive(Drop)]
struct Signs {
    // a has the room
    out: AtomicU64,
    // c's try is over
    tried: AtomicU64,
    // a's pause is over
    back: AtomicU64,
}

// Waits for the sign, for a time.
fn look_for<R: Clock>(rt: &R, sign: &AtomicU64) {
    for _ in 0..LOOKS {
        if sign.load(SeqCst) == 1 {
            return;
        }
        thread::sleep(rt, Duration::from_millis(NAP));
    }
}

// Keeps the room out until c has tried, and for a while longer.
#[derive(Drop)]
struct Hold<'r, 's, R> {
    rt: &'r R,
    signs: &'s Signs,
}

impl<R: Clock> Pause for Hold<'_, '_, R> {
    fn pause(&mut self) {
        self.signs.out.store(1, SeqCst);
        look_for(self.rt, &self.signs.tried);
        thread::sleep(self.rt, Duration::from_millis(REST));
        self.signs.back.store(1, SeqCst);
    }
}

// The number of the step that the answer says is done.
fn number(answer: &Answer) -> Option<u64> {
    match done(answer) {
        Some(id) => Some(id.number()),
        None => None,
    }
}

// The number of a's mark, in whose pause the room is kept out.
fn kept_out<R: Wait + Clock>(rt: &R, mut a: Pass<'_>, signs: &Signs) -> Option<u64> {
    let answer = a.call_with(rt, command(Ask::Mark)?, &mut Hold { rt, signs });
    number(&answer)
}

// What c finds while a has the room.
#[derive(Clone, Copy, PartialEq, Eq)]
struct Found {
    // how long the journal is, as c's try was told, if the cell was busy
    busy: Option<u64>,
    // how much of it c had seen by then
    seen: u64,
    // the number of c's mark
    number: Option<u64>,
    // whether a's pause was over when c's call returned
    is_back: bool,
}

// c's try and then its call, while a has the room.
fn tried_and_called<R: Wait + Clock>(rt: &R, mut c: Pass<'_>, signs: &Signs) -> Option<Found> {
    look_for(rt, &signs.out);
    let busy = found_busy(&mut c);
    let seen = c.seen();
    signs.tried.store(1, SeqCst);
    let answer = called(rt, &mut c, Ask::Mark)?;
    let is_back = signs.back.load(SeqCst) == 1;
    Some(Found {
        busy,
        seen,
        number: number(&answer),
        is_back,
    })
}

// a's mark and c's, in two threads. Gives the number of a's mark, and what c finds.
fn overlapped<R: Threads + Wait + Clock + Sync>(
    rt: &R,
    a: Pass<'_>,
    c: Pass<'_>,
) -> (Option<u64>, Option<Found>) {
    let signs = &Signs {
        out: AtomicU64::new(0),
        tried: AtomicU64::new(0),
        back: AtomicU64::new(0),
    };
    join(
        rt,
        move || kept_out(rt, a, signs),
        move || tried_and_called(rt, c, signs),
    )
}

// a's mark and c's, in two threads, after a's send, of which c is told nothing.
fn overlapped_after_a_send<R: Threads + Wait + Clock + Sync>(
    rt: &R,
    all: Vec<Pass<'_>>,
) -> Option<(Option<u64>, Option<Found>)> {
    let (mut a, c) = of_a_and_c(all)?;
    if called(rt, &mut a, Ask::Send).is_none() {
        return None;
    }
    Some(overlapped(rt, a, c))
}

// `mps_cell::Pass::call` of c is answered once a's is. While a has the room, c's try is busy, and tells the one entry
// that c hasn't seen.
#[test]
fn a_call_waits_for_the_room(rt: HostRuntime) -> Result<(), Fail> {
    let mut cell = cell(rt.alloc(), TWO_PAIRS)?;
    let found = overlapped_after_a_send(&rt, passes(&mut cell)?);
    let c = Found {
        busy: Some(1),
        seen: 0,
        // after a's send, 1, and its mark, 2
        number: Some(3),
        is_back: true,
    };
    assert!(rt;
        found == Some((Some(2), Some(c))),
        "what the call of a and that of c found"
    );
    assert!(rt;
        counts_at_home(cell) == Some((3, 3, 3)),
        "the entries, steps and numbers"
    );
    Ok(())
}
