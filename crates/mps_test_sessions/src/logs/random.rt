//! mps_log, mps_arena, mps_queues, mps_stores: after random operations each look-up gives what a walk over a list does.
use super::Deed::{self, Choose, Commit, Mark, Pick, Receive, Send, Tell};
use super::*;

// A step of the plain list: its key and number, what it is, and the key to which its slot, or the
// name that it marks, was bound.
#[derive(Clone, Copy)]
struct Plain {
    key: Key,
    id: StepId,
    role: u8,
    deed: Deed,
    at: u16,
    bound: Option<Key>,
}

// Some of the steps, in order: all, those of a role, the sends of a pair, its receipts, the
// receipts of a role into a slot, its marks of a name, none.
#[derive(Clone, Copy)]
enum Chain {
    All,
    Of(u8),
    Sends(u8, u8),
    Receipts(u8, u8),
    Into(u8, Word),
    Marks(u8, Word),
    Nothing,
}

// To whom the deed gives something, if it does.
fn receiver(deed: Deed) -> Option<u8> {
    match deed {
        Send(to, _) | Tell(to, _) | Choose(to, _) => Some(to),
        _ => None,
    }
}

// From whom the deed takes something, if it does.
fn giver(deed: Deed) -> Option<u8> {
    match deed {
        Receive(from, _) | Pick(from) => Some(from),
        _ => None,
    }
}

// The slot into which the deed receives something.
fn slot_of(deed: Deed) -> Option<Word> {
    match deed {
        Receive(_, slot) => Some(slot),
        _ => None,
    }
}

// The name that the deed marks.
fn mark_of(deed: Deed) -> Option<Word> {
    match deed {
        Mark(name) => Some(name),
        _ => None,
    }
}

// Whether the step is one of the chain.
fn is_in(step: &Plain, chain: Chain) -> bool {
    match chain {
        Chain::All => true,
        Chain::Of(role) => step.role == role,
        Chain::Sends(from, to) => step.role == from && receiver(step.deed) == Some(to),
        Chain::Receipts(from, to) => step.role == to && giver(step.deed) == Some(from),
        Chain::Into(role, slot) => step.role == role && slot_of(step.deed) == Some(slot),
        Chain::Marks(role, name) => step.role == role && mark_of(step.deed) == Some(name),
        Chain::Nothing => false,
    }
}

// How many steps the chain has.
fn count(steps: &[Plain], chain: Chain) -> usize {
    let mut count = 0usize;
    for step in steps {
        if is_in(step, chain) {
            count = count.saturating_add(1);
        }
    }
    count
}

// The n-th step of the chain, from 0.
fn nth(steps: &[Plain], chain: Chain, n: usize) -> Option<&Plain> {
    let mut before = 0usize;
    for step in steps {
        if is_in(step, chain) {
            if before == n {
                return Some(step);
            }
            before = before.saturating_add(1);
        }
    }
    None
}

// The place of the key in the chain, from 0.
fn place_in(steps: &[Plain], chain: Chain, key: Key) -> Option<usize> {
    let mut place = 0usize;
    for step in steps {
        if is_in(step, chain) {
            if step.key.is(key) {
                return Some(place);
            }
            place = place.saturating_add(1);
        }
    }
    None
}

// The key of the n-th step of the chain.
fn nth_key(steps: &[Plain], chain: Chain, n: usize) -> Option<Key> {
    let step = nth(steps, chain, n)?;
    Some(step.key)
}

// The last step of the chain.
fn newest(steps: &[Plain], chain: Chain) -> Option<&Plain> {
    nth(steps, chain, count(steps, chain).checked_sub(1)?)
}

// Its key.
fn last(steps: &[Plain], chain: Chain) -> Option<Key> {
    Some(newest(steps, chain)?.key)
}

// The step of the chain right after that of the key.
fn after(steps: &[Plain], chain: Chain, key: Key) -> Option<Key> {
    let place = place_in(steps, chain, key)?;
    nth_key(steps, chain, place.checked_add(1)?)
}

// The step of the chain right before that of the key.
fn before(steps: &[Plain], chain: Chain, key: Key) -> Option<Key> {
    let place = place_in(steps, chain, key)?;
    nth_key(steps, chain, place.checked_sub(1)?)
}

// The step that stands in one chain where that of the key stands in another.
fn across(steps: &[Plain], chain: Chain, key: Key, other: Chain) -> Option<Key> {
    nth_key(steps, other, place_in(steps, chain, key)?)
}

// The sends and the receipts of the pair of the step, if it is one of its sends.
fn as_send(step: &Plain) -> (Chain, Chain) {
    match receiver(step.deed) {
        Some(to) => (Chain::Sends(step.role, to), Chain::Receipts(step.role, to)),
        None => (Chain::Nothing, Chain::Nothing),
    }
}

// The sends and the receipts of the pair of the step, if it is one of its receipts.
fn as_receipt(step: &Plain) -> (Chain, Chain) {
    match giver(step.deed) {
        Some(from) => (
            Chain::Sends(from, step.role),
            Chain::Receipts(from, step.role),
        ),
        None => (Chain::Nothing, Chain::Nothing),
    }
}

// What the step is linked to, by walks over the list.
fn walked(steps: &[Plain], step: &Plain) -> [Option<Key>; 8] {
    let key = step.key;
    let of_role = Chain::Of(step.role);
    let (sends, receipts) = as_send(step);
    let (sources, own) = as_receipt(step);
    [
        after(steps, Chain::All, key),
        before(steps, Chain::All, key),
        after(steps, of_role, key),
        before(steps, of_role, key),
        after(steps, sends, key),
        before(steps, sends, key),
        across(steps, sends, key, receipts),
        across(steps, own, key, sources),
    ]
}

// Whether the arena has the step as it is, with its links.
fn is_there(arena: &Arena, steps: &[Plain], plain: &Plain) -> bool {
    let Some((step, before, marked)) = found(arena, plain.key) else {
        return false;
    };
    arena.by_id(plain.id) == Some(plain.key)
        && links(arena, plain.key) == walked(steps, plain)
        && step.id.is(plain.id)
        && step.role.is(Role::new(plain.role))
        && is_act(&step.act, plain.deed)
        && before.at == plain.at
        && before.bound == plain.bound
        && !marked
}

// Whether the key is no step's.
fn is_unknown(arena: &Arena, key: Key) -> bool {
    arena.id(key).is_none() && links(arena, key) == [None; 8]
}

// Each step is there, no number leads to another, and the ends are right.
fn are_there(rt: &impl Abort, arena: &Arena, steps: &[Plain]) {
    for step in steps {
        assert!(rt; is_there(arena, steps, step), "step {}", step.id.number());
    }
    assert_eq!(rt;
        arena.first(),
        nth_key(steps, Chain::All, 0),
        "the first step"
    );
    assert_eq!(rt; arena.last(), last(steps, Chain::All), "the last step");
    assert_eq!(rt;
        (arena.len(), known(arena)),
        (steps.len(), steps.len()),
        "the count of steps and of known numbers"
    );
}

// What the k-th message that waits gives.
fn waiting_deed(steps: &[Plain], from: u8, to: u8, k: usize) -> Option<Deed> {
    let received = count(steps, Chain::Receipts(from, to));
    let send = nth(steps, Chain::Sends(from, to), received.checked_add(k)?)?;
    Some(send.deed)
}

// How many messages wait.
fn waiting_count(steps: &[Plain], from: u8, to: u8) -> usize {
    let sent = count(steps, Chain::Sends(from, to));
    sent.saturating_sub(count(steps, Chain::Receipts(from, to)))
}

// Whether the pair's queue is right.
fn are_waiting(log: &Log, steps: &[Plain], from: u8, to: u8) -> bool {
    for k in 0..=waiting_count(steps, from, to) {
        if !is_given(
            log.message(role(from), role(to), k),
            waiting_deed(steps, from, to, k),
        ) {
            return false;
        }
    }
    true
}

// Whether the pair's last send and its queue are right.
fn is_queue(log: &Log, steps: &[Plain], from: u8, to: u8) -> bool {
    let (p, q) = (role(from), role(to));
    let is_last = log.steps().last_send(p, q) == last(steps, Chain::Sends(from, to));
    is_last && are_waiting(log, steps, from, to)
}

// What the role keeps in the slot.
fn kept_deed(steps: &[Plain], place: u8, slot: Word) -> Option<Deed> {
    let receipt = newest(steps, Chain::Into(place, slot))?;
    let (sends, receipts) = as_receipt(receipt);
    let send = nth(steps, sends, place_in(steps, receipts, receipt.key)?)?;
    Some(send.deed)
}

// Whether what the role keeps in the slot is right.
fn is_slot(rt: &impl Abort, log: &Log, steps: &[Plain], place: u8, slot: Word) -> bool {
    keeps(rt, log, place, slot, kept_deed(steps, place, slot))
}

// Whether the role's last step and its slots are right.
fn is_role(rt: &impl Abort, log: &Log, steps: &[Plain], place: u8) -> bool {
    log.steps().last_of(role(place)) == last(steps, Chain::Of(place))
        && is_slot(rt, log, steps, place, Word::X)
        && is_slot(rt, log, steps, place, Word::Y)
        && is_slot(rt, log, steps, place, Word::Z)
}

// Each look-up of the log gives what a walk over the list does.
fn agrees(rt: &impl Abort, log: &Log, steps: &[Plain], roles: u8) {
    are_there(rt, log.steps(), steps);
    for from in 0..roles {
        assert!(rt; is_role(rt, log, steps, from), "role {from}");
        for to in 0..roles {
            assert!(rt; is_queue(log, steps, from, to), "from {from} to {to}");
        }
    }
}

// A linear congruential generator, with Knuth's constants (MMIX): the same numbers in each run.
#[derive(Drop)]
struct Dice(u64);

impl Dice {
    // The next number below that.
    fn roll(&mut self, sides: u8) -> u8 {
        let product = self.0.wrapping_mul(6_364_136_223_846_793_005);
        self.0 = product.wrapping_add(1_442_695_040_888_963_407);
        let [top, ..] = self.0.to_be_bytes();
        top.checked_rem(sides).unwrap_or(0)
    }

    // One of three names.
    fn word(&mut self) -> Word {
        match self.roll(3) {
            0 => Word::X,
            1 => Word::Y,
            _ => Word::Z,
        }
    }

    // Something to do with one of so many roles.
    fn deed(&mut self, roles: u8, n: i64) -> Deed {
        let peer = self.roll(roles);
        match self.roll(11) {
            0..=2 => Send(peer, n),
            3 => Choose(peer, self.word()),
            4..=7 => Receive(peer, self.word()),
            8 => Pick(peer),
            9 => Commit,
            _ => Mark(self.word()),
        }
    }
}

// Whether the deed takes a message where none waits.
fn is_idle(steps: &[Plain], place: u8, deed: Deed) -> bool {
    match giver(deed) {
        Some(from) => waiting_count(steps, from, place) == 0,
        None => false,
    }
}

// Where what the deed was bound to before stands.
fn chain_of(place: u8, deed: Deed) -> Chain {
    match deed {
        Receive(_, slot) => Chain::Into(place, slot),
        Mark(name) => Chain::Marks(place, name),
        _ => Chain::Nothing,
    }
}

// The role does that, in the log and in the list, if it may.
fn join(rt: &(impl Abort + AllocGlobal), log: &mut Log, steps: &mut Vec<Plain>, row: Row) {
    let Row(place, deed, at, _) = row;
    let Some(id) = play(rt, log, place, deed, at) else {
        assert!(rt;
            is_idle(steps, place, deed),
            "a deed of role {place} is refused though a message waits"
        );
        return;
    };
    assert!(rt;
        !is_idle(steps, place, deed),
        "a deed of role {place} is done though no message waits"
    );
    let bound = last(steps, chain_of(place, deed));
    let key = log.steps().by_id(id).expect(rt, "its key");
    let plain = Plain {
        key,
        id,
        role: place,
        deed,
        at,
        bound,
    };
    steps.push(plain).expect(rt, "memory");
}

// Whether the step may go, by walks over the list.
fn is_free(steps: &[Plain], step: &Plain) -> bool {
    let [_, _, next_of_role, _, _, _, receipt, _] = walked(steps, step);
    next_of_role.is_none() && receipt.is_none()
}

// The place of the first step from there on that may go; the end where there is none.
fn free_from(steps: &[Plain], place: usize) -> usize {
    for at in place..steps.len() {
        if is_free(steps, &steps[at]) {
            return at;
        }
    }
    steps.len()
}

// Whether by the log those may go that may by the list.
fn are_free_alike(log: &Log, steps: &[Plain]) -> bool {
    for step in steps {
        if may_go(log.steps(), step.key) != is_free(steps, step) {
            return false;
        }
    }
    true
}

// Takes the first step from that place on that may go out of the log and of the list.
fn leave(rt: &impl Abort, log: &mut Log, steps: &mut Vec<Plain>, from: usize) {
    assert!(rt;
        are_free_alike(log, steps),
        "the steps that may go are others"
    );
    let place = free_from(steps, from);
    if place >= steps.len() {
        return;
    }
    let step = steps[place];
    let gone = remove(log, step.key).expect(rt, "it goes");
    assert_eq!(rt; gone, step.id, "step {}, which goes", step.id.number());
    steps.remove(place);
    assert!(rt;
        is_unknown(log.steps(), step.key),
        "the key of step {}, which is gone",
        step.id.number()
    );
    assert_eq!(rt;
        log.steps().by_id(step.id),
        None,
        "the number of step {}, which is gone",
        step.id.number()
    );
}

// One operation that the dice choose.
fn operate(
    rt: &(impl Abort + AllocGlobal),
    log: &mut Log,
    steps: &mut Vec<Plain>,
    dice: &mut Dice,
    roles: u8,
) {
    if dice.roll(2) == 0 {
        // the first step that may go from one of the first 40 places on
        leave(rt, log, steps, usize::from(dice.roll(40)));
    } else {
        // each send has a number of its own
        let n = i64::try_from(log.steps().issued()).unwrap_or(0);
        let place = dice.roll(roles);
        let at = u16::from(dice.roll(255));
        join(rt, log, steps, Row(place, dice.deed(roles, n), at, 0));
    }
}

// So many operations by so many roles; after each the log agrees with the list.
fn operations(rt: &(impl Abort + AllocGlobal), roles: u8, seed: u64, times: usize) {
    let mut log = empty(rt);
    let mut steps = Vec::new(rt.alloc());
    let mut dice = Dice(seed);
    for _ in 0..times {
        operate(rt, &mut log, &mut steps, &mut dice, roles);
        agrees(rt, &log, &steps, roles);
    }
}

// `mps_log::Log`: 4,000 operations of three roles, by the dice of seed 1; after each, all look-ups are compared with
// the list.
#[test]
fn look_ups_agree_with_a_list_for_three_roles(rt: HostRuntime) {
    operations(&rt, 3, 1, 4000);
}

// `mps_log::Log`: 4,000 operations of five roles, by the dice of seed 2; after each, all look-ups are compared with the
// list.
#[test]
fn look_ups_agree_with_a_list_for_five_roles(rt: HostRuntime) {
    operations(&rt, 5, 2, 4000);
}

// `mps_log::Log`: 3,000 operations of eight roles, the most, by the dice of seed 3; after each, all look-ups are
// compared.
#[test]
fn look_ups_agree_with_a_list_for_eight_roles(rt: HostRuntime) {
    operations(&rt, 8, 3, 3000);
}
