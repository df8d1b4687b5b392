ghost use Rattle.std.specs.Prelude.{◌≡◌, ◌+◌, ◌-◌, ◌^◌, ◌<◌, ◌≤◌, length, IfOk, OnOk, None, true, slice_get};
ghost use Rattle.std.specs.List.{AllByRecursion};
ghost use Rattle.guard_eval.specs.Meaning.{has_sort};
ghost use Rattle.matching_tests.specs.Samples.{AreInts, AreSamples, HasAll};
ghost use Rattle.matching_tests.specs.Tried.{GrowsBy};
ghost use Rattle.pattern_core.specs.Window.{SeesLatest, oldest_seen};
ghost use Rattle.match_tree.specs.Tree.{offer_to};
ghost use Rattle.row_screens.specs.Offering.{CanOffer};

use crate::listing::{Arrival, Join, Tie, is_listed, numbers};
use crate::made;
use guard_eval::ConjunctList;
use join_base::{Items, Message, MessageList, NoMemory, Relation, Sort, Steps};
use match_tree::MatchTree;
use pattern_core::{Candidate, Definition};
use std::alloc::Global;
use std::marker::Brand;
use std::sync::ledger::{Blank, Ledger};
use std::test::Fail;
use value_index::{IndexedField, ValueIndex};

// ---- the definition and the messages

fn patterns(alloc: Global, join: Join) -> Result<Items<u32>, NoMemory>
    requires { join.patterns ≤ 3 }
    ensures { IfOk result (λ ks. length ks ≡ join.patterns) }
{
    let mut patterns = Items::new(alloc);
    for place in 0..join.patterns {
        patterns.push(join.kinds[place as usize])?;
    }
    Ok(patterns)
}

// The first message's value has to be 1, where that is asked.
fn add_one(alloc: Global, conjuncts: &mut ConjunctList, asked: bool) -> Result<(), NoMemory>
    requires { AreSamples conjuncts.old }
    ensures { OnOk result (AreSamples conjuncts.new) }
{
    if asked {
        let first = made::variable(alloc, 0)?;
        let one = made::number(alloc, 1)?;
        conjuncts.push(made::comparison(alloc, first, Relation::Equal, one)?)?;
    }
    Ok(())
}

// The first two messages' values have to be tied so.
fn add_tie(alloc: Global, conjuncts: &mut ConjunctList, tie: Tie) -> Result<(), NoMemory>
    requires { AreSamples conjuncts.old }
    ensures { OnOk result (AreSamples conjuncts.new) }
{
    match tie {
        Tie::Any => Ok(()),
        Tie::Equal => {
            let equal = made::equality(alloc)?;
            conjuncts.push(equal)
        }
        Tie::Near => {
            let before = made::near(alloc, 1, 0)?;
            conjuncts.push(before)?;
            let behind = made::near(alloc, 0, 1)?;
            conjuncts.push(behind)
        }
        Tie::Rising => {
            let order = made::order(alloc)?;
            conjuncts.push(order)?;
            let near = made::near(alloc, 1, 0)?;
            conjuncts.push(near)
        }
    }
}

fn definition(alloc: Global, join: Join) -> Result<Definition, NoMemory>
    requires most { join.patterns ≤ 3 }
    ensures count { IfOk result (λ d. length d.patterns ≡ join.patterns) }
    ensures window { IfOk result (λ d. d.window ≡ join.window) }
    ensures samples { IfOk result (λ d. AreSamples d.conjuncts) }
{
    let patterns = patterns(alloc, join)?;
    let mut conjuncts = ConjunctList::new(alloc);
    add_one(alloc, &mut conjuncts, join.one)?;
    add_tie(alloc, &mut conjuncts, join.tie)?;
    Ok(Definition {
        patterns,
        conjuncts,
        window: join.window,
    })
}

fn message(alloc: Global, arrival: Arrival) -> Result<Message, NoMemory>
    ensures { IfOk result (λ m. has_sort Sort.Int (slice_get m.fields 0) ≡ true) }
{
    made::message(alloc, arrival.kind, arrival.value)
}

// The messages, and one more that is never offered.
fn messages(alloc: Global, arrivals: &[Arrival]) -> Result<MessageList, NoMemory>
    ensures ints { IfOk result (λ ls. AreInts ls) }
    ensures count { IfOk result (λ ls. length ls ≡ length arrivals.now + 1) }
{
    let mut messages = Items::new(alloc);
    for arrival in arrivals {
        messages.push(message(alloc, *arrival)?)?;
    }
    messages.push(message(alloc, Arrival { kind: 9, value: 0 })?)?;
    Ok(messages)
}

// An index of the first fields, without a number.
fn first_fields(alloc: Global) -> Result<ValueIndex, NoMemory> {
    let mut index = ValueIndex::new(alloc);
    for kind in 0..3 {
        index.add_field(IndexedField {
            kind,
            field: 0,
            words: false,
        })?;
    }
    Ok(index)
}

// An index that has all messages, also those that are not offered yet, and those that have fired.
pub fn index_of(alloc: Global, messages: &[Message]) -> Result<ValueIndex, NoMemory>
    requires few { length messages.now < 100 }
    ensures { IfOk result (λ index. HasAll index messages.now) }
{
    let mut index = first_fields(alloc)?;
    for place in 0..messages.len() as u32 {
        index.insert(messages, place + 1)?;
    }
    Ok(index)
}

// ---- the tree

// Offers a message to the tree. Where it completes a match, that fires, and else the tree keeps the message.
pub fn arrive<L: Ledger>(
    tree: &mut MatchTree,
    messages: &[Message],
    index: &ValueIndex,
    number: u32,
    steps: &mut Steps<L>,
) -> Result<Option<Candidate>, NoMemory>
    requires few { number < 2 ^ 32 - 1 }
    requires recorded { number < length messages.now }
    requires sees { oldest_seen tree.old.definition.window number ≤ number }
    requires settled { tree.old.reserve ≡ None }
    requires can { AllByRecursion (CanOffer (offer_to tree.old messages.now number)) tree.old.paths }
    requires indexed { HasAll index.now messages.now }
    ensures definition { tree.new.definition ≡ tree.old.definition }
    ensures settled { OnOk result (tree.new.reserve ≡ None) }
    ensures can { OnOk result (AllByRecursion (CanOffer (offer_to tree.new messages.now (number + 1))) tree.new.paths) }
    ensures grows { OnOk result (GrowsBy (offer_to tree.old messages.now number) tree.old.paths tree.new.paths) }
{
    tree.reserve_for(messages, index, number, steps)?;
    tree.expire(number);
    let found = tree.best_with();
    match &found {
        None => tree.extend(number),
        Some(best) => {
            tree.forget();
            tree.prune(messages, index, number, &best.taken);
        }
    }
    Ok(found)
}

// The last match that fires, how many partial matches are left, and whether the plain listing says the same behind each
// arrival.
#[derive(Drop)]
struct Outcome {
    last: Option<Candidate>,
    partials: u64,
    agrees: bool,
}

// Offers the arrivals in turn, and compares each with the plain listing.
fn offer_each<L: Ledger>(
    tree: &mut MatchTree,
    join: Join,
    arrivals: &[Arrival],
    messages: &[Message],
    index: &ValueIndex,
    steps: &mut Steps<L>,
) -> Result<Outcome, NoMemory>
    requires few { length arrivals.now < 16 }
    requires recorded { length arrivals.now < length messages.now }
    requires sees { SeesLatest tree.old.definition.window }
    requires settled { tree.old.reserve ≡ None }
    requires can { AllByRecursion (CanOffer (offer_to tree.old messages.now 1)) tree.old.paths }
    requires indexed { HasAll index.now messages.now }
{
    let mut live = [true; 16];
    let mut last = None;
    let mut agrees = true;
    for number in 1..arrivals.len() as u32 + 1 {
        let found = arrive(tree, messages, index, number, steps)?;
        let same = is_listed(join, arrivals, &mut live, number, &found, tree.partials());
        agrees = agrees && same;
        if found.is_some() {
            last = found;
        }
    }
    Ok(Outcome {
        last,
        partials: tree.partials(),
        agrees,
    })
}

fn play<L: Ledger>(
    alloc: Global,
    join: Join,
    arrivals: &[Arrival],
    blank: Blank,
) -> Result<Outcome, NoMemory>
    requires name { blank.name ≡ L.name }
    requires parts { blank.parts ≡ L.parts }
    requires owned { 0 < L.parts }
    requires some { 2 ≤ join.patterns }
    requires most { join.patterns ≤ 3 }
    requires sees { SeesLatest join.window }
    requires few { length arrivals.now < 16 }
{
    let mut steps = Steps::<L>::new(blank);
    let definition = definition(alloc, join)?;
    let messages = messages(alloc, arrivals)?;
    let shown = messages.as_slice();
    let index = index_of(alloc, shown)?;
    let mut tree = MatchTree::new(alloc, &definition, 1)?;
    offer_each(&mut tree, join, arrivals, shown, &index, &mut steps)
}

fn brings(kind: u32, value: i64) -> Arrival {
    Arrival { kind, value }
}

// A join whose patterns have a kind each.
fn join_of(patterns: u32, tie: Tie, one: bool, window: Option<u32>) -> Join
    ensures count { result.patterns ≡ patterns }
    ensures window { result.window ≡ window }
{
    Join {
        kinds: [0, 1, 2],
        patterns,
        tie,
        one,
        window,
    }
}

// Whether the arrivals fire these numbers and leave so many partial matches.
fn gives(
    alloc: Global,
    join: Join,
    arrivals: &[Arrival],
    fired: &[u32],
    partials: u64,
) -> Result<bool, NoMemory>
    requires some { 2 ≤ join.patterns }
    requires most { join.patterns ≤ 3 }
    requires sees { SeesLatest join.window }
    requires few { length arrivals.now < 16 }
{
    let outcome = play::<Brand>(alloc, join, arrivals, Blank::new(1))?;
    Ok(outcome.agrees && numbers(&outcome.last) == fired && outcome.partials == partials)
}

#[test]
fn arrivals_fire_the_least_match_or_are_kept(rt: HostRuntime) -> Result<(), Fail> {
    let alloc = rt.alloc();
    let a = brings(0, 1);
    let b = brings(1, 1);
    let any = [brings(2, 1), a, a, b];
    // How often the last of these is tried is computed in proofs/Examples of match_tree.
    let one = [brings(0, 1), brings(0, 2), brings(0, 3), brings(1, 7)];
    let pair = [a, a, b];
    let four = [a, a, a, a];
    let all = gives(
        alloc,
        join_of(3, Tie::Any, false, None),
        &any,
        &[2, 4, 1],
        2,
    )? && gives(alloc, join_of(2, Tie::Equal, true, None), &one[..3], &[], 2)?
        && gives(alloc, join_of(2, Tie::Equal, true, None), &one, &[], 3)?
        && gives(
            alloc,
            join_of(2, Tie::Any, false, Some(2)),
            &pair,
            &[2, 3],
            1,
        )?
        && gives(
            alloc,
            join_of(2, Tie::Any, false, Some(1)),
            &pair[1..],
            &[],
            2,
        )?
        && gives(alloc, join_of(2, Tie::Any, false, Some(3)), &four, &[], 4)?;
    assert!(rt; all);
    Ok(())
}

// Kinds of which often two or three are one, so that a message may stand at more than one pattern.
fn kinds_by(seed: u32) -> [u32; 3] {
    match seed / 6 % 5 {
        1 => [0, 0, 0],
        2 => [0, 0, 1],
        3 => [0, 1, 0],
        4 => [0, 1, 1],
        _ => [0, 1, 2],
    }
}

// The first kind, or one by chance.
fn kind_by(state: u32, kinds: [u32; 3], first: bool) -> u32 {
    if first {
        kinds[0]
    } else {
        kinds[(state >> 24) as usize % 3]
    }
}

// Arrivals by chance, of which the first so many are of the first kind. Rows of eight and more are looked up.
fn script(seed: u32, kinds: [u32; 3], crowd: usize) -> [Arrival; 14] {
    let mut arrivals = [brings(0, 0); 14];
    let mut state = seed;
    for place in 0..14 {
        state = state.wrapping_mul(1664525).wrapping_add(1013904223);
        let kind = kind_by(state, kinds, place < crowd);
        arrivals[place] = brings(kind, ((state >> 16) % 3) as i64);
    }
    arrivals
}

// Whether the listing says the same of the script of the seed. In each other one ten messages of the first kind come
// first.
fn agrees_on(alloc: Global, seed: u32) -> Result<bool, NoMemory>
    requires { seed < 60 }
{
    let crowd = if seed % 4 < 2 { 10 } else { 0 };
    let window = if seed % 5 == 1 { Some(4) } else { None };
    let tie = if seed % 3 > 0 { Tie::Equal } else { Tie::Any };
    let mut join = join_of(2 + seed % 2, tie, seed % 8 == 1, window);
    join.kinds = kinds_by(seed);
    let outcome = play::<Brand>(alloc, join, &script(seed, join.kinds, crowd), Blank::new(1))?;
    Ok(outcome.agrees)
}

#[test]
fn each_arrival_does_what_a_plain_listing_says(rt: HostRuntime) -> Result<(), Fail> {
    for seed in 0..60 {
        assert!(rt; agrees_on(rt.alloc(), seed)?);
    }
    Ok(())
}

// Times by chance, of which the first ten are of the first kind. They rise by up to 1 behind the first one, and at each
// other seed the seventh is before the others.
fn times(seed: u32, kinds: [u32; 3], start: i64) -> [Arrival; 14] {
    let mut arrivals = [brings(0, start); 14];
    let mut state = seed;
    let mut time = start;
    for place in 0..14 {
        state = state.wrapping_mul(1664525).wrapping_add(1013904223);
        let kind = kind_by(state, kinds, place < 10);
        time = time.saturating_add(((state >> 16) % 2) as i64);
        arrivals[place] = brings(kind, time);
    }
    if seed % 2 == 1 {
        arrivals[6] = brings(kinds[0], start);
    }
    arrivals
}

// Whether the listing says the same of times from this one on. Rows are looked up by ranges of them.
fn agrees_from(alloc: Global, seed: u32, start: i64) -> Result<bool, NoMemory>
    requires { seed < 40 }
{
    let tie = if seed % 4 < 2 { Tie::Near } else { Tie::Rising };
    let mut join = join_of(2 + seed % 3 % 2, tie, false, None);
    join.kinds = kinds_by(seed);
    let outcome = play::<Brand>(alloc, join, &times(seed, join.kinds, start), Blank::new(1))?;
    Ok(outcome.agrees)
}

// The same at both ends of 64 bits, and between.
fn agrees_at_ends(alloc: Global, seed: u32) -> Result<bool, NoMemory>
    requires { seed < 40 }
{
    Ok(
        agrees_from(alloc, seed, 0)?
            && agrees_from(alloc, seed, i64::MIN)?
            && agrees_from(alloc, seed, i64::MAX - 4)?,
    )
}

#[test]
fn each_time_does_what_a_plain_listing_says(rt: HostRuntime) -> Result<(), Fail> {
    for seed in 0..40 {
        assert!(rt; agrees_at_ends(rt.alloc(), seed)?);
    }
    Ok(())
}
