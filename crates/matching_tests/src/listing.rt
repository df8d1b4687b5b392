//! A plain listing of all matches and partial matches, to which the tree is compared.
ghost use Rattle.std.specs.Prelude.{◌≡◌, ◌<◌, ◌≤◌};

use join_base::Numbers;
use pattern_core::{Candidate, better};

/// A kind and a value.
#[derive(Clone, Copy)]
pub struct Arrival {
    pub kind: u32,
    pub value: i64,
}

/// What the values of the first two messages have to be.
#[derive(Clone, Copy, PartialEq, Eq)]
pub enum Tie {
    Any,
    Equal,
    /// At most 2 apart.
    Near,
    /// The second at least the first, and at most 2 greater.
    Rising,
}

/// A join of the first of these kinds, whose first two messages may be tied, and the first may have to be 1.
#[derive(Clone, Copy)]
pub struct Join {
    pub kinds: [u32; 3],
    pub patterns: u32,
    pub tie: Tie,
    pub one: bool,
    pub window: Option<u32>,
}

fn arrival_at(arrivals: &[Arrival], number: u32) -> Option<Arrival>
    requires { 1 ≤ number }
{
    arrivals.get((number - 1) as usize).copied()
}

// Whether the number is 0, or that of a live and seen message of the kind.
fn may_take(arrivals: &[Arrival], live: &[bool], oldest: u32, kind: u32, number: u32) -> bool {
    if number == 0 {
        return true;
    }
    if number < oldest || live.get(number as usize) != Some(&true) {
        return false;
    }
    match arrival_at(arrivals, number) {
        Some(arrival) => arrival.kind == kind,
        None => false,
    }
}

// Whether no message stands at two patterns; 0 stands for none.
fn differ(first: u32, second: u32, third: u32) -> bool {
    (first == 0 || first != second) && (third == 0 || third != first && third != second)
}

// Whether the values of the first two messages are tied so.
fn are_tied(tie: Tie, first: i64, second: i64) -> bool {
    let more = second as i128 - first as i128;
    match tie {
        Tie::Any => true,
        Tie::Equal => more == 0,
        Tie::Near => -2 <= more && more <= 2,
        Tie::Rising => 0 <= more && more <= 2,
    }
}

// Whether what is decided of the guard is true.
fn holds(join: Join, arrivals: &[Arrival], first: u32, second: u32) -> bool {
    if first == 0 {
        return true;
    }
    let left = arrival_at(arrivals, first).map(|arrival| arrival.value);
    if join.one && left != Some(1) {
        return false;
    }
    if second == 0 {
        return true;
    }
    let right = arrival_at(arrivals, second).map(|arrival| arrival.value);
    match (left, right) {
        (Some(left), Some(right)) => are_tied(join.tie, left, right),
        _ => false,
    }
}

fn candidate(first: u32, second: u32, third: u32) -> Candidate {
    let mut taken = Numbers::new();
    taken.push(first);
    taken.push(second);
    if third > 0 {
        taken.push(third);
    }
    Candidate { rule: 1, taken }
}

/// The least match of the live messages, and how many partial matches they have.
#[derive(Drop)]
pub struct Listing {
    pub best: Option<Candidate>,
    pub partials: u64,
}

// Tries each number of the third pattern beside those of the first two.
fn list_third(
    join: Join,
    arrivals: &[Arrival],
    live: &[bool],
    recorded: u32,
    first: u32,
    second: u32,
    found: Listing,
) -> Listing
    requires { recorded < 100 }
{
    let mut best = found.best;
    let mut partials = found.partials;
    let oldest = match join.window {
        None => 1,
        Some(window) => (recorded + 1).saturating_sub(window),
    };
    let last = if join.patterns == 3 { recorded } else { 0 };
    for third in 0..last + 1 {
        if may_take(arrivals, live, oldest, join.kinds[0], first)
            && may_take(arrivals, live, oldest, join.kinds[1], second)
            && may_take(arrivals, live, oldest, join.kinds[2], third)
            && differ(first, second, third)
            && holds(join, arrivals, first, second)
        {
            if first > 0 && second > 0 && (third > 0 || join.patterns == 2) {
                best = better(best, Some(candidate(first, second, third)));
            } else {
                partials = partials.saturating_add(1);
            }
        }
    }
    Listing { best, partials }
}

/// All matches of the first messages.
pub fn list_matches(join: Join, arrivals: &[Arrival], live: &[bool], recorded: u32) -> Listing
    requires { recorded < 100 }
{
    let mut found = Listing {
        best: None,
        partials: 0,
    };
    for first in 0..recorded + 1 {
        for second in 0..recorded + 1 {
            found = list_third(join, arrivals, live, recorded, first, second, found);
        }
    }
    found
}

/// The numbers of a match, or none.
pub fn numbers(found: &Option<Candidate>) -> &[u32] {
    match found {
        None => &[],
        Some(candidate) => candidate.taken.as_slice(),
    }
}

// The numbers are no longer live.
fn take_out(live: &mut [bool; 16], numbers: &[u32]) {
    for number in numbers {
        if *number < 16 {
            live[*number as usize] = false;
        }
    }
}

/// Whether the match that the number completes is the least of the listing, and as many partial matches are left once
/// it has fired.
pub fn is_listed(
    join: Join,
    arrivals: &[Arrival],
    live: &mut [bool; 16],
    number: u32,
    found: &Option<Candidate>,
    partials: u64,
) -> bool
    requires { number < 100 }
{
    let listing = list_matches(join, arrivals, live, number);
    let same = numbers(found) == numbers(&listing.best);
    take_out(live, numbers(found));
    same && list_matches(join, arrivals, live, number).partials == partials
}
