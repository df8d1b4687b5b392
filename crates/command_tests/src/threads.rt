//! Runs on threads.
use crate::calls::{answer_to, bytes_of, inputs_of, is_accepted};
use join_base::{Bytes, MemoryInputs, NoMemory};
use join_command::{FreeGate, Gate, Status};
use std::alloc::Global;
use std::sync::Wait;
use std::sync::atomic::{AtomicU64, Ordering};
use std::thread::Threads;

// How often a gate looks before it gives up.
const LOOKS: u64 = 200_000_000;

// Looks at a count until somebody was counted, and counts a failure where it gives up.
fn await_one(count: &AtomicU64, failures: &AtomicU64) {
    for _ in 0..LOOKS {
        if count.load(Ordering::SeqCst) > 0 {
            return;
        }
    }
    failures.fetch_add(1, Ordering::SeqCst);
}

// Holds each of two workers at its first actor until the other one is at its first.
#[derive(Drop)]
struct Both {
    first: AtomicU64,
    second: AtomicU64,
    failures: AtomicU64,
}

impl Gate for Both {
    fn enter(&self, worker: u32, _actor: u32) {
        let (own, other) = if worker == 1 {
            (&self.first, &self.second)
        } else {
            (&self.second, &self.first)
        };
        if own.fetch_add(1, Ordering::SeqCst) == 0 {
            await_one(other, &self.failures);
        }
    }
}

impl Both {
    // Whether both were there, and none waited in vain.
    fn met(&self) -> bool {
        self.first.load(Ordering::SeqCst) > 0
            && self.second.load(Ordering::SeqCst) > 0
            && self.failures.load(Ordering::SeqCst) == 0
    }
}

const TWO_ACTORS: &[(&str, &[u8])] = &[
    (
        "s",
        b"message a(x: int) message b(x: int) actor m { when a(x) & b(y) { print x y; } } actor n { when a(x) & b(y) { print y x; } }",
    ),
    (
        "f",
        b"m,a,1\nn,a,1\nm,b,2\nn,b,2\nm,a,3\nn,a,3\nm,b,4\nn,b,4\nm,a,5\nn,a,5\nm,b,6\nn,b,6\nm,a,7\nn,a,7\nm,b,8\nn,b,8\nm,a,9\nn,a,9\nm,b,10\nn,b,10\n",
    ),
];

fn two_actors(alloc: Global) -> Result<MemoryInputs, NoMemory> {
    inputs_of(alloc, TWO_ACTORS)
}

// Whether a run of two workers over this kind of pool ends past the gate with a log that is accepted.
fn two_are_done<R: Threads + Wait + Sync>(
    rt: &R,
    alloc: Global,
    pool: &str,
    gate: &Both,
) -> Result<bool, NoMemory> {
    let mut inputs = two_actors(alloc)?;
    let words = ["run", pool, "--ring", "64", "--workers", "2", "s", "f"];
    let (status, log) = answer_to(rt, alloc, words.as_slice(), &mut inputs, gate)?;
    Ok(status == Status::Done && is_accepted(rt, alloc, &mut inputs, log)?)
}

// Whether the two workers meet at the gate in such a run.
fn two_meet<R: Threads + Wait + Sync>(rt: &R, alloc: Global, pool: &str) -> bool {
    let gate = Both {
        first: AtomicU64::new(0),
        second: AtomicU64::new(0),
        failures: AtomicU64::new(0),
    };
    two_are_done(rt, alloc, pool, &gate) == Ok(true) && gate.met()
}

#[test]
fn two_workers_are_at_work_at_a_time(rt: HostRuntime) {
    let queue = two_meet(&rt, rt.alloc(), "--pool=queue");
    let steal = two_meet(&rt, rt.alloc(), "--pool=steal");
    assert!(rt; queue && steal);
}

// Holds whoever is at one actor until somebody was at another.
#[derive(Drop)]
struct Later {
    held: u32,
    awaited: u32,
    seen: AtomicU64,
    failures: AtomicU64,
}

impl Gate for Later {
    fn enter(&self, _worker: u32, actor: u32) {
        if actor == self.awaited {
            self.seen.fetch_add(1, Ordering::SeqCst);
        }
        if actor == self.held {
            await_one(&self.seen, &self.failures);
        }
    }
}

const TWO_POSTERS: &[(&str, &[u8])] = &[
    (
        "s",
        b"message g(n: int) actor x { when g(n) { post d g(n); } } actor y { when g(n) { post d g(n); } } actor d { when g(n) { post e g(n); } } actor e { when g(n) { } }",
    ),
    ("f", b"x,g,1\ny,g,2\n"),
];

// The log of such a run, up to the arrivals of d.
const POSTED: &[u8] = b"joinlog 2 arrivals 50000 partials 65536 feeds 1\n\
      actor x\n\
      1 at 1 from feed 1 g(1)\n\
      fire rule 1 take 1\n\
      post d g(1)\n\
      end running left - partials 1\n\
      actor y\n\
      1 at 1 from feed 1 g(2)\n\
      fire rule 1 take 1\n\
      post d g(2)\n\
      end running left - partials 1\n\
      actor d\n";

// Whether the log has these arrivals of d.
fn has_arrivals(log: &Bytes, arrivals: &[u8]) -> bool {
    match log.bytes().strip_prefix(POSTED) {
        Some(rest) => rest.starts_with(arrivals),
        None => false,
    }
}

fn two_posters(alloc: Global) -> Result<MemoryInputs, NoMemory> {
    inputs_of(alloc, TWO_POSTERS)
}

// Whether the post of the actor that is held comes second, as these arrivals of d tell.
fn comes_second<R: Threads + Wait + Sync>(
    rt: &R,
    alloc: Global,
    held: u32,
    arrivals: &[u8],
) -> Result<bool, NoMemory> {
    let gate = Later {
        held,
        awaited: 3,
        seen: AtomicU64::new(0),
        failures: AtomicU64::new(0),
    };
    let mut inputs = two_posters(alloc)?;
    let words = ["run", "--workers", "2", "s", "f"].as_slice();
    let (status, log) = answer_to(rt, alloc, words, &mut inputs, &gate)?;
    let is_so = status == Status::Done
        && gate.failures.load(Ordering::SeqCst) == 0
        && has_arrivals(&log, arrivals);
    Ok(is_so && is_accepted(rt, alloc, &mut inputs, log)?)
}

fn does_x_come_second<R: Threads + Wait + Sync>(rt: &R, alloc: Global) -> Result<bool, NoMemory> {
    let arrivals =
        b"1 at 2 from actor y g(2)\nfire rule 1 take 1\npost e g(2)\n2 at 3 from actor x g(1)\n";
    comes_second(rt, alloc, 0, arrivals)
}

fn does_y_come_second<R: Threads + Wait + Sync>(rt: &R, alloc: Global) -> Result<bool, NoMemory> {
    let arrivals =
        b"1 at 2 from actor x g(1)\nfire rule 1 take 1\npost e g(1)\n2 at 3 from actor y g(2)\n";
    comes_second(rt, alloc, 1, arrivals)
}

#[test]
fn the_gate_decides_which_post_comes_second(rt: HostRuntime) {
    let x_second = does_x_come_second(&rt, rt.alloc());
    let y_second = does_y_come_second(&rt, rt.alloc());
    assert!(rt; x_second == Ok(true) && y_second == Ok(true));
}

// Actors that join what comes from three feeds and from each other, post to themselves, and stop.
const FOUR_ACTORS: &[(&str, &[u8])] = &[
    (
        "s",
        b"message a(x: int) message b(x: int) message go(x: int) actor p { when a(x) & b(y) { post q a(x + y); post r b(x); } when go(x) { post p a(x); post p b(x); } } actor q { when a(x) & a(y) & b(z) if x < y { post r a(z); reply 1 x; } when go(x) & a(y) within 6 { post t go(y); } } actor r { when a(x) & b(y) { post p go(x - 1); print x \" \" y; } when go(x) & a(y) { } } actor t { when go(x) & go(y) { post q b(x); } when a(x) & b(y) if x > 7 { stop; } }",
    ),
    (
        "f",
        b"p,a,1\nq,a,2\np,b,3\nt,a,4\nq,go,5\nr,a,6\np,a,7\nt,b,8\nq,b,9\np,b,10\nt,a,11\nr,b,12\nq,a,13\np,go,14\nt,go,15\n",
    ),
    (
        "g",
        b"q,a,1\nq,a,2\np,a,3\np,b,4\nr,b,5\nt,go,6\nt,b,7\nq,b,8\nr,go,9\np,a,10\np,b,11\nq,go,12\n",
    ),
    (
        "h",
        b"t,go,1\nt,a,2\nr,a,3\nr,b,4\nq,b,5\nq,a,6\np,go,7\np,a,8\np,b,9\nt,b,10\nr,go,11\nr,a,12\nr,b,13\n",
    ),
];

// The next number of a sequence that is the same at each run.
fn next_number(state: &mut u64) -> u32 {
    *state = state
        .wrapping_mul(6_364_136_223_846_793_005)
        .wrapping_add(1_442_695_040_888_963_407);
    (*state >> 33) as u32
}

fn four_actors(alloc: Global) -> Result<MemoryInputs, NoMemory> {
    inputs_of(alloc, FOUR_ACTORS)
}

// Whether a run of the four actors by these options writes a log that is accepted.
fn is_lawful<R: Threads + Wait + Sync>(
    rt: &R,
    alloc: Global,
    options: [&str; 4],
) -> Result<bool, NoMemory> {
    let [pool, ring, workers, arrivals] = options;
    let words = ["run", pool, ring, workers, arrivals, "s", "f", "g", "h"];
    let mut inputs = four_actors(alloc)?;
    let (status, log) = answer_to(rt, alloc, words.as_slice(), &mut inputs, &FreeGate)?;
    let is_done = matches!(status, Status::Done | Status::Limits);
    Ok(is_done && is_accepted(rt, alloc, &mut inputs, log)?)
}

// The same by this kind of pool and these numbers.
fn is_lawful_by<R: Threads + Wait + Sync>(
    rt: &R,
    alloc: Global,
    pool: &str,
    ring: u32,
    workers: u32,
    arrivals: u32,
) -> Result<bool, NoMemory> {
    let ring = format!(in alloc; "--ring={ring}")?;
    let workers = format!(in alloc; "--workers={workers}")?;
    let arrivals = format!(in alloc; "--arrivals={arrivals}")?;
    let options = [pool, ring.as_str(), workers.as_str(), arrivals.as_str()];
    is_lawful(rt, alloc, options)
}

// Whether runs by many numbers do so, over this kind of pool.
fn all_are_lawful<R: Threads + Wait + Sync>(
    rt: &R,
    alloc: Global,
    pool: &str,
) -> Result<bool, NoMemory> {
    let mut state = 2026;
    for _ in 0..100u32 {
        // One ring in four has room for one message.
        let ring = (next_number(&mut state) % 4) * (next_number(&mut state) % 64) + 1;
        let workers = next_number(&mut state) % 8 + 1;
        let arrivals = next_number(&mut state) % 40 + 1;
        if !is_lawful_by(rt, alloc, pool, ring, workers, arrivals)? {
            return Ok(false);
        }
    }
    Ok(true)
}

#[test]
fn runs_by_any_numbers_are_accepted(rt: HostRuntime) {
    let queue = all_are_lawful(&rt, rt.alloc(), "--pool=queue");
    let steal = all_are_lawful(&rt, rt.alloc(), "--pool=steal");
    assert!(rt; queue == Ok(true) && steal == Ok(true));
}
