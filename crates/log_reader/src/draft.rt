//! A run that is read line by line.
ghost use Rattle.std.specs.Prelude.{◌≡◌, Some};
ghost use Rattle.fair_semantics.specs.Fits.{source_place};
ghost use Rattle.log_lines.specs.Forms.{entry_with};
ghost use Rattle.log_reader.specs.Draft.{Becomes, acts, arrives, begins, closes, ends, fires, follows, is_late, is_open, opening, step, takes_entries, with_effect};

use fair_semantics::{ActorRun, Effect, Ending, Entry, Fired, Firing};
use join_base::{Items, Numbers, Source};
use log_lines::{Arrival, Head, LineFault, LogLine};
use std::alloc::Global;
use std::mem;

/// Where the next line of a log stands, with what the lines before it left open.
#[derive(Drop)]
pub enum Open {
    /// At the heading of the next actor, or behind the last one.
    Heading,
    Entries,
    Arrived(Arrival),
    Fired(Arrival, Firing),
    /// Behind the late line of this source.
    Lates(Source),
}

/// What the lines so far say.
#[derive(Drop)]
pub struct Draft {
    pub head: Head,
    /// The runs of the actors whose sections are read.
    pub actors: Items<ActorRun>,
    /// The entries of the next actor, but for one that is open.
    pub entries: Items<Entry>,
    pub late: Items<(Source, u64)>,
    pub reached: Open,
}

impl Draft {
    /// Nothing but the first line.
    pub fn new(alloc: Global, head: Head) -> Draft
        ensures { result ≡ opening head }
    {
        Draft {
            head,
            actors: Items::new(alloc),
            entries: Items::new(alloc),
            late: Items::new(alloc),
            reached: Open::Heading,
        }
    }

    /// Adds what the line says. `NoLine` exactly where it may not stand there. Behind a fault nothing is said of the
    /// draft, and the caller gives it up.
    pub fn step(&mut self, alloc: Global, line: LogLine) -> Result<(), LineFault>
        ensures { Becomes result self.new (step self.old line) }
    {
        match line {
            LogLine::Heading(actor) => self.begins(actor),
            LogLine::Arrives(arrival) => self.arrives(alloc, arrival),
            LogLine::Fires { rule, taken } => self.fires(alloc, rule, taken),
            LogLine::Does(effect) => self.acts(alloc, effect),
            LogLine::IsLate(source, count) => self.is_late(alloc, source, count),
            LogLine::Ends {
                ending,
                left,
                partials,
            } => self.ends(alloc, ending, left, partials),
        }
    }

    fn begins(&mut self, actor: u32) -> Result<(), LineFault>
        ensures { Becomes result self.new (begins self.old actor) }
    {
        if is_open(&self.reached) {
            return Err(LineFault::NoLine);
        }
        if actor as usize != self.actors.len() {
            return Err(LineFault::NoLine);
        }
        self.reached = Open::Entries;
        Ok(())
    }

    fn arrives(&mut self, alloc: Global, arrival: Arrival) -> Result<(), LineFault>
        ensures { Becomes result self.new (arrives self.old arrival) }
    {
        if !takes_entries(&self.reached) {
            return Err(LineFault::NoLine);
        }
        self.closes(alloc, Open::Arrived(arrival))
    }

    fn fires(&mut self, alloc: Global, rule: u32, taken: Numbers) -> Result<(), LineFault>
        ensures { Becomes result self.new (fires self.old rule taken) }
    {
        // Where the line is refused, what is left in its place is never read.
        let Open::Arrived(arrival) = mem::replace(&mut self.reached, Open::Entries) else {
            return Err(LineFault::NoLine);
        };
        let firing = Firing {
            rule,
            taken,
            effects: Items::new(alloc),
        };
        self.reached = Open::Fired(arrival, firing);
        Ok(())
    }

    fn acts(&mut self, alloc: Global, effect: Effect) -> Result<(), LineFault>
        ensures { Becomes result self.new (acts self.old effect) }
    {
        let Open::Fired(_, firing) = &mut self.reached else {
            return Err(LineFault::NoLine);
        };
        add_effect(alloc, firing, effect)
    }

    fn is_late(&mut self, alloc: Global, source: Source, count: u64) -> Result<(), LineFault>
        ensures { Becomes result self.new (is_late self.old source count) }
    {
        if !is_open(&self.reached) || !follows(self.head.feeds, &self.reached, source) {
            return Err(LineFault::NoLine);
        }
        self.closes(alloc, Open::Lates(source))?;
        self.late.push((source, count))?;
        Ok(())
    }

    fn ends(
        &mut self,
        alloc: Global,
        ending: Ending,
        left: Items<u32>,
        partials: u64,
    ) -> Result<(), LineFault>
        ensures { Becomes result self.new (ends self.old ending left partials) }
    {
        if !is_open(&self.reached) {
            return Err(LineFault::NoLine);
        }
        self.closes(alloc, Open::Heading)?;
        let entries = mem::replace(&mut self.entries, Items::new(alloc));
        let late = mem::replace(&mut self.late, Items::new(alloc));
        self.actors.push(ActorRun {
            entries,
            late,
            ending,
            left,
            partials,
        })?;
        Ok(())
    }

    // Puts the open entry behind the others, and goes on there.
    fn closes(&mut self, alloc: Global, next: Open) -> Result<(), LineFault>
        ensures { Becomes result self.new (Some (closes self.old next)) }
    {
        match mem::replace(&mut self.reached, next) {
            Open::Arrived(arrival) => self.entries.push(entry_with(arrival, Fired::none()))?,
            Open::Fired(arrival, firing) => {
                let firing = Box::new(alloc, firing)?;
                self.entries
                    .push(entry_with(arrival, Fired::from_box(firing)))?
            }
            Open::Heading => {}
            Open::Entries => {}
            Open::Lates(_) => {}
        }
        Ok(())
    }
}

pub(crate) fn is_open(reached: &Open) -> bool
    ensures { result ≡ is_open reached.now }
{
    match reached {
        Open::Heading => false,
        Open::Entries => true,
        Open::Arrived(_) => true,
        Open::Fired(_, _) => true,
        Open::Lates(_) => true,
    }
}

fn takes_entries(reached: &Open) -> bool
    ensures { result ≡ takes_entries reached.now }
{
    match reached {
        Open::Heading => false,
        Open::Entries => true,
        Open::Arrived(_) => true,
        Open::Fired(_, _) => true,
        Open::Lates(_) => false,
    }
}

// An arrival with what it fired.
fn entry_with(arrival: Arrival, firing: Fired) -> Entry
    ensures { result ≡ entry_with arrival firing }
{
    let Arrival {
        number,
        stamp,
        source,
        message,
    } = arrival;
    Entry {
        number,
        source,
        message,
        stamp,
        firing,
    }
}

// Adds an effect to a firing, whose list has room for no more than it holds: a log has many. Room that a longer list
// gave back would stay unused between them.
fn add_effect(alloc: Global, firing: &mut Firing, effect: Effect) -> Result<(), LineFault>
    ensures { Becomes result firing.new (Some (with_effect firing.old effect)) }
{
    let mut rows = mem::replace(&mut firing.effects, Items::new(alloc)).into_vec();
    if rows.reserve_exact(1).is_err() {
        return Err(LineFault::NoMemory);
    }
    rows.push_reserved(effect);
    firing.effects = Items::from_vec(rows);
    Ok(())
}

// Where a source stands among all: the feeds first.
fn source_place(feeds: u32, source: Source) -> u64
    ensures { result ≡ source_place feeds source }
{
    match source {
        Source::Feed(feed) => u64::from(feed.saturating_sub(1)),
        Source::Actor(actor) => u64::from(feeds) + u64::from(actor),
    }
}

// Whether the source comes later than that of the late line before, if there is one.
fn follows(feeds: u32, reached: &Open, source: Source) -> bool
    ensures { result ≡ follows feeds reached.now source }
{
    match reached {
        Open::Lates(last) => source_place(feeds, *last) < source_place(feeds, source),
        Open::Heading => true,
        Open::Entries => true,
        Open::Arrived(_) => true,
        Open::Fired(_, _) => true,
    }
}
