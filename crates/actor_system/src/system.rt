//! The system.
ghost use Rattle.std.specs.Prelude.{◌≡◌, ◌<◌, ◌≤◌, ◌^◌, length, false, IfOk, OnErr, OnOk};
ghost use Rattle.join_base.specs.declared.message.Source.TheVariants as source;
ghost use Rattle.script_types.specs.Typed.{IsTyped};
ghost use Rattle.fair_semantics.specs.Fits.{IsFrom1To, SourceFits};
ghost use Rattle.fair_semantics.specs.Linked.{IsLinked};
ghost use Rattle.run_order_law.specs.Order.{IsScheduled, shown};
ghost use Rattle.schedule_law.specs.Reached.{FeedsFit};
ghost use Rattle.schedule_law.specs.WorkLeft.{work_left};
ghost use Rattle.actor_turn.specs.Held.{AreLimits};
ghost use Rattle.fair_semantics.specs.Schedule.{system_at_first};
ghost use Rattle.actor_system.specs.Serving.{MovedTo, Served, ServedInPart, StandsAt, MadeSteps, MadeStepsInPart, after_link, links_of, links_to, some_taken, some_waits, system_in, waits_on};

use crate::feed::next_for;
use crate::opening::{actors_of, zeros};
use crate::runs::into_runs;
use crate::source::source_at;
use actor_turn::{Actor, Refused};
use fair_semantics::{ActorRun, Limits, LogVersion, Run};
use join_base::{FeedList, Items, NoMemory, Source, Stamped, Steps};
use script_types::Plan;
use std::alloc::Global;
use std::marker::Model;
use std::sync::ledger::Ledger;

/// The actors of a plan on one thread, and the feeds.
#[derive(Drop)]
pub struct System<'p> {
    plan: &'p Plan,
    limits: Limits,
    feeds: FeedList,
    // For each feed and each actor the place of the feed's first post that may still be for the actor.
    places: Vec<Vec<usize>>,
    // The posts of an actor wait in its outboxes.
    actors: Vec<Actor>,
    // Empty, with room for the run of each actor.
    runs: Vec<ActorRun>,
}

impl<'p> Model for System<'p> {
    ghost use Rattle.actor_system.specs.Serving.{Serving};
    ghost use Rattle.actor_system.specs.Inside.{IsKept, serving_of};
    ghost use Rattle.std.specs.Coded.{codes};
    ghost use Rattle.guard_eval.specs.Condition.{coded_condition};

    ghost Value = { Serving };

    ghost coded = { Prim.hlevel (codes, coded_condition) };

    ghost view = { serving_of };

    ghost invariant = { IsKept };
}

impl<'p> System<'p> {
    /// The actors of the plan in their opening states, and the posts of the feeds waiting.
    pub fn new(
        alloc: Global,
        plan: &'p Plan,
        limits: Limits,
        feeds: FeedList,
    ) -> Result<System<'p>, NoMemory>
        requires typed { IsTyped plan.now }
        requires limits { AreLimits limits }
        requires count { IsFrom1To 16 (length feeds) }
        requires values { FeedsFit feeds }

        ensures opening { IfOk result (StandsAt plan.now limits feeds (system_at_first plan.now feeds)) }
    {
        let count = plan.actors.len();
        let actors = actors_of(alloc, plan, limits, feeds.len() as u32)?;
        let places = zeros(alloc, feeds.len(), count)?;
        let runs = Vec::with_capacity(alloc, count)?;
        Ok(System {
            plan,
            limits,
            feeds,
            places,
            actors,
            runs,
        })
    }

    // Brings the first post of a feed, if one waits, to its actor.
    fn bring_fed<L: Ledger>(
        &mut self,
        alloc: Global,
        target: u32,
        feed: u32,
        steps: &mut Steps<L>,
    ) -> Result<bool, NoMemory>
        requires target { target < length self.old.plan.actors }
        requires exists { SourceFits self.old.plan (length self.old.feeds) (source.Feed feed) }

        ensures served { OnOk result (MovedTo self.old (after_link self.old.plan self.old.limits (system_in self.old)
            (target, source.Feed feed)) self.new) }
        ensures taken { IfOk result (λ taken. taken ≡ waits_on (system_in self.old) (target, source.Feed feed)) }
        ensures unchanged { OnErr result (MovedTo self.old (system_in self.old) self.new) }
    {
        let row = (feed - 1) as usize;
        let column = target as usize;
        let posts = self.feeds.at(row).as_slice();
        let Some(place) = next_for(posts, self.places[row][column], target) else {
            // So that the rest is not walked over again.
            self.places[row][column] = posts.len();
            return Ok(false);
        };
        let message = &posts[place].1;
        self.actors[column].arrive(alloc, Source::Feed(feed), message, 0, steps)?;
        self.places[row][column] = place + 1;
        Ok(true)
    }

    // Brings the first post of an actor, if one waits, to its target.
    fn bring_posted<L: Ledger>(
        &mut self,
        alloc: Global,
        target: u32,
        sender: u32,
        steps: &mut Steps<L>,
    ) -> Result<bool, NoMemory>
        requires target { target < length self.old.plan.actors }
        requires exists { SourceFits self.old.plan (length self.old.feeds) (source.Actor sender) }

        ensures served { OnOk result (MovedTo self.old (after_link self.old.plan self.old.limits (system_in self.old)
            (target, source.Actor sender)) self.new) }
        ensures taken { IfOk result (λ taken. taken ≡ waits_on (system_in self.old) (target, source.Actor sender)) }
        ensures unchanged { OnErr result (MovedTo self.old (system_in self.old) self.new) }
    {
        let Some(post) = self.actors[sender as usize].take_post(target) else {
            return Ok(false);
        };
        let source = Source::Actor(sender);
        let Stamped { message, stamp } = post;
        let actor = &mut self.actors[target as usize];
        match actor.receive(alloc, source, message, stamp, steps) {
            Ok(_) => Ok(true),
            Err(Refused { message }) => {
                let post = Stamped { message, stamp };
                self.actors[sender as usize].return_post(target, post);
                Err(NoMemory)
            }
        }
    }

    // Brings the first post of the link from a source, if one waits, to its actor.
    fn bring<L: Ledger>(
        &mut self,
        alloc: Global,
        target: u32,
        source: Source,
        steps: &mut Steps<L>,
    ) -> Result<bool, NoMemory>
        requires target { target < length self.old.plan.actors }
        requires exists { SourceFits self.old.plan (length self.old.feeds) source }

        ensures served { OnOk result (MovedTo self.old (after_link self.old.plan self.old.limits (system_in self.old)
            (target, source)) self.new) }
        ensures taken { IfOk result (λ taken. taken ≡ waits_on (system_in self.old) (target, source)) }
        ensures unchanged { OnErr result (MovedTo self.old (system_in self.old) self.new) }
    {
        match source {
            Source::Feed(feed) => self.bring_fed(alloc, target, feed, steps),
            Source::Actor(sender) => self.bring_posted(alloc, target, sender, steps),
        }
    }

    // Brings the first post of each link to an actor, one after the other.
    fn serve<L: Ledger>(
        &mut self,
        alloc: Global,
        target: u32,
        steps: &mut Steps<L>,
    ) -> Result<bool, NoMemory>
        requires target { target < length self.old.plan.actors }

        ensures served { OnOk result (Served self.old (links_to self.old target) self.new) }
        ensures taken { IfOk result (λ taken. taken ≡ some_taken self.old.plan self.old.limits (system_in self.old)
            (links_to self.old target)) }
        ensures part { OnErr result (ServedInPart self.old (links_to self.old target) self.new) }
    {
        let feeds = self.feeds.len();
        let sources = feeds + self.actors.len();
        let mut taken = false;
        for place in 0..sources {
            taken |= self.bring(alloc, target, source_at(feeds, place), steps)?;
        }
        Ok(taken)
    }

    /// Brings the first post of each link to its actor: target by target, and for each its feeds before its actors. The
    /// answer is whether a post was taken, which is so exactly where one waited. After `NoMemory` the post that was
    /// refused waits first as before, and the earlier ones have arrived.
    pub fn step<L: Ledger>(&mut self, alloc: Global, steps: &mut Steps<L>) -> Result<bool, NoMemory>
        ensures served { OnOk result (Served self.old (links_of self.old) self.new) }
        ensures taken { IfOk result (λ taken. taken ≡ some_waits self.old) }
        ensures nothing { IfOk result (λ taken. taken ≡ false → some_waits self.new ≡ false) }
        ensures part { OnErr result (ServedInPart self.old (links_of self.old) self.new) }
    {
        let targets = self.actors.len() as u32;
        let mut taken = false;
        for target in 0..targets {
            taken |= self.serve(alloc, target, steps)?;
        }
        Ok(taken)
    }

    // No run has more steps: each takes a post, and an arrival makes at most 16. There are at most 32 actors.
    fn most_steps(&self) -> u128
        ensures typed { IsTyped self.now.plan }
        ensures most { work_left self.now.plan self.now.limits (length self.now.feeds) (system_in self.now) ≤ result }
    {
        let mut posts: u128 = 0;
        for feed in 0..self.feeds.len() {
            posts += self.feeds.at(feed).len() as u128;
        }
        32 * (posts + 17 * self.limits.arrivals as u128)
    }

    /// Steps until nothing waits, which it always comes to.
    /// After `NoMemory` the post that was refused waits first as before, and the earlier ones have arrived.
    pub fn run_to_end<L: Ledger>(
        &mut self,
        alloc: Global,
        steps: &mut Steps<L>,
    ) -> Result<(), NoMemory>
        ensures plan { self.new.plan ≡ self.old.plan }
        ensures limits { self.new.limits ≡ self.old.limits }
        ensures feeds { self.new.feeds ≡ self.old.feeds }
        ensures nothing { OnOk result (some_waits self.new ≡ false) }
        ensures stepped { OnOk result (MadeSteps self.old self.new) }
        ensures part { OnErr result (MadeStepsInPart self.old self.new) }
    {
        for turn in 0..self.most_steps() {
            if !self.step(alloc, steps)? {
                break;
            }
        }
        Ok(())
    }

    /// The run that the actors show, where nothing waits. It takes no memory.
    pub fn finish(self) -> Run
        requires nothing { some_waits self ≡ false }

        ensures shown { result ≡ shown self.entry.plan self.entry.limits self.entry.feeds (system_in self.entry) }
        ensures linked { IsLinked self.entry.plan self.entry.limits self.entry.feeds result }
        ensures scheduled { IsScheduled self.entry.plan self.entry.limits self.entry.feeds result }
    {
        let System {
            limits,
            feeds,
            actors,
            runs,
            ..
        } = self;
        Run {
            version: LogVersion::stamped(),
            limits,
            feeds: feeds.len() as u32,
            actors: into_runs(actors, runs),
        }
    }
}
