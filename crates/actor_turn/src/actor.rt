//! One actor.
ghost use Rattle.std.specs.Prelude.{◌≡◌, ◌+◌, ◌-◌, ◌<◌, ◌≤◌, ℕ, length, map, false, true, IfErr, IfOk, IfSome, OnErr, OnOk, Some, option_map, slice_get, slice_index_or};
ghost use Rattle.std.specs.List.{AllByRecursion};
ghost use Rattle.std.specs.List.Sorted.{IsStrictlyIncreasing};
ghost use Rattle.join_base.specs.Late.{HasCount};
ghost use Rattle.join_base.specs.declared.message.Message.{Message};
ghost use Rattle.join_base.specs.declared.message.Source.{Source};
ghost use Rattle.script_types.specs.Typed.{IsTyped};
ghost use Rattle.fair_semantics.specs.Step.{fair_step, is_running};
ghost use Rattle.fair_semantics.specs.Fair.{partials_of, run_of, setting_of};
ghost use Rattle.fair_semantics.specs.Fits.{RuleFits};
ghost use Rattle.actor_turn.specs.Counts.{fired_among, posts_among};
ghost use Rattle.actor_turn.specs.Rest.{HoldsPartialMatches, NoMatchWaits};
ghost use Rattle.actor_turn.specs.Held.{AreLimits, IsArrival, entry_effects, entry_source, first_of, history_with, is_taken, new_actor, new_entries, posts_behind, posts_for, tries_for, with_first, without_first};

use crate::firings::Firings;
use crate::fit::fits;
use crate::indexed::{empty_ended, index_of, remove_taken};
use crate::opening::{copy_rules, kind_sorts, outboxes_of, trees_of};
use crate::outbox::Outbox;
use crate::refused::Refused;
use crate::run::{into_entries, reserve_entry};
use crate::step::{fire, give_up, keep, record, spend};
use crate::texts::rule_texts;
use fair_semantics::{ActorRun, Effect, Ending, Entry, Fired, Limits, Outcome};
use join_base::{Items, Message, NoMemory, Sort, Source, Stamped, Steps};
use mailbox_core::Mailbox;
use match_tree::MatchTree;
use script_types::{Plan, Rule};
use std::alloc::Global;
use std::marker::Model;
use std::sync::ledger::Ledger;
use tree_law::{best_of, count_paths};
use value_index::ValueIndex;

/// An actor between two arrivals. It keeps its own copy of what it needs of the plan.
#[derive(Drop)]
pub struct Actor {
    sorts: Items<Items<Sort>>,
    rules: Items<Rule>,
    limits: Limits,
    mail: Mailbox,
    // The partial matches of each rule.
    trees: Vec<MatchTree>,
    // The unconsumed numbers by the values of their messages.
    index: ValueIndex,
    firings: Firings,
    ending: Ending,
    // The posts that wait for each actor of the plan.
    outboxes: Vec<Outbox>,
    // Empty, with room for an entry of each arrival, so that the run takes no memory.
    entries: Vec<Entry>,
}

impl Model for Actor {
    ghost use Rattle.actor_turn.specs.Held.{Held};
    ghost use Rattle.actor_turn.specs.Inside.{IsKept, held_of};
    ghost use Rattle.std.specs.Coded.{codes};
    ghost use Rattle.guard_eval.specs.Condition.{coded_condition};

    ghost Value = { Held };

    ghost coded = { Prim.hlevel (codes, coded_condition) };

    ghost view = { held_of };

    ghost invariant = { IsKept };
}

// Whether an actor with this ending runs.
fn runs(ending: Ending) -> bool
    ensures { result ≡ is_running ending }
{
    match ending {
        Ending::Running => true,
        Ending::Stopped | Ending::Jammed | Ending::Spent => false,
    }
}

impl Actor {
    /// The actor of the plan with this index, counted from 0, before its first arrival. It has so many feeds. Its
    /// caller is told too that the fixed texts of its rules are texts and their numbers are of 64 bits, as their types
    /// say. `NoMemory` where there is no memory for what it keeps of the plan.
    pub fn new(
        alloc: Global,
        plan: &Plan,
        index: u32,
        limits: Limits,
        feeds: u32,
    ) -> Result<Actor, NoMemory>
        requires typed { IsTyped plan.now }
        requires exists { index < length plan.now.actors }
        requires limits { AreLimits limits }

        ensures opening { IfOk result (λ a. a ≡ new_actor plan.now index limits feeds) }
        ensures partial { IfOk result HoldsPartialMatches }
        ensures waits { IfOk result NoMatchWaits }
        ensures texts { OnOk result (AllByRecursion RuleFits (setting_of plan.now index limits).rules) }
    {
        let actor = plan.actors.at(index as usize);
        rule_texts(&actor.rules);
        let sorts = kind_sorts(alloc, &plan.kinds)?;
        let rules = copy_rules(alloc, &actor.rules)?;
        let trees = trees_of(alloc, &rules)?;
        let index = index_of(alloc, &rules)?;
        let mail = Mailbox::new(alloc, feeds, plan.actors.len() as u32)?;
        let outboxes = outboxes_of(alloc, plan.actors.len())?;
        Ok(Actor {
            sorts,
            rules,
            limits,
            mail,
            trees,
            index,
            firings: Firings::new(alloc),
            ending: Ending::Running,
            outboxes,
            entries: Vec::new(alloc),
        })
    }

    // Whether the actor runs and takes the message: it is not full, the message fits, and a stamp is left.
    #[inline(always)]
    fn takes(&self, message: &Message, stamp: u64) -> bool
        ensures { result ≡ is_taken self.now.setting self.now.state message.now stamp }
    {
        if !runs(self.ending) {
            return false;
        }
        if self.mail.messages().len() >= self.limits.arrivals as usize {
            return false;
        }
        if !fits(&self.sorts, message) {
            return false;
        }
        self.mail.latest().max(stamp) < Stamped::GREATEST
    }

    // The fair step with any message that the actor doesn't take: it is late, and a running actor ends.
    fn turn_away(&mut self, source: Source) -> Outcome
        requires exists { HasCount self.old.state.late source }

        ensures step { (message : Message) (stamp : ℕ) → is_taken self.old.setting self.old.state message stamp ≡ false
            → fair_step self.old.setting self.old.state source message stamp ≡ (self.new.state, result) }
        ensures history { (message : Message) (stamp : ℕ) → is_taken self.old.setting self.old.state message stamp
            ≡ false → self.new.history ≡ history_with self.old source message stamp }
        ensures setting { self.new.setting ≡ self.old.setting }
        ensures outbox { self.new.outbox ≡ posts_behind 0 (new_entries self.old.state self.new.state) self.old.outbox }
        ensures lent { self.new.lent ≡ self.old.lent }
        ensures partial { HoldsPartialMatches self.new }
        ensures waits { NoMatchWaits self.new }
        ensures sources { (other : Source) → HasCount self.old.state.late other → HasCount self.new.state.late other }
    {
        if !runs(self.ending) {
            self.mail.add_late(source);
            return Outcome::Late;
        }
        spend(&mut self.mail, &mut self.trees, &mut self.ending, source);
        self.index.clear();
        Outcome::Spent
    }

    /// One fair step with any message, of a source that exists, and the stamp that it carries. The posts of a body wait
    /// in the outboxes of their targets from then on. Where the actor runs and takes the message, it records a copy.
    /// Then its history has the message too, with its source and that stamp, and else it stays as it was. `NoMemory`
    /// comes only where the actor runs and takes the message, and then the actor is as it was.
    pub fn arrive<L: Ledger>(
        &mut self,
        alloc: Global,
        source: Source,
        message: &Message,
        stamp: u64,
        steps: &mut Steps<L>,
    ) -> Result<Outcome, NoMemory>
        requires exists { HasCount self.old.state.late source }

        ensures step { IfOk result (λ o. fair_step self.old.setting self.old.state source message.now stamp
            ≡ (self.new.state, o)) }
        ensures history { OnOk result (self.new.history ≡ history_with self.old source message.now stamp) }
        ensures setting { self.new.setting ≡ self.old.setting }
        ensures outbox { OnOk result (self.new.outbox ≡ posts_behind 0 (new_entries self.old.state self.new.state)
            self.old.outbox) }
        ensures lent { self.new.lent ≡ self.old.lent }
        ensures partial { HoldsPartialMatches self.new }
        ensures waits { NoMatchWaits self.new }
        ensures unchanged { OnErr result (self.new ≡ self.old) }
        ensures taken { OnErr result (is_taken self.old.setting self.old.state message.now stamp ≡ true) }
        ensures steps { steps.new ≤ steps.old + tries_for self.old.setting.rules self.old.state message.now }
        ensures sources { OnOk result ((other : Source) → HasCount self.old.state.late other
            → HasCount self.new.state.late other) }
    {
        if !self.takes(message, stamp) {
            return Ok(self.turn_away(source));
        }
        // What the trees hold is told here for the exit without memory.
        let _ = self.trees();
        let own = message.copy(alloc)?;
        match self.take_in(alloc, source, own, stamp, steps) {
            Ok(outcome) => Ok(outcome),
            Err(_) => Err(NoMemory),
        }
    }

    /// The same step with a message that is handed over, and so is not copied. `Refused` comes only where there is no
    /// memory and the actor runs and takes the message. It has the message, and the actor is as it was.
    #[inline(always)]
    pub fn receive<L: Ledger>(
        &mut self,
        alloc: Global,
        source: Source,
        message: Message,
        stamp: u64,
        steps: &mut Steps<L>,
    ) -> Result<Outcome, Refused>
        requires exists { HasCount self.old.state.late source }

        ensures step { IfOk result (λ o. fair_step self.old.setting self.old.state source message stamp
            ≡ (self.new.state, o)) }
        ensures history { OnOk result (self.new.history ≡ history_with self.old source message stamp) }
        ensures setting { self.new.setting ≡ self.old.setting }
        ensures outbox { OnOk result (self.new.outbox ≡ posts_behind 0 (new_entries self.old.state self.new.state)
            self.old.outbox) }
        ensures lent { self.new.lent ≡ self.old.lent }
        ensures partial { HoldsPartialMatches self.new }
        ensures waits { NoMatchWaits self.new }
        ensures unchanged { OnErr result (self.new ≡ self.old) }
        ensures taken { OnErr result (is_taken self.old.setting self.old.state message stamp ≡ true) }
        ensures back { IfErr result (λ r. r.message ≡ message) }
        ensures steps { steps.new ≤ steps.old + tries_for self.old.setting.rules self.old.state message }
        ensures sources { OnOk result ((other : Source) → HasCount self.old.state.late other
            → HasCount self.new.state.late other) }
    {
        if !self.takes(&message, stamp) {
            return Ok(self.turn_away(source));
        }
        self.take_in(alloc, source, message, stamp, steps)
    }

    // The fair step with a message that the actor takes.
    fn take_in<L: Ledger>(
        &mut self,
        alloc: Global,
        source: Source,
        message: Message,
        stamp: u64,
        steps: &mut Steps<L>,
    ) -> Result<Outcome, Refused>
        requires taken { is_taken self.old.setting self.old.state message stamp ≡ true }

        ensures step { IfOk result (λ o. fair_step self.old.setting self.old.state source message stamp
            ≡ (self.new.state, o)) }
        ensures history { OnOk result (self.new.history ≡ history_with self.old source message stamp) }
        ensures setting { self.new.setting ≡ self.old.setting }
        ensures outbox { OnOk result (self.new.outbox ≡ posts_behind 0 (new_entries self.old.state self.new.state)
            self.old.outbox) }
        ensures lent { self.new.lent ≡ self.old.lent }
        ensures partial { HoldsPartialMatches self.new }
        ensures waits { NoMatchWaits self.new }
        ensures unchanged { OnErr result (self.new ≡ self.old) }
        ensures back { IfErr result (λ r. r.message ≡ message) }
        ensures steps { steps.new ≤ steps.old + tries_for self.old.setting.rules self.old.state message }
    {
        let arrivals = self.mail.messages().len();
        let Ok(()) = reserve_entry(alloc, &mut self.firings, &mut self.entries, arrivals) else {
            return Err(Refused { message });
        };
        let number = record(
            &mut self.mail,
            &mut self.trees,
            &self.index,
            source,
            message,
            stamp,
            steps,
        )?;
        let Some(chosen) = best_of(&self.trees) else {
            let Ok(()) = self.index.insert(self.mail.messages(), number) else {
                return Err(give_up(&mut self.mail, &mut self.trees));
            };
            self.firings.push(Fired::none());
            let most = self.limits.partials;
            let outcome = keep(
                &mut self.mail,
                &mut self.trees,
                &mut self.ending,
                number,
                most,
            );
            empty_ended(&mut self.index, self.ending);
            return Ok(outcome);
        };
        match fire(
            alloc,
            &self.rules,
            &mut self.mail,
            &mut self.trees,
            &self.index,
            &mut self.ending,
            &mut self.outboxes,
            number,
            chosen,
        ) {
            Ok(firing) => {
                let taken = firing.taken.as_slice();
                remove_taken(&mut self.index, self.mail.messages(), taken);
                empty_ended(&mut self.index, self.ending);
                self.firings.push(Fired::from_box(firing));
                Ok(Outcome::Fired)
            }
            Err(NoMemory) => Err(give_up(&mut self.mail, &mut self.trees)),
        }
    }

    /// The trees of the rules, in order, as the actor keeps them. Of every actor they hold the partial matches of the
    /// messages that are not consumed, each once, and no complete match waits.
    pub fn trees(&self) -> &[MatchTree]
        ensures same { result.now ≡ self.now.trees }
        ensures partial { HoldsPartialMatches self.now }
        ensures waits { NoMatchWaits self.now }
    {
        &self.trees
    }

    /// The number of partial matches over all definitions.
    pub fn partials(&self) -> u64
        ensures count { result ≡ partials_of self.now.setting.rules self.now.state }
    {
        // The mailbox tells that its numbers rise.
        let _ = self.mail.messages();
        count_paths(&self.trees)
    }

    pub fn ending(&self) -> Ending
        ensures same { result ≡ self.now.state.ending }
    {
        self.ending
    }

    /// How many arrivals are recorded.
    pub fn arrivals(&self) -> u32
        ensures count { result ≡ length self.now.state.entries }
    {
        self.mail.messages().len() as u32
    }

    /// What each recorded arrival fired, if it did.
    pub fn firings(&self) -> &[Fired]
        ensures fired { result.now ≡ map (λ entry. entry.firing) self.now.state.entries }
    {
        self.firings.as_slice()
    }

    /// How many of the recorded arrivals fired. It is kept as they come.
    pub fn fired_count(&self) -> u32
        ensures count { result ≡ fired_among (map (λ entry. entry.firing) self.now.state.entries) }
    {
        self.firings.fired_count()
    }

    /// How many posts the bodies made, or the last number of 64 bits. It is kept as they come.
    pub fn post_count(&self) -> u64
        ensures count { result ≡ posts_among (map (λ entry. entry.firing) self.now.state.entries) }
    {
        self.firings.post_count()
    }

    /// The source of an arrival.
    pub fn source_of(&self, number: u32) -> Source
        requires recorded { IsArrival self.now.state number }
        ensures source { option_map entry_source (slice_get self.now.state.entries (number - 1)) ≡ Some result }
    {
        self.mail.source_of(number)
    }

    /// What the body that fired at an arrival did, in order. It is empty where the arrival fired nothing.
    pub fn effects_of(&self, number: u32) -> &[Effect]
        requires recorded { IsArrival self.now.state number }
        ensures effects { option_map entry_effects (slice_get self.now.state.entries (number - 1)) ≡ Some result.now }
    {
        match self.firings()[(number - 1) as usize].get() {
            None => &[],
            Some(firing) => firing.effects.as_slice(),
        }
    }

    /// Takes the first of the posts that wait for an actor of the plan, which may be brought back. `None` exactly where
    /// none waits, and then nothing changes.
    pub fn take_post(&mut self, target: u32) -> Option<Stamped>
        requires exists { target < length self.old.outbox }

        ensures first { result ≡ first_of (posts_for self.old.outbox target) }
        ensures taken { self.new ≡ without_first self.old target (posts_for self.old.outbox target) }
        ensures lent { IfSome result (λ post. slice_index_or self.new.lent target false ≡ true) }
    {
        self.outboxes[target as usize].take()
    }

    /// Puts a post in front of those that wait for an actor of the plan, where the last one taken was not brought back
    /// yet. It takes no memory.
    pub fn return_post(&mut self, target: u32, post: Stamped)
        requires exists { target < length self.old.outbox }
        requires lent { slice_index_or self.old.lent target false ≡ true }

        ensures returned { self.new ≡ with_first self.old target post }
    {
        self.outboxes[target as usize].give_back(post);
    }

    /// The run that the actor shows. It takes no memory.
    pub fn into_run(self) -> ActorRun
        ensures run { result ≡ run_of self.setting.rules self.state }
        ensures ascending { IsStrictlyIncreasing result.left }
    {
        let partials = self.partials();
        let Actor {
            mail,
            trees,
            index,
            firings,
            ending,
            outboxes,
            entries,
            ..
        } = self;
        // The entries need memory next.
        drop(trees);
        drop(index);
        drop(outboxes);
        let parts = mail.into_parts();
        ActorRun {
            entries: into_entries(parts.messages, parts.marks, firings.into_vec(), entries),
            late: parts.late,
            ending,
            left: parts.left,
            partials,
        }
    }
}
