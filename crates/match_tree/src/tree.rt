//! The partial matches of a definition, kept between arrivals.
ghost use Rattle.std.specs.Prelude.{◌≡◌, ◌+◌, ◌^◌, ◌-◌, ◌<◌, ◌≤◌, ◌++◌, [], ◌∷◌, length, None, OnOk, OnErr, IfOk, MatchOption};
ghost use Rattle.std.specs.List.{filter, AllByRecursion};
ghost use Rattle.match_tree.specs.Tree.{AreOnce, empty_of, offer_to, IsReserved, SameMembers, with_paths, is_path_seen, is_path_without};
ghost use Rattle.pattern_core.specs.Window.{oldest_seen};
ghost use Rattle.row_screens.specs.Offering.{AreIndexed, CanOffer};
ghost use Rattle.match_tree.specs.Tries.{tries};

use crate::by_value::prune_values;
use crate::pending::Pending;
use crate::reserve::visit_all;
use join_base::{Message, NoMemory, Numbers, Steps};
use pattern_core::{Candidate, Definition, oldest_seen};
use row_screens::{Offer, Ties};
use std::alloc::Global;
use std::marker::Model;
use std::sync::ledger::Ledger;
use tree_rows::{Row, drop_unseen, prune_rows};
use value_index::ValueIndex;

// A candidate like this one.
fn copy_of(candidate: &Candidate) -> Candidate
    ensures { result ≡ candidate.now }
{
    let mut taken = Numbers::new();
    for number in candidate.taken.as_slice() {
        taken.push(*number);
    }
    Candidate {
        rule: candidate.rule,
        taken,
    }
}

/// The partial matches of a definition. Each is a path of nodes whose numbers rise from the root.
#[derive(Drop)]
pub struct MatchTree {
    alloc: Global,
    definition: Definition,
    ties: Ties,
    rule: u32,
    rows: Vec<Row>,
    count: u64,
    pending: Option<Pending>,
}

impl Model for MatchTree {
    ghost use Rattle.match_tree.specs.Tree.{Tree};
    ghost use Rattle.std.specs.Coded.{codes};
    ghost use Rattle.guard_eval.specs.Condition.{coded_condition};

    ghost Value = { Tree };

    ghost coded = { Prim.hlevel (codes, coded_condition) };

    ghost use Rattle.std.specs.Prelude.{[], ◌∷◌};
    ghost use Rattle.tree_rows.specs.Routes.{rows_routes};
    ghost use Rattle.match_tree.specs.Kept.{IsKept, lasting, paths_of, reserve_of};

    ghost view = { λ a. record {
      definition = a.definition;
      rule = a.rule;
      paths = paths_of a.definition ([] ∷ lasting a.pending (rows_routes 0 a.rows.items));
      reserve = reserve_of a.definition a.pending (rows_routes 0 a.rows.items);
    } };

    ghost invariant = { λ a. IsKept a.definition a.ties a.rows.items a.count a.pending };
}

impl MatchTree {
    /// The tree of a definition of 1 to 8 patterns with this number, which holds the empty path alone. `NoMemory` where
    /// there is no memory for its copy of the definition.
    pub fn new(alloc: Global, definition: &Definition, rule: u32) -> Result<MatchTree, NoMemory>
        requires some { 1 ≤ length definition.now.patterns }
        requires many { length definition.now.patterns ≤ 8 }
        ensures opening { IfOk result (λ t. t ≡ record {
          definition = definition.now;
          rule = rule;
          paths = empty_of
              definition.now ∷ [];
          reserve = None;
        }) }
    {
        let definition = definition.copy(alloc)?;
        let ties = Ties::new(&definition.conjuncts);
        Ok(MatchTree {
            alloc,
            definition,
            ties,
            rule,
            rows: Vec::new(alloc),
            count: 1,
            pending: None,
        })
    }

    /// The number of paths.
    pub fn partials(&self) -> u64
        ensures count { result ≡ length self.now.paths }
        ensures once { AreOnce self.now.paths }
    {
        match &self.pending {
            None => self.count,
            Some(pending) => self.count - pending.aside,
        }
    }

    /// Offers a number to the paths: finds the least match that it completes, and where there is none sets aside what
    /// it adds to them. The index has each number of the paths. `NoMemory` where there is no memory for what is set
    /// aside: then the tree is as it was. Nothing may be set aside already.
    pub fn reserve_for<L: Ledger>(
        &mut self,
        messages: &[Message],
        index: &ValueIndex,
        number: u32,
        steps: &mut Steps<L>,
    ) -> Result<(), NoMemory>
        requires few { number < 2 ^ 32 - 1 }
        requires settled { self.old.reserve ≡ None }
        requires can { AllByRecursion (CanOffer (offer_to self.old messages.now number)) self.old.paths }
        requires indexed { AllByRecursion (AreIndexed index.now messages.now) self.old.paths }
        ensures definition { self.new.definition ≡ self.old.definition }
        ensures rule { self.new.rule ≡ self.old.rule }
        ensures paths { self.new.paths ≡ self.old.paths }
        ensures unchanged { OnErr result (self.new.reserve ≡ None) }
        ensures reserved { OnOk result (IsReserved (offer_to self.old messages.now number) self.old.paths
            self.new.reserve) }
        ensures stepped { steps.new ≤ steps.old + tries (offer_to self.old messages.now number) self.old.paths }
    {
        let offer = Offer {
            messages,
            index,
            definition: &self.definition,
            ties: &self.ties,
            rule: self.rule,
            number,
            oldest: oldest_seen(&self.definition, number),
        };
        let mut count = self.count;
        let best = visit_all(self.alloc, &offer, &mut self.rows, &mut count, steps)?;
        let aside = count - self.count;
        self.count = count;
        self.pending = Some(Pending {
            number,
            best,
            aside,
        });
        Ok(())
    }

    /// The least match that the number of the reserve completes.
    pub fn best_with(&self) -> Option<Candidate>
        ensures best { MatchOption self.now.reserve (result ≡ None) (λ r. result ≡ r.best) }
    {
        let Some(pending) = &self.pending else {
            return None;
        };
        match &pending.best {
            None => None,
            Some(best) => Some(copy_of(best)),
        }
    }

    /// The paths gain those that the reserve for the number has set aside, where it has found no match.
    pub fn extend(&mut self, number: u32)
        requires reserved { MatchOption self.old.reserve ⊥ (λ r. (r.number ≡ number) × (r.best ≡ None)) }
        ensures definition { self.new.definition ≡ self.old.definition }
        ensures rule { self.new.rule ≡ self.old.rule }
        ensures settled { self.new.reserve ≡ None }
        ensures gains { MatchOption self.old.reserve ⊥ (λ r. SameMembers self.new.paths (self.old.paths ++ r.aside)) }
    {
        self.pending = None;
    }

    /// The paths that the definition sees once the number of the reserve is recorded stay, and the others go. The
    /// reserve stays.
    pub fn expire(&mut self, number: u32)
        requires few { number < 2 ^ 32 - 1 }
        requires reserved { MatchOption self.old.reserve ⊥ (λ r. r.number ≡ number) }
        requires sees { oldest_seen self.old.definition.window number ≤ number }
        ensures { self.new ≡ with_paths self.old (filter (is_path_seen (oldest_seen self.old.definition.window number))
            self.old.paths) self.old.reserve }
    {
        if self.definition.window.is_none() {
            return;
        }
        let oldest = oldest_seen(&self.definition, number);
        let levels = self.definition.patterns.len() - 1;
        let gone = drop_unseen(&mut self.rows, oldest, levels);
        self.count -= gone;
    }

    /// Drops what a reserve set aside.
    pub fn forget(&mut self)
        ensures { self.new ≡ with_paths self.old self.old.paths None }
    {
        let Some(pending) = self.pending.take() else {
            return;
        };
        if pending.aside > 0 {
            let mut numbers = Numbers::new();
            numbers.push(pending.number);
            let levels = self.definition.patterns.len() - 1;
            let _ = prune_rows(&mut self.rows, &numbers, levels);
            self.count -= pending.aside;
        }
    }

    /// The paths that take none of these numbers stay, and the others go. Each number of a path is before this one, and
    /// the index has it. Nothing may be set aside.
    pub fn prune(
        &mut self,
        messages: &[Message],
        index: &ValueIndex,
        number: u32,
        numbers: &Numbers,
    )
        requires few { number < 2 ^ 32 - 1 }
        requires settled { self.old.reserve ≡ None }
        requires can { AllByRecursion (CanOffer (offer_to self.old messages.now number)) self.old.paths }
        requires indexed { AllByRecursion (AreIndexed index.now messages.now) self.old.paths }
        ensures { self.new ≡ with_paths self.old (filter (is_path_without numbers.now) self.old.paths) None }
    {
        let levels = self.definition.patterns.len() - 1;
        let offer = Offer {
            messages,
            index,
            definition: &self.definition,
            ties: &self.ties,
            rule: self.rule,
            number,
            oldest: oldest_seen(&self.definition, number),
        };
        let gone = prune_values(&offer, &mut self.rows, numbers, levels);
        self.count -= gone;
    }

    /// The empty path alone is left, and what a reserve set aside is dropped.
    pub fn clear(&mut self)
        ensures { self.new ≡ with_paths self.old (empty_of self.old.definition ∷ []) None }
    {
        self.rows = Vec::new(self.alloc);
        self.count = 1;
        self.pending = None;
    }
}
