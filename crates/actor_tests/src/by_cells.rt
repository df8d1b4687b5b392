//! Runs that cells come to without a pool: they are prepared, posted to, served and settled.
ghost use Rattle.std.specs.Prelude.{◌≡◌, ℕ, ◌<◌, All, IfOk, OnOk, length, map};
ghost use Rattle.script_types.specs.Typed.{IsTyped};
ghost use Rattle.fair_semantics.specs.Fits.{IsFrom1To};
ghost use Rattle.run_fit_law.specs.FitsLaw.{RulesFit};
ghost use Rattle.actor_turn.specs.Held.{AreLimits};
ghost use Rattle.cell_links.specs.Ends.{link_count, poster_tag};
ghost use Rattle.actor_cells.specs.AllLawful.{AreLawful};
ghost use Rattle.actor_cells.specs.Lawful.{cell_tag};
ghost use Rattle.actor_cells.specs.Prepared.{AreWired, cells_of};
ghost use Rattle.actor_cells.specs.Tags.{AreTagsOf};

use crate::cases::{Case, older_first, ping_pong, stopped, thousand, thousand_texts};
use crate::fed::limits_of;
use crate::one_thread::feed_of;
use crate::whole_runs::same_run;
use actor_cells::{Cells, prepare};
use cell_links::FeedLinks;
use fair_semantics::{Limits, Run};
use join_base::{FeedList, Message, Posts, Steps};
use log_reader::read_log;
use pool_settling::settle_with;
use script_check::read_plan;
use script_types::Plan;
use sensor_feed::read_feed;
use std::alloc::Global;
use std::marker::Brand;
use std::sync::ledger::{Blank, Ledger};
use std::test::Fail;

// The cells of a plan, and the poster of a feed, whose links have so much room.
pub fn prepared(
    alloc: Global,
    plan: &Plan,
    limits: Limits,
    ring: u32,
) -> Result<(Cells, Vec<FeedLinks>), Fail>
    requires typed { IsTyped plan.now }
    requires limits { AreLimits limits }
    requires ring { IsFrom1To 4096 ring }
    ensures cells { IfOk result (λ made. length (cells_of made.0) ≡ length plan.now.actors) }
    ensures tags { IfOk result (λ made. AreTagsOf plan.now limits 1 (map cell_tag (cells_of made.0))) }
    ensures lawful { IfOk result (λ made. AreLawful (cells_of made.0)) }
    ensures wired { IfOk result (λ made. AreWired (map cell_tag (cells_of made.0)) (map poster_tag made.1.items)) }
    ensures posters { IfOk result (λ made. length made.1.items ≡ 1) }
    ensures links { IfOk result (λ made. All (λ p. link_count p ≡ length (cells_of made.0)) made.1.items) }
    ensures rules { OnOk result ((actor : ℕ) → actor < length plan.now.actors → RulesFit plan.now limits actor) }
{
    let made = prepare(alloc, plan, limits, 1, ring)?;
    Ok(made)
}

// Serves the cell of an actor. The answer is whether there was memory.
fn is_served<L: Ledger>(alloc: Global, cells: &mut Cells, actor: u32, steps: &mut Steps<L>) -> bool
    requires exists { actor < length (cells_of cells.old) }
    requires lawful { AreLawful (cells_of cells.old) }
    ensures lawful { AreLawful (cells_of cells.new) }
    ensures tags { map cell_tag (cells_of cells.new) ≡ map cell_tag (cells_of cells.old) }
    ensures count { length (cells_of cells.new) ≡ length (cells_of cells.old) }
{
    let served = cells.serve(alloc, actor, steps);
    served.is_ok()
}

fn is_pushed(poster: &mut FeedLinks, actor: u32, message: Message) -> bool
    requires exists { actor < link_count poster.old }
    ensures poster { poster_tag poster.new ≡ poster_tag poster.old }
{
    poster.push(actor, message).is_ok()
}

// Posts a message. Where the link is full, the actor is served, and then there is room.
fn is_posted<L: Ledger>(
    alloc: Global,
    cells: &mut Cells,
    poster: &mut FeedLinks,
    actor: u32,
    message: Message,
    steps: &mut Steps<L>,
) -> bool
    requires exists { actor < length (cells_of cells.old) }
    requires links { link_count poster.old ≡ length (cells_of cells.old) }
    requires lawful { AreLawful (cells_of cells.old) }
    ensures lawful { AreLawful (cells_of cells.new) }
    ensures tags { map cell_tag (cells_of cells.new) ≡ map cell_tag (cells_of cells.old) }
    ensures count { length (cells_of cells.new) ≡ length (cells_of cells.old) }
    ensures poster { poster_tag poster.new ≡ poster_tag poster.old }
{
    match poster.push(actor, message) {
        Ok(()) => true,
        Err(full) => {
            let served = is_served(alloc, cells, actor, steps);
            let pushed = is_pushed(poster, actor, full.message);
            served && pushed
        }
    }
}

// Posts a copy of a message to an actor, where there is one of this number.
fn is_copy_posted<L: Ledger>(
    alloc: Global,
    cells: &mut Cells,
    poster: &mut FeedLinks,
    actor: u32,
    message: &Message,
    steps: &mut Steps<L>,
) -> bool
    requires links { link_count poster.old ≡ length (cells_of cells.old) }
    requires lawful { AreLawful (cells_of cells.old) }
    ensures lawful { AreLawful (cells_of cells.new) }
    ensures tags { map cell_tag (cells_of cells.new) ≡ map cell_tag (cells_of cells.old) }
    ensures count { length (cells_of cells.new) ≡ length (cells_of cells.old) }
    ensures poster { poster_tag poster.new ≡ poster_tag poster.old }
{
    if actor as usize >= cells.len() {
        return false;
    }
    match message.copy(alloc) {
        Ok(message) => is_posted(alloc, cells, poster, actor, message, steps),
        Err(_) => false,
    }
}

// Posts all posts of a feed in order.
fn are_posted<L: Ledger>(
    alloc: Global,
    cells: &mut Cells,
    poster: &mut FeedLinks,
    posts: &Posts,
    steps: &mut Steps<L>,
) -> bool
    requires links { link_count poster.old ≡ length (cells_of cells.old) }
    requires lawful { AreLawful (cells_of cells.old) }
    ensures lawful { AreLawful (cells_of cells.new) }
    ensures tags { map cell_tag (cells_of cells.new) ≡ map cell_tag (cells_of cells.old) }
    ensures poster { poster_tag poster.new ≡ poster_tag poster.old }
{
    let mut all = true;
    'rows: for (actor, message) in posts.as_slice() {
        all &= is_copy_posted(alloc, cells, poster, *actor, message, steps);
    }
    all
}

// The run behind these posts and what is left of the feed, and whether all were posted.
fn run_by_cells<L: Ledger>(
    alloc: Global,
    plan: &Plan,
    limits: Limits,
    posts: &Posts,
    rest: FeedList,
    ring: u32,
    blank: Blank,
) -> Result<(bool, Run), Fail>
    requires name { blank.name ≡ L.name }
    requires parts { blank.parts ≡ L.parts }
    requires some { 0 < L.parts }
    requires typed { IsTyped plan.now }
    requires limits { AreLimits limits }
    requires one { length rest ≡ 1 }
    requires ring { IsFrom1To 4096 ring }
{
    let (mut cells, mut posters) = prepared(alloc, plan, limits, ring)?;
    let mut steps = Steps::<L>::new(blank);
    let posted = are_posted(alloc, &mut cells, &mut posters[0], posts, &mut steps);
    let run = settle_with(
        alloc,
        plan,
        limits,
        cells.into_cells(),
        posters,
        rest,
        &mut steps,
    )?;
    Ok((posted, run))
}

// Whether the cells come to the run of the log, where the rows up to this byte are posted and the others are left.
fn come_to_the_log(
    alloc: Global,
    plan: &Plan,
    limits: Limits,
    case: Case<'_>,
    place: usize,
    ring: u32,
) -> Result<bool, Fail>
    requires typed { IsTyped plan.now }
    requires limits { AreLimits limits }
    requires ring { IsFrom1To 4096 ring }
{
    let rows = case.rows;
    let (front, back) = rows.split_at(place.min(rows.len()));
    let feed = read_feed(alloc, plan, front)?;
    let posts = feed.unpacked(alloc)?;
    let rest = feed_of(alloc, plan, back)?;
    let (posted, run) = run_by_cells::<Brand>(
        alloc,
        plan,
        limits,
        &posts,
        rest,
        ring,
        Blank::new(1),
    )?;
    let expected = read_log(alloc, plan, case.log)?;
    Ok(posted && same_run(&expected, &run))
}

fn is_right(alloc: Global, case: Case<'_>, place: usize, ring: u32) -> Result<bool, Fail>
    requires ring { IsFrom1To 4096 ring }
{
    let plan = read_plan(alloc, case.script)?;
    let limits = limits_of(case.most.0, case.most.1);
    come_to_the_log(alloc, &plan, limits, case, place, ring)
}

#[test]
fn cells_behind_links_of_one_place_come_to_the_log(rt: HostRuntime) -> Result<(), Fail> {
    let answers = is_right(rt.alloc(), ping_pong(), 9, 1)?;
    let stopped = is_right(rt.alloc(), stopped(), 18, 1)?;
    assert!(rt; answers && stopped);
    Ok(())
}

// Rows of six bytes each.
#[test]
fn what_is_left_of_a_feed_arrives_behind_what_was_posted(rt: HostRuntime) -> Result<(), Fail> {
    let none = is_right(rt.alloc(), older_first(), 0, 1)?;
    let two = is_right(rt.alloc(), older_first(), 12, 64)?;
    assert!(rt; none && two);
    Ok(())
}

fn is_thousand_right(alloc: Global, ring: u32) -> Result<bool, Fail>
    requires ring { IsFrom1To 4096 ring }
{
    let texts = thousand_texts(alloc)?;
    let case = thousand(&texts);
    is_right(alloc, case, case.rows.len(), ring)
}

#[test]
fn cells_come_to_the_log_of_a_thousand_rows(rt: HostRuntime) -> Result<(), Fail> {
    let small = is_thousand_right(rt.alloc(), 1)?;
    let large = is_thousand_right(rt.alloc(), 64)?;
    assert!(rt; small && large);
    Ok(())
}
