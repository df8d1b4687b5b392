//! What `reactions` and its files come to.
ghost use Rattle.std.specs.Prelude.{◌≡◌, IfOk};
ghost use Rattle.std.specs.List.{position};
ghost use Rattle.std.specs.Option.{option_map};
ghost use Rattle.std.specs.Str.{bytes_eq};
ghost use Rattle.script_types.specs.declared.plan.ActorPlan.{ActorPlan};
ghost use Rattle.script_types.specs.Typed.{IsTyped};
ghost use Rattle.fair_semantics.specs.Fits.{RunFits};
ghost use Rattle.command_words.specs.Views.{bytes_of};
ghost use Rattle.script_files.specs.Loading.{LoadCause, Tells};
ghost use Rattle.look_command.specs.Replying.{IsShowable, Replies, verdict_of};
ghost use Rattle.look_command.specs.Request.{reactions_in};
ghost use Rattle.look_command.specs.Verdict.{OfReactions, actor_named, reacts_of};

use crate::reply::Reply;
use crate::request::ReactionsWords;
use crate::runs::load_run;
use fair_semantics::Run;
use join_base::{Inputs, Word};
use join_command::{Stop, load_script};
use script_types::{ActorPlan, Plan};
use std::alloc::Global;

fn actor_place(actors: &[ActorPlan], name: &[u8]) -> Option<usize>
    ensures { result ≡ position (λ (actor : ActorPlan). bytes_eq actor.name name.now) actors.now }
{
    actors.iter().position(|actor| actor.name.bytes() == name)
}

/// The number of the actor of a name, from 0.
pub(crate) fn actor_named(plan: &Plan, name: &Word) -> Option<u32>
    requires typed { IsTyped plan.now }
    ensures { result ≡ actor_named plan.now name.now }
{
    match actor_place(plan.actors.as_slice(), name.as_str().as_bytes()) {
        Some(place) => Some(place as u32),
        None => None,
    }
}

// The reactions of an actor that was looked up.
fn reacts_of(plan: Plan, run: Run, actor: Option<u32>) -> Reply
    requires typed { IsTyped plan }
    requires fits { RunFits plan run }
    ensures verdict { verdict_of result ≡ reacts_of plan run actor }
    ensures showable { IsShowable result }
{
    match actor {
        Some(actor) => Reply::Reacts {
            plan,
            run,
            only: Some(actor),
        },
        None => Reply::UnknownActor,
    }
}

// The reactions of all actors, or of that of a name.
fn reacted(plan: Plan, run: Run, actor: Option<&Word>) -> Reply
    requires typed { IsTyped plan }
    requires fits { RunFits plan run }
    ensures verdict { OfReactions (option_map bytes_of actor.entry) plan run (verdict_of result) }
    ensures showable { IsShowable result }
{
    match actor {
        Some(name) => {
            let actor = actor_named(&plan, name);
            reacts_of(plan, run, actor)
        }
        None => Reply::Reacts {
            plan,
            run,
            only: None,
        },
    }
}

/// What `reactions SCRIPT LOG` comes to, perhaps with the name of an actor: the script and the log are fetched.
pub(crate) fn reactions_reply<I: Inputs>(
    alloc: Global,
    inputs: &mut I,
    words: &ReactionsWords<'_>,
) -> Result<Reply, Stop>
    ensures told { Tells (I.tells inputs.old) (I.tells inputs.new) (λ before now. Replies (reactions_in words.now)
        before now result) }
    ensures cause { LoadCause (I.faults inputs.old) (I.faults inputs.new) result }
    ensures showable { IfOk result IsShowable }
{
    match load_script(alloc, inputs, words.script) {
        Err(stop) => Err(stop),
        Ok(plan) => match load_run(alloc, inputs, &plan, words.log) {
            Err(stop) => Err(stop),
            Ok(read) => Ok(reacted(plan, read, words.actor)),
        },
    }
}
