//! What `why` and its files come to.
ghost use Rattle.std.specs.Prelude.{◌≡◌, IfOk};
ghost use Rattle.script_types.specs.Typed.{IsTyped};
ghost use Rattle.fair_semantics.specs.Fits.{RunFits};
ghost use Rattle.script_files.specs.Loading.{LoadCause, Tells};
ghost use Rattle.look_command.specs.Replying.{IsShowable, Replies, verdict_of};
ghost use Rattle.look_command.specs.Request.{why_in};
ghost use Rattle.look_command.specs.Verdict.{OfWhy, explains_of};

use crate::reacting::actor_named;
use crate::reply::Reply;
use crate::request::WhyWords;
use crate::runs::load_run;
use fair_semantics::Run;
use join_base::{Inputs, Word};
use join_command::{Stop, load_script};
use script_types::Plan;
use std::alloc::Global;

// Why the messages of an actor that was looked up wait.
fn explains_of(plan: Plan, run: Run, actor: Option<u32>, wanted: Option<u32>) -> Reply
    requires typed { IsTyped plan }
    requires fits { RunFits plan run }
    ensures verdict { verdict_of result ≡ explains_of plan run actor wanted }
    ensures showable { IsShowable result }
{
    match actor {
        Some(actor) => Reply::Explains {
            plan,
            run,
            actor,
            wanted,
        },
        None => Reply::UnknownActor,
    }
}

fn explained(plan: Plan, run: Run, name: &Word, wanted: Option<u32>) -> Reply
    requires typed { IsTyped plan }
    requires fits { RunFits plan run }
    ensures verdict { OfWhy name.now wanted plan run (verdict_of result) }
    ensures showable { IsShowable result }
{
    let actor = actor_named(&plan, name);
    explains_of(plan, run, actor, wanted)
}

/// What `why SCRIPT LOG ACTOR` comes to, perhaps with a number: the script and the log are fetched.
pub(crate) fn why_reply<I: Inputs>(
    alloc: Global,
    inputs: &mut I,
    words: &WhyWords<'_>,
) -> Result<Reply, Stop>
    ensures told { Tells (I.tells inputs.old) (I.tells inputs.new) (λ before now. Replies (why_in words.now)
        before now result) }
    ensures cause { LoadCause (I.faults inputs.old) (I.faults inputs.new) result }
    ensures showable { IfOk result IsShowable }
{
    match load_script(alloc, inputs, words.script) {
        Err(stop) => Err(stop),
        Ok(plan) => match load_run(alloc, inputs, &plan, words.log) {
            Err(stop) => Err(stop),
            Ok(read) => Ok(explained(plan, read, words.actor, words.number)),
        },
    }
}
