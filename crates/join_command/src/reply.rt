//! What a command and its files come to.
ghost use Rattle.std.specs.Prelude.{◌≡◌, IfOk};
ghost use Rattle.fair_semantics.specs.Fits.{IsFrom1To};
ghost use Rattle.command_words.specs.Command.{Ask, Check, Lint, Replay, Run, Watch};
ghost use Rattle.command_words.specs.Ranges.{IsInRange, RunIsInRange};
ghost use Rattle.command_words.specs.Views.{command_in, run_in};
ghost use Rattle.script_files.specs.Loading.{LoadCause, Tells};
ghost use Rattle.join_command.specs.Replying.{IsRunnable, Replies};

use crate::replay::load_log;
use command_words::{Request, RunOptions, RunWords};
use feed_store::Feeds;
use join_base::{Bytes, Inputs, Word};
use script_files::{Stop, load_feeds, load_lint_text, load_plan_text, load_script};
use script_types::Plan;
use std::alloc::Global;

/// What is to be written or run.
#[derive(Drop)]
pub enum Reply {
    /// The text of a script's plan.
    Check(Bytes),
    /// The text of the findings of a script's plan.
    Lint(Bytes),
    /// A plan that runs by the options, with the posts of its feeds.
    Run {
        plan: Plan,
        options: RunOptions,
        feeds: Feeds,
    },
    /// The same, where the answers of the rows are asked too.
    Ask {
        plan: Plan,
        options: RunOptions,
        feeds: Feeds,
    },
    /// The same, where so many monitors watch, from 1 to 8, and the totals of the actors are asked.
    Watch {
        plan: Plan,
        options: RunOptions,
        feeds: Feeds,
        monitors: u32,
    },
    /// How many rows each feed of the building has, from 1 to 20,000.
    Load {
        rows: u32,
    },
    /// The number of arrivals of a log that is accepted.
    Accepted(u64),
}

// What `run SCRIPT FEED..` comes to.
fn run_reply<I: Inputs>(alloc: Global, inputs: &mut I, run: &RunWords<'_>) -> Result<Reply, Stop>
    requires in_range { RunIsInRange (run_in run.now) }
    ensures told { Tells (I.tells inputs.old) (I.tells inputs.new) (λ before now. Replies (Run (run_in run.now))
        before now result) }
    ensures cause { LoadCause (I.faults inputs.old) (I.faults inputs.new) result }
    ensures runnable { IfOk result IsRunnable }
{
    match load_script(alloc, inputs, run.script) {
        Err(stop) => Err(stop),
        Ok(plan) => match load_feeds(alloc, inputs, &plan, run.feeds.as_slice()) {
            Err(stop) => Err(stop),
            Ok(feeds) => Ok(Reply::Run {
                plan,
                options: run.options,
                feeds,
            }),
        },
    }
}

// What `ask SCRIPT FEED..` comes to.
fn ask_reply<I: Inputs>(alloc: Global, inputs: &mut I, run: &RunWords<'_>) -> Result<Reply, Stop>
    requires in_range { RunIsInRange (run_in run.now) }
    ensures told { Tells (I.tells inputs.old) (I.tells inputs.new) (λ before now. Replies (Ask (run_in run.now))
        before now result) }
    ensures cause { LoadCause (I.faults inputs.old) (I.faults inputs.new) result }
    ensures runnable { IfOk result IsRunnable }
{
    match load_script(alloc, inputs, run.script) {
        Err(stop) => Err(stop),
        Ok(plan) => match load_feeds(alloc, inputs, &plan, run.feeds.as_slice()) {
            Err(stop) => Err(stop),
            Ok(feeds) => Ok(Reply::Ask {
                plan,
                options: run.options,
                feeds,
            }),
        },
    }
}

// What `watch SCRIPT FEED..` comes to.
fn watch_reply<I: Inputs>(
    alloc: Global,
    inputs: &mut I,
    run: &RunWords<'_>,
    monitors: u32,
) -> Result<Reply, Stop>
    requires in_range { RunIsInRange (run_in run.now) }
    requires monitors { IsFrom1To 8 monitors }
    ensures told { Tells (I.tells inputs.old) (I.tells inputs.new) (λ before now. Replies (Watch (run_in run.now)
        monitors) before now result) }
    ensures cause { LoadCause (I.faults inputs.old) (I.faults inputs.new) result }
    ensures runnable { IfOk result IsRunnable }
{
    match load_script(alloc, inputs, run.script) {
        Err(stop) => Err(stop),
        Ok(plan) => match load_feeds(alloc, inputs, &plan, run.feeds.as_slice()) {
            Err(stop) => Err(stop),
            Ok(feeds) => Ok(Reply::Watch {
                plan,
                options: run.options,
                feeds,
                monitors,
            }),
        },
    }
}

// What `check SCRIPT` comes to.
fn check_reply<I: Inputs>(alloc: Global, inputs: &mut I, script: &Word) -> Result<Reply, Stop>
    ensures told { Tells (I.tells inputs.old) (I.tells inputs.new) (λ before now. Replies (Check script.now)
        before now result) }
    ensures cause { LoadCause (I.faults inputs.old) (I.faults inputs.new) result }
    ensures runnable { IfOk result IsRunnable }
{
    match load_plan_text(alloc, inputs, script) {
        Err(stop) => Err(stop),
        Ok(text) => Ok(Reply::Check(text)),
    }
}

// What `lint SCRIPT` comes to.
fn lint_reply<I: Inputs>(alloc: Global, inputs: &mut I, script: &Word) -> Result<Reply, Stop>
    ensures told { Tells (I.tells inputs.old) (I.tells inputs.new) (λ before now. Replies (Lint script.now)
        before now result) }
    ensures cause { LoadCause (I.faults inputs.old) (I.faults inputs.new) result }
    ensures runnable { IfOk result IsRunnable }
{
    match load_lint_text(alloc, inputs, script) {
        Err(stop) => Err(stop),
        Ok(text) => Ok(Reply::Lint(text)),
    }
}

// What `replay SCRIPT LOG` comes to.
fn replay_reply<I: Inputs>(
    alloc: Global,
    inputs: &mut I,
    script: &Word,
    log: &Word,
) -> Result<Reply, Stop>
    ensures told { Tells (I.tells inputs.old) (I.tells inputs.new) (λ before now. Replies (Replay script.now log.now)
        before now result) }
    ensures cause { LoadCause (I.faults inputs.old) (I.faults inputs.new) result }
    ensures runnable { IfOk result IsRunnable }
{
    match load_script(alloc, inputs, script) {
        Err(stop) => Err(stop),
        Ok(plan) => match load_log(alloc, inputs, &plan, log) {
            Err(stop) => Err(stop),
            Ok(arrivals) => Ok(Reply::Accepted(arrivals)),
        },
    }
}

/// What a command and its files come to. Only names that the command gives are fetched, in their order, and none
/// behind the first refusal.
pub fn reply_of<I: Inputs>(
    alloc: Global,
    command: &Request<'_>,
    inputs: &mut I,
) -> Result<Reply, Stop>
    requires in_range { IsInRange (command_in command.now) }
    ensures told { Tells (I.tells inputs.old) (I.tells inputs.new) (λ before now. Replies (command_in command.now)
        before now result) }
    ensures cause { LoadCause (I.faults inputs.old) (I.faults inputs.new) result }
    ensures runnable { IfOk result IsRunnable }
{
    match command {
        Request::Run(run) => run_reply(alloc, inputs, run),
        Request::Check { script } => check_reply(alloc, inputs, script),
        Request::Lint { script } => lint_reply(alloc, inputs, script),
        Request::Replay { script, log } => replay_reply(alloc, inputs, script, log),
        Request::Load { rows } => Ok(Reply::Load { rows: *rows }),
        Request::Ask(run) => ask_reply(alloc, inputs, run),
        Request::Watch { run, monitors } => watch_reply(alloc, inputs, run, *monitors),
    }
}
