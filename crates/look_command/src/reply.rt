//! What a request and its files come to.
ghost use Rattle.std.specs.Prelude.{IfOk};
ghost use Rattle.script_files.specs.Loading.{LoadCause, Tells};
ghost use Rattle.look_command.specs.Replying.{IsShowable, Replies};
ghost use Rattle.look_command.specs.Request.{HasFewFeeds, request_in};

use crate::auditing::audit_reply;
use crate::explaining::why_reply;
use crate::reacting::reactions_reply;
use crate::request::Request;
use fair_semantics::Run;
use join_base::{Bytes, Inputs};
use join_command::Stop;
use log_audit::Difference;
use script_types::Plan;
use std::alloc::Global;

/// What is to be written.
#[derive(Drop)]
pub enum Reply {
    /// The number of arrivals of a log that is accepted.
    Accepted(u64),
    /// The number of feeds of a log that is not that of the feeds given.
    OtherFeeds(u32),
    /// Where a log is not that of its feeds, with what stands there and what should.
    OtherRow {
        difference: Difference,
        shown: Bytes,
    },
    /// The script has no actor of the name that is given.
    UnknownActor,
    /// A run whose reactions are to be shown: those of one actor, counted from 0, or of all.
    Reacts {
        plan: Plan,
        run: Run,
        only: Option<u32>,
    },
    /// A run of which it is to be said why the messages of an actor, counted from 0, wait, or why the wanted one does.
    Explains {
        plan: Plan,
        run: Run,
        actor: u32,
        wanted: Option<u32>,
    },
}

/// What a request and its files come to. Only names that the request gives are fetched, in their order, and none behind
/// the first refusal.
pub fn reply_of<I: Inputs>(
    alloc: Global,
    request: &Request<'_>,
    inputs: &mut I,
) -> Result<Reply, Stop>
    requires few { HasFewFeeds (request_in request.now) }
    ensures told { Tells (I.tells inputs.old) (I.tells inputs.new) (λ before now. Replies (request_in request.now)
        before now result) }
    ensures cause { LoadCause (I.faults inputs.old) (I.faults inputs.new) result }
    ensures showable { IfOk result IsShowable }
{
    match request {
        Request::Audit(words) => audit_reply(alloc, inputs, words),
        Request::Reactions(words) => reactions_reply(alloc, inputs, words),
        Request::Why(words) => why_reply(alloc, inputs, words),
    }
}
