//! The top call.
ghost use Rattle.std.specs.Prelude.{◌≡◌, ◌≢◌, ◌⊎◌, None, Err, IfOk};
ghost use Rattle.join_command.specs.Counting.{EndsAtFault, MakesFewWrites};
ghost use Rattle.script_files.specs.Loading.{Tells};
ghost use Rattle.join_command.specs.Output.{IsSettled};
ghost use Rattle.join_command.specs.Top.{CountsFault, IsAnswered, PrepareCause};
ghost use Rattle.look_command.specs.Answer.{AnswersWhereTold, CompletesWhereTold, FetchesInOrder, RefusesWords};
ghost use Rattle.look_command.specs.Preparing.{Prepares, PreparesRequest, TestsWords};
ghost use Rattle.look_command.specs.Request.{HasFewFeeds, request_in, request_of};

use crate::law::one_verdict;
use crate::output::output_of;
use crate::reply::reply_of;
use crate::request::{Request, request_of};
use join_base::{Bytes, Inputs, WordList};
use join_command::{CountingSink, Status, Stop, Unanswered, refused_output, usage_line, write_all};
use std::alloc::Global;

// What is to be written for a request and its files.
fn prepare_request<I: Inputs>(
    alloc: Global,
    request: &Request<'_>,
    inputs: &mut I,
) -> Result<(Status, Bytes), Unanswered>
    requires few { HasFewFeeds (request_in request.now) }
    ensures told { Tells (I.tells inputs.old) (I.tells inputs.new) (λ before now. PreparesRequest
        (request_in request.now) before now result) }
    ensures cause { PrepareCause (I.faults inputs.old) (I.faults inputs.new) result }
    ensures settled { IfOk result (λ p. IsSettled p.0) }
{
    match reply_of(alloc, request, inputs) {
        Ok(reply) => match output_of(alloc, reply) {
            Ok(output) => Ok(output),
            Err(_) => Err(Unanswered::NoMemory),
        },
        Err(Stop::Refused(refusal)) => match refused_output(alloc, refusal) {
            Ok(output) => Ok(output),
            Err(_) => Err(Unanswered::NoMemory),
        },
        Err(Stop::ReadFault) => Err(Unanswered::ReadFault),
        Err(Stop::NoMemory) => Err(Unanswered::NoMemory),
    }
}

// What is to be written for the words and the files.
fn prepare<I: Inputs>(
    alloc: Global,
    words: &WordList,
    inputs: &mut I,
) -> Result<(Status, Bytes), Unanswered>
    ensures told { Tells (I.tells inputs.old) (I.tells inputs.new) (λ before now. Prepares words.now
        before now result) }
    ensures cause { PrepareCause (I.faults inputs.old) (I.faults inputs.new) result }
    ensures answered { IfOk result (λ p. IsAnswered p.0) }
    ensures words { IfOk result (λ p. TestsWords words.now p.0) }
    ensures read { request_of words.now ≡ None → result ≢ Err Unanswered.ReadFault }
{
    match request_of(alloc, words) {
        Ok(Some(request)) => prepare_request(alloc, &request, inputs),
        Ok(None) => match usage_line(alloc) {
            Ok(line) => Ok((Status::Usage, line)),
            Err(_) => Err(Unanswered::NoMemory),
        },
        Err(_) => Err(Unanswered::NoMemory),
    }
}

/// Carries out the request that the words are; `words` leaves out the program's name. Each request fetches the script,
/// and then the log.
///
/// - `audit SCRIPT LOG FEED..` fetches 1 to 16 feeds behind them, in order. It writes how many arrivals the log has,
///   exactly where the log is one that `replay` accepts and its run is linked to the posts of these feeds.
/// - `reactions SCRIPT LOG [ACTOR]` writes what the firings of the log printed and posted, of one actor or of all, each
///   with the rows of feeds that led to it.
/// - `why SCRIPT LOG ACTOR [NUMBER]` writes why the messages that the actor has left wait, or why one of them does.
///
/// The first refusal ends the call: `Usage` where the words are no request, `TooLong` where a file has more than
/// 16,777,216 bytes, or the log more than 268,435,456, `ScriptRefused` where the script has a fault, or no actor of the
/// name, `FeedRefused` where a feed has a record in fault, and `LogRefused` where a line of the log is in fault, or is
/// not that of the feeds. Each writes one line, but for a line of the log that is not that of the feeds: that line and
/// the row stand below. After `ReadFault` and `NoMemory` nothing was written, and after `WriteFault` a beginning of the
/// output: the write that failed was the last one. `Limits` never comes.
pub fn look_main<I: Inputs, S: CountingSink>(
    alloc: Global,
    words: &WordList,
    inputs: &mut I,
    out: &mut S,
) -> Status
    // The status and the bytes written are those of the verdict on the words and the files.
    ensures answer { AnswersWhereTold words.now (I.tells inputs.old) (S.taken out.old) (I.tells inputs.new)
        (S.taken out.new) result }

    // Inputs that tell were asked only for names that the order fetches, whatever the sink tells.
    ensures fetches { Tells (I.tells inputs.old) (I.tells inputs.new) (λ before now. FetchesInOrder
        words.now before now) }

    // Each count of faults rises where its fault is answered, and is as before at every other answer.
    ensures reads { CountsFault Status.ReadFault result (I.faults inputs.old) (I.faults inputs.new) }
    ensures writes { CountsFault Status.WriteFault result (S.faults out.old) (S.faults out.new) }

    // A sink that tells was written to at most once for each byte that it took, and once more where that write failed.
    // Whether it tells or not, no write was made behind one that failed.
    ensures few { MakesFewWrites (S.taken out.old) (S.taken out.new) (S.writes out.old) (S.writes out.new) result }
    ensures stops { EndsAtFault result (S.writes out.old) (S.writes out.new) }

    // Where no fault was counted, the status is that of the verdict that the words and the files have, or there was no
    // memory.
    ensures complete { CompletesWhereTold words.now (I.tells inputs.old) (I.faults inputs.old) (I.faults inputs.new)
        (S.faults out.old) (S.faults out.new) result }

    ensures words_refused { RefusesWords words.now result }
    ensures usage_only { result ≡ Status.Usage → request_of words.now ≡ None }
    // The sink was not touched.
    ensures silent { (result ≡ Status.ReadFault) ⊎ (result ≡ Status.NoMemory) → out.new ≡ out.old }
{
    // It costs nothing, and completeness rests on it.
    one_verdict();
    match prepare(alloc, words, inputs) {
        Ok((status, output)) => match write_all(out, output.bytes()) {
            Ok(()) => status,
            Err(_) => Status::WriteFault,
        },
        Err(Unanswered::ReadFault) => Status::ReadFault,
        Err(Unanswered::NoMemory) => Status::NoMemory,
    }
}
