//! The top call.
ghost use Rattle.std.specs.Prelude.{◌≡◌, ◌≢◌, ◌⊎◌, None, Err, IfOk};
ghost use Rattle.command_words.specs.Ranges.{IsInRange};
ghost use Rattle.command_words.specs.Views.{command_in};
ghost use Rattle.join_command.specs.Command.{command_of};
ghost use Rattle.join_command.specs.Counting.{EndsAtFault, MakesFewWrites};
ghost use Rattle.script_files.specs.Loading.{Tells};
ghost use Rattle.join_command.specs.Output.{IsSettled};
ghost use Rattle.join_command.specs.Top.{AnswersWhereTold, CompletesWhereTold, CountsFault, FetchesInOrder, IsAnswered, PrepareCause, Prepares, PreparesCommand, RefusesWords, TestsWords};

use crate::command::command_of;
use crate::law::one_verdict;
use crate::output::{output_of, refused_output, usage_line};
use crate::reply::reply_of;
use crate::status::Status;
use actor_pool::Gate;
use command_words::Request;
use counted_sink::{CountingSink, write_all};
use join_base::{Bytes, Inputs, NoMemory, WordList};
use script_files::Stop;
use std::alloc::Global;
use std::sync::Wait;
use std::thread::Threads;
use watch_run::View;

/// Why nothing is to be written.
#[derive(Clone, Copy, PartialEq, Eq, Debug)]
pub enum Unanswered {
    /// A file could not be read.
    ReadFault,
    NoMemory,
}

impl From<NoMemory> for Unanswered {
    ghost use Rattle.std.specs.Prelude.{◌≡◌};
    ghost use Rattle.join_command.specs.declared.top.Unanswered.TheVariants.{NoMemory};

    ghost from_gives = { λ _ e. e ≡ NoMemory };

    fn from(_: NoMemory) -> Unanswered {
        Unanswered::NoMemory
    }
}

// What is to be written for a command and its files.
fn prepare_command<R: Threads + Wait + Sync, I: Inputs, G: Gate, V: View<R> + Sync>(
    rt: &R,
    alloc: Global,
    command: &Request<'_>,
    inputs: &mut I,
    gate: &G,
    view: &mut V,
) -> Result<(Status, Bytes), Unanswered>
    requires in_range { IsInRange (command_in command.now) }
    ensures told { Tells (I.tells inputs.old) (I.tells inputs.new) (λ before now. PreparesCommand
        (command_in command.now) before now result) }
    ensures cause { PrepareCause (I.faults inputs.old) (I.faults inputs.new) result }
    ensures settled { IfOk result (λ p. IsSettled p.0) }
{
    match reply_of(alloc, command, inputs) {
        Ok(reply) => match output_of(rt, alloc, reply, gate, view) {
            Ok(output) => Ok(output),
            Err(_) => Err(Unanswered::NoMemory),
        },
        Err(Stop::Refused(refusal)) => match refused_output(alloc, refusal) {
            Ok(output) => Ok(output),
            Err(_) => Err(Unanswered::NoMemory),
        },
        Err(Stop::ReadFault) => Err(Unanswered::ReadFault),
        Err(Stop::NoMemory) => Err(Unanswered::NoMemory),
    }
}

// What is to be written for the words and the files.
fn prepare<R: Threads + Wait + Sync, I: Inputs, G: Gate, V: View<R> + Sync>(
    rt: &R,
    alloc: Global,
    words: &WordList,
    inputs: &mut I,
    gate: &G,
    view: &mut V,
) -> Result<(Status, Bytes), Unanswered>
    ensures told { Tells (I.tells inputs.old) (I.tells inputs.new) (λ before now. Prepares words.now
        before now result) }
    ensures cause { PrepareCause (I.faults inputs.old) (I.faults inputs.new) result }
    ensures answered { IfOk result (λ p. IsAnswered p.0) }
    ensures words { IfOk result (λ p. TestsWords words.now p.0) }
    ensures read { command_of words.now ≡ None → result ≢ Err Unanswered.ReadFault }
{
    match command_of(alloc, words) {
        Ok(Some(command)) => prepare_command(rt, alloc, &command, inputs, gate, view),
        Ok(None) => match usage_line(alloc) {
            Ok(line) => Ok((Status::Usage, line)),
            Err(_) => Err(Unanswered::NoMemory),
        },
        Err(_) => Err(Unanswered::NoMemory),
    }
}

/// Carries out the command that the words are; `words` leaves out the program's name. `run SCRIPT FEED..` fetches the
/// script and then 1 to 16 feeds in order, runs the script on the posts of the feeds within the limits that
/// `--arrivals` and `--partials` give, each from 1 to 1,000,000, and writes the log of that run. Each feed is posted by
/// a thread of its own, and `--workers` threads work, 1 to 64, over links of `--ring` places, 1 to 4096. `--pool` says
/// where they have their tickets: in one `queue`, or in a deque each, from which the others `steal`. `check SCRIPT`
/// fetches the script, and writes its plan. `lint SCRIPT` fetches the script, and writes a line for each definition of
/// which it sees that it can never fire and for each kind that no other one takes, and then their number. `replay
/// SCRIPT LOG` fetches the script and then the log, and writes how many arrivals the log has. `load N` fetches nothing,
/// runs the building of `building_load` on feeds of N rows, 1 to 20,000, as a `run` without options does, and writes
/// the summary of that run.
///
/// `ask SCRIPT FEED..` has the words and options of `run`, but `--pool`, and writes behind the log a line for each row
/// of a feed that the run replied to, feed by feed and row by row.
///
/// `watch SCRIPT FEED..` has the words and options of `run`, and `--monitors`, 1 to 8. It writes behind the log a line
/// for each actor with its totals: how many messages arrived, how many of them fired, and how many posts that made.
/// While the run goes on, so many monitors read these totals on threads of their own.
///
/// The first refusal ends the call: `Usage` where the words are no command, `TooLong` where a file has more than
/// 16,777,216 bytes, or a log more than 268,435,456, `ScriptRefused` where the script has a fault, `FeedRefused` where
/// a feed has a record in fault, and `LogRefused` where a line of the log is in fault; each writes one line. `Limits`
/// comes in place of `Done` exactly where an actor of the run was jammed or spent, and the log, or the summary, is
/// written in both cases. After `ReadFault` and `NoMemory` nothing was written, and after `WriteFault` a beginning of
/// the output: the write that failed was the last one.
///
/// Each worker enters the gate just before it tries for an actor. The call may wait, and where it runs a script it
/// waits for its threads. The memory of a run that was written stays taken until the program ends.
pub fn join_main<R: Threads + Wait + Sync, I: Inputs, S: CountingSink, G: Gate, V: View<R> + Sync>(
    rt: &R,
    alloc: Global,
    words: &WordList,
    inputs: &mut I,
    out: &mut S,
    gate: &G,
    view: &mut V,
) -> Status
    // The status and the bytes written are those of the verdict on the words and the files. For a run they are the log
    // of a run that is linked to the posts of the feeds and is that of one schedule of single steps, for `ask` such a
    // log and the answers that its run gives to the rows of the feeds, for `watch` such a log and the totals of the
    // actors of its run, for a check the text of the script's plan, for a lint that of its findings, for `load` the
    // summary of such a run of the building, and for a replay the number of arrivals of the log, which is that of a run
    // no line of which is in fault.
    ensures answer { AnswersWhereTold words.now (I.tells inputs.old) (S.taken out.old) (I.tells inputs.new)
        (S.taken out.new) result }

    // Inputs that tell were asked only for names that the order fetches, whatever the sink tells.
    ensures fetches { Tells (I.tells inputs.old) (I.tells inputs.new) (λ before now. FetchesInOrder
        words.now before now) }

    // Each count of faults rises where its fault is answered, and is as before at every other answer.
    ensures reads { CountsFault Status.ReadFault result (I.faults inputs.old) (I.faults inputs.new) }
    ensures writes { CountsFault Status.WriteFault result (S.faults out.old) (S.faults out.new) }

    // A sink that tells was written to at most once for each byte that it took, and once more where that write failed.
    // Whether it tells or not, no write was made behind one that failed.
    ensures few { MakesFewWrites (S.taken out.old) (S.taken out.new) (S.writes out.old) (S.writes out.new) result }
    ensures stops { EndsAtFault result (S.writes out.old) (S.writes out.new) }

    // Where no fault was counted, the status is that of the verdict that the words and the files have, or there was no
    // memory.
    ensures complete { CompletesWhereTold words.now (I.tells inputs.old) (I.faults inputs.old) (I.faults inputs.new)
        (S.faults out.old) (S.faults out.new) result }

    ensures words_refused { RefusesWords words.now result }
    ensures usage_only { result ≡ Status.Usage → command_of words.now ≡ None }
    // The sink was not touched.
    ensures silent { (result ≡ Status.ReadFault) ⊎ (result ≡ Status.NoMemory) → out.new ≡ out.old }
{
    // It costs nothing, and completeness rests on it.
    one_verdict();
    match prepare(rt, alloc, words, inputs, gate, view) {
        Ok((status, output)) => match write_all(out, output.bytes()) {
            Ok(()) => status,
            Err(_) => Status::WriteFault,
        },
        Err(Unanswered::ReadFault) => Status::ReadFault,
        Err(Unanswered::NoMemory) => Status::NoMemory,
    }
}
