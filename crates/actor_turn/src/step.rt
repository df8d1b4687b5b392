//! The parts of a fair step, over the mailbox and the trees of an actor.
ghost use Rattle.std.specs.Prelude.{◌≡◌, ◌+◌, ◌-◌, ◌^◌, ◌<◌, ◌≤◌, [], ◌∷◌, ◌++◌, All, None, Some, IfErr, IfOk, OnErr, OnOk, length, map, true, if◌then◌else◌};
ghost use Rattle.std.specs.List.{AllByRecursion};
ghost use Rattle.std.specs.List.Sorted.{IsStrictlyIncreasing};
ghost use Rattle.join_base.specs.Late.{HasCount, late_more};
ghost use Rattle.join_base.specs.Stamps.{greatest_stamp};
ghost use Rattle.join_base.specs.Taken.{contains_number, without};
ghost use Rattle.mailbox_core.specs.Mail.{IsRecorded, latest, recorded_messages, with_arrival, with_late, with_live, without_last};
ghost use Rattle.tree_law.specs.Trees.{AreSettled, CanOfferTo, HasPaths, HasReserve, IsReservedAt, best_of, cleared_tree, settled_tree, tries_at};
ghost use Rattle.fair_semantics.specs.Step.{body_at, firing_of};
ghost use Rattle.fair_semantics.specs.Body.{effects_of, stops};
ghost use Rattle.actor_turn.specs.Ready.{BodyReady};
ghost use Rattle.actor_turn.specs.Parts.{Keeps, fired_at};
ghost use Rattle.actor_turn.specs.Sent.{delivered, sent_by};

use crate::body::{run_body, stops};
use crate::outbox::Outbox;
use crate::refused::Refused;
use crate::sent::send;
use fair_semantics::{Ending, Firing, Outcome};
use join_base::{Items, Message, NoMemory, Numbers, Source, Steps};
use mailbox_core::Mailbox;
use match_tree::MatchTree;
use pattern_core::Candidate;
use script_types::Rule;
use std::alloc::Global;
use std::sync::ledger::Ledger;
use tree_law::{clear_all, count_paths, expire_all, forget_all, keep_all, prune_all, reserve_all};
use value_index::ValueIndex;

/// The actor ends without taking a message of the source, which is late.
pub fn spend(mail: &mut Mailbox, trees: &mut [MatchTree], ending: &mut Ending, source: Source)
    requires exists { HasCount mail.old.mail.late source }

    ensures mail { mail.new.mail ≡ with_live (with_late mail.old.mail (late_more mail.old.mail.late source)) [] }
    ensures trees { trees.new ≡ map cleared_tree trees.old }
    ensures ending { ending.new ≡ Ending.Spent }
{
    mail.add_late(source);
    mail.clear();
    clear_all(trees);
    *ending = Ending::Spent;
}

/// Records a message with the stamp that it carried, offers its number to the trees, whose numbers are in the index,
/// and gives the number. Where there is no memory, all is as it was, and the message comes back.
pub fn record<L: Ledger>(
    mail: &mut Mailbox,
    trees: &mut [MatchTree],
    index: &ValueIndex,
    source: Source,
    message: Message,
    came: u64,
    steps: &mut Steps<L>,
) -> Result<u32, Refused>
    requires few { length mail.old.mail.arrivals < 1000000 }
    requires came { came < greatest_stamp }
    requires latest { latest mail.old.mail.arrivals < greatest_stamp }
    requires settled { AreSettled trees.old }
    requires can { AllByRecursion (CanOfferTo (recorded_messages mail.old.mail.arrivals ++ message ∷ [])
        (length mail.old.mail.arrivals + 1)) trees.old }
    requires indexed { AllByRecursion (HasPaths index.now (recorded_messages mail.old.mail.arrivals ++ message
        ∷ [])) trees.old }

    ensures number { IfOk result (λ n. n ≡ length mail.old.mail.arrivals + 1) }
    ensures recorded { OnOk result (mail.new.mail ≡ with_arrival mail.old.mail source message came) }
    ensures ascending { OnOk result (IsStrictlyIncreasing mail.new.mail.live) }
    ensures same { OnOk result (map settled_tree trees.new ≡ trees.old) }
    ensures reserved { OnOk result (AllByRecursion (IsReservedAt (recorded_messages mail.old.mail.arrivals ++ message
        ∷ []) (length mail.old.mail.arrivals + 1)) trees.new) }
    ensures mail { OnErr result (mail.new.mail ≡ mail.old.mail) }
    ensures trees { OnErr result (trees.new ≡ trees.old) }
    ensures back { IfErr result (λ r. r.message ≡ message) }
    ensures steps { steps.new ≤ steps.old + tries_at (recorded_messages mail.old.mail.arrivals ++ message ∷ [])
        (length mail.old.mail.arrivals + 1) trees.old }
{
    let Ok(()) = mail.reserve_one() else {
        return Err(Refused { message });
    };
    let number = mail.append(source, message, came);
    match reserve_all(trees, mail.messages(), index, number, steps) {
        Ok(()) => Ok(number),
        Err(NoMemory) => Err(Refused {
            message: mail.retract_last(),
        }),
    }
}

/// The trees forget what they set aside, and the message that was recorded last comes back.
pub fn give_up(mail: &mut Mailbox, trees: &mut [MatchTree]) -> Refused
    requires last { contains_number mail.old.mail.live (length mail.old.mail.arrivals) ≡ true }

    ensures trees { trees.new ≡ map settled_tree trees.old }
    ensures retracted { mail.new.mail ≡ without_last mail.old.mail }
    ensures message { recorded_messages mail.old.mail.arrivals ≡ recorded_messages mail.new.mail.arrivals
        ++ result.message ∷ [] }
{
    forget_all(trees);
    Refused {
        message: mail.retract_last(),
    }
}

/// The recorded message with the number is kept, since no match is complete. The actor jams where it would keep more
/// partial matches than `most`.
pub fn keep(
    mail: &mut Mailbox,
    trees: &mut [MatchTree],
    ending: &mut Ending,
    number: u32,
    most: u64,
) -> Outcome
    requires few { number < 2 ^ 32 - 1 }
    requires most { most ≤ 1000000 }
    requires reserved { AllByRecursion (HasReserve number) trees.old }
    requires none { best_of trees.old ≡ None }

    ensures { Keeps number most trees.old trees.new mail.old.mail mail.new.mail ending.old ending.new result }
{
    keep_all(trees, number);
    if count_paths(trees) > most {
        clear_all(trees);
        mail.clear();
        *ending = Ending::Jammed;
        return Outcome::Jammed;
    }
    Outcome::Kept
}

// The numbers that a firing takes leave, or all leave where the body stops the actor.
fn let_go(
    stops: bool,
    mail: &mut Mailbox,
    trees: &mut [MatchTree],
    index: &ValueIndex,
    ending: &mut Ending,
    number: u32,
    taken: &Numbers,
)
    requires few { number < 2 ^ 32 - 1 }
    requires recorded { All (IsRecorded mail.old.mail.arrivals) taken.now }
    requires reserved { AllByRecursion (HasReserve number) trees.old }
    requires can { AllByRecursion (CanOfferTo (recorded_messages mail.old.mail.arrivals) number) trees.old }
    requires indexed { AllByRecursion (HasPaths index.now (recorded_messages mail.old.mail.arrivals)) trees.old }

    ensures mail { mail.new.mail ≡ with_live mail.old.mail (if stops then [] else without
        mail.old.mail.live taken.now) }
    ensures trees { trees.new ≡ (if stops then map cleared_tree trees.old else map
        (fired_at number taken.now) trees.old) }
    ensures ending { ending.new ≡ (if stops then Ending.Stopped else ending.old) }
{
    if stops {
        mail.clear();
        clear_all(trees);
        *ending = Ending::Stopped;
        return;
    }
    mail.consume(taken);
    expire_all(trees, number);
    forget_all(trees);
    prune_all(trees, mail.messages(), index, number, taken);
}

/// The match that was chosen fires at the recorded message with the number: its numbers leave, the body runs, and its
/// posts wait in the outboxes. The index has the numbers of the trees' paths. Where there is no memory, all is as it
/// was, but for room.
pub fn fire(
    alloc: Global,
    rules: &Items<Rule>,
    mail: &mut Mailbox,
    trees: &mut [MatchTree],
    index: &ValueIndex,
    ending: &mut Ending,
    outboxes: &mut [Outbox],
    number: u32,
    chosen: Candidate,
) -> Result<Box<Firing>, NoMemory>
    requires few { number < 2 ^ 32 - 1 }
    requires numbered { 1 ≤ chosen.rule }
    requires exists { chosen.rule ≤ length rules.now }
    requires ready { BodyReady (length outboxes.old) (recorded_messages mail.old.mail.arrivals) chosen.taken
        (body_at rules.now chosen.rule) }
    requires recorded { All (IsRecorded mail.old.mail.arrivals) chosen.taken }
    requires reserved { AllByRecursion (HasReserve number) trees.old }
    requires can { AllByRecursion (CanOfferTo (recorded_messages mail.old.mail.arrivals) number) trees.old }
    requires indexed { AllByRecursion (HasPaths index.now (recorded_messages mail.old.mail.arrivals)) trees.old }

    ensures firing { IfOk result (λ f. Some f.value ≡ firing_of rules.now (recorded_messages mail.old.mail.arrivals)
        (Some chosen)) }
    ensures mail { OnOk result (mail.new.mail ≡ with_live mail.old.mail (if stops (body_at rules.now chosen.rule) then
        [] else without mail.old.mail.live chosen.taken)) }
    ensures trees { OnOk result (trees.new ≡ (if stops (body_at rules.now chosen.rule) then map cleared_tree trees.old
        else map (fired_at number chosen.taken) trees.old)) }
    ensures ending { OnOk result (ending.new ≡ (if stops (body_at rules.now chosen.rule) then Ending.Stopped else
        ending.old)) }
    ensures posts { OnOk result (map (λ o. o.posts) outboxes.new ≡ delivered (sent_by (latest mail.old.mail.arrivals)
        (effects_of (recorded_messages mail.old.mail.arrivals) chosen.taken (body_at rules.now chosen.rule)))
        (map (λ o. o.posts) outboxes.old)) }
    ensures lent { map (λ o. o.lent) outboxes.new ≡ map (λ o. o.lent) outboxes.old }
    ensures same_mail { OnErr result (mail.new.mail ≡ mail.old.mail) }
    ensures same_trees { OnErr result (trees.new ≡ trees.old) }
    ensures same_ending { OnErr result (ending.new ≡ ending.old) }
    ensures same_posts { OnErr result (map (λ o. o.posts) outboxes.new ≡ map (λ o. o.posts) outboxes.old) }
{
    let rule = rules.at((chosen.rule - 1) as usize);
    let effects = run_body(
        alloc,
        &rule.body,
        outboxes.len(),
        &chosen.taken,
        mail.messages(),
    )?;
    let firing = Box::new(
        alloc,
        Firing {
            rule: chosen.rule,
            taken: chosen.taken,
            effects,
        },
    )?;
    send(alloc, outboxes, firing.effects.as_slice(), mail.latest())?;
    let_go(
        stops(&rule.body),
        mail,
        trees,
        index,
        ending,
        number,
        &firing.taken,
    );
    Ok(firing)
}
