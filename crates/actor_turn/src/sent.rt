//! The posts of a firing, on their way to the outboxes of their targets.
ghost use Rattle.std.specs.Prelude.{◌≡◌, OnErr, OnOk, length, map};
ghost use Rattle.std.specs.List.{AllByRecursion};
ghost use Rattle.actor_turn.specs.Sent.{IsFor, delivered, sent_by};

use crate::outbox::Outbox;
use fair_semantics::Effect;
use join_base::{NoMemory, Stamped};
use std::alloc::Global;

/// Puts copies of the posts among effects, each with the stamp, behind those that wait for their targets, one after the
/// other. Without memory the outboxes have the posts that they had.
pub fn send(
    alloc: Global,
    outboxes: &mut [Outbox],
    effects: &[Effect],
    stamp: u64,
) -> Result<(), NoMemory>
    requires targets { AllByRecursion (IsFor (length outboxes.old)) (sent_by stamp effects.now) }

    ensures posts { OnOk result (map (λ o. o.posts) outboxes.new ≡ delivered (sent_by stamp effects.now)
        (map (λ o. o.posts) outboxes.old)) }
    ensures same { OnErr result (map (λ o. o.posts) outboxes.new ≡ map (λ o. o.posts) outboxes.old) }
    ensures lent { map (λ o. o.lent) outboxes.new ≡ map (λ o. o.lent) outboxes.old }
{
    let [effect, others @ ..] = effects else {
        return Ok(());
    };
    match effect {
        Effect::Post { target, message } => {
            let message = message.copy(alloc)?;
            let place = *target as usize;
            outboxes[place].push(Stamped { message, stamp })?;
            match send(alloc, outboxes, others, stamp) {
                Ok(()) => Ok(()),
                Err(refused) => {
                    outboxes[place].drop_last();
                    Err(refused)
                }
            }
        }
        Effect::Print(_) => send(alloc, outboxes, others, stamp),
        Effect::Reply { .. } => send(alloc, outboxes, others, stamp),
    }
}
