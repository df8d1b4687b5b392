//! Whether a plan has a reply.
ghost use Rattle.std.specs.Prelude.{◌≡◌};
ghost use Rattle.std.specs.List.{list_any};
ghost use Rattle.fair_semantics.specs.Fits.{actor_replies, has_reply, is_reply, rule_replies};

use script_types::{ActorPlan, Plan, Rule, Statement};

fn is_reply(statement: &Statement) -> bool
    ensures { result ≡ is_reply statement.now }
{
    match statement {
        Statement::Print(_) => false,
        Statement::Post { .. } => false,
        Statement::Stop => false,
        Statement::Reply { .. } => true,
    }
}

fn rule_replies(rule: &Rule) -> bool
    ensures { result ≡ rule_replies rule.now }
{
    rule.body.as_slice().iter().any(is_reply)
}

fn actor_replies(actor: &ActorPlan) -> bool
    ensures { result ≡ actor_replies actor.now }
{
    actor.rules.as_slice().iter().any(rule_replies)
}

/// Whether some body of the plan has a reply.
pub(crate) fn has_reply(plan: &Plan) -> bool
    ensures { result ≡ has_reply plan.now }
{
    plan.actors.as_slice().iter().any(actor_replies)
}
