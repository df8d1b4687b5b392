//! Definitions.
ghost use Rattle.std.specs.Prelude.{◌<◌, length, IfOk};
ghost use Rattle.script_tokens.specs.Marks.{kind_is};
ghost use Rattle.script_tokens.specs.declared.token.Mark.TheVariants as m;
ghost use Rattle.script_grammar.specs.ScriptReading.{definition_read};
ghost use Rattle.script_grammar.specs.Gives.{Gives};

use crate::atom::guard_at;
use crate::part::{is_next, mark_at};
use crate::pattern::window_at;
use crate::phrase::{Phrase, Repeated, repeated_at, separated_at};
use crate::stop::Stop;
use crate::tree::RuleDecl;
use script_tokens::{Mark, Tokens};
use std::alloc::Global;

impl Phrase for RuleDecl {
    ghost reader = { definition_read };

    #[tactic(auto, unfolding(crate::specs::ScriptReading::definition_read))]
    fn read(alloc: Global, tokens: &mut Tokens<'_>) -> Result<RuleDecl, Stop> {
        let place = mark_at(alloc, tokens, Mark::When)?;
        let patterns = separated_at(alloc, Mark::With, tokens)?;
        let window = window_at(alloc, tokens)?;
        let guard = guard_at(alloc, tokens)?;
        mark_at(alloc, tokens, Mark::OpenBrace)?;
        let body = repeated_at(alloc, tokens)?;
        mark_at(alloc, tokens, Mark::CloseBrace)?;
        let rule = RuleDecl {
            place,
            patterns,
            window,
            guard,
            body,
        };
        Ok(rule)
    }
}

impl Repeated for RuleDecl {
    ghost begins = { kind_is m.When };

    fn is_next(tokens: &Tokens<'_>) -> bool {
        is_next(tokens, Mark::When)
    }
}

/// The definition in front of the tokens.
pub fn rule_at(alloc: Global, tokens: &mut Tokens<'_>) -> Result<RuleDecl, Stop>
    ensures gives { Gives (λ x. x) result tokens.new (definition_read tokens.old) }
    ensures shorter { IfOk result (λ _. length tokens.new < length tokens.old) }
{
    RuleDecl::read(alloc, tokens)
}
