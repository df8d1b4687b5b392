//! Passing over messages, patterns, statements and definitions.
ghost use Rattle.std.specs.Prelude.{◌<◌, length, IfOk};
ghost use Rattle.script_grammar.specs.Reading.{passed};
ghost use Rattle.script_grammar.specs.ScriptReading.{message_read, print_read, post_read, reply_read, definition_read};
ghost use Rattle.script_grammar.specs.Gives.{Gives};

use crate::operand::OperandDecl;
use crate::part::{
    is_next, is_next_name, is_next_words, mark_at, name_at, numeral_at, sort_at, variable_at,
    words_at,
};
use crate::pattern::window_at;
use crate::skip::{Skipped, skip_listed, skip_repeated, skip_separated};
use crate::skipped_terms::{skip_guard, skip_term};
use crate::statement::stop_at;
use crate::stop::Stop;
use crate::tree::{FieldDecl, ItemDecl, PatternDecl, RuleDecl, StatementDecl};
use script_tokens::{Mark, ScriptName, Tokens};
use std::alloc::Global;

impl Skipped for FieldDecl {
    #[tactic(auto, using(crate::proofs::PassedRules::field_passed))]
    fn skip(alloc: Global, tokens: &mut Tokens<'_>) -> Result<(), Stop> {
        name_at(alloc, tokens)?;
        mark_at(alloc, tokens, Mark::Colon)?;
        sort_at(alloc, tokens)?;
        Ok(())
    }
}

/// Passes over a message.
#[tactic(auto, using(crate::proofs::PassedRules::message_passed))]
pub fn skip_message(alloc: Global, tokens: &mut Tokens<'_>) -> Result<(), Stop>
    ensures gives { Gives (λ x. x) result tokens.new (passed (message_read tokens.old)) }
    ensures shorter { IfOk result (λ _. length tokens.new < length tokens.old) }
{
    mark_at(alloc, tokens, Mark::Message)?;
    name_at(alloc, tokens)?;
    mark_at(alloc, tokens, Mark::Open)?;
    skip_listed::<FieldDecl>(alloc, Mark::Comma, tokens)?;
    mark_at(alloc, tokens, Mark::Close)?;
    Ok(())
}

// A variable of a pattern.
impl Skipped for (u64, Option<ScriptName>) {
    fn skip(alloc: Global, tokens: &mut Tokens<'_>) -> Result<(), Stop> {
        variable_at(alloc, tokens)?;
        Ok(())
    }
}

impl Skipped for PatternDecl {
    #[tactic(auto, using(crate::proofs::PassedRules::pattern_passed))]
    fn skip(alloc: Global, tokens: &mut Tokens<'_>) -> Result<(), Stop> {
        name_at(alloc, tokens)?;
        mark_at(alloc, tokens, Mark::Open)?;
        skip_listed::<(u64, Option<ScriptName>)>(alloc, Mark::Comma, tokens)?;
        mark_at(alloc, tokens, Mark::Close)?;
        Ok(())
    }
}

impl Skipped for ItemDecl {
    #[tactic(auto, using(crate::proofs::PassedRules::item_passed))]
    fn skip(alloc: Global, tokens: &mut Tokens<'_>) -> Result<(), Stop> {
        if is_next_words(tokens) {
            words_at(alloc, tokens)?;
            return Ok(());
        }
        if is_next_name(tokens) {
            name_at(alloc, tokens)?;
            return Ok(());
        }
        mark_at(alloc, tokens, Mark::Open)?;
        skip_term(alloc, tokens)?;
        mark_at(alloc, tokens, Mark::Close)?;
        Ok(())
    }
}

#[tactic(auto, using(crate::proofs::PassedRules::print_passed))]
fn skip_print(alloc: Global, tokens: &mut Tokens<'_>) -> Result<(), Stop>
    ensures gives { Gives (λ x. x) result tokens.new (passed (print_read tokens.old)) }
    ensures shorter { IfOk result (λ _. length tokens.new < length tokens.old) }
{
    mark_at(alloc, tokens, Mark::Print)?;
    ItemDecl::skip(alloc, tokens)?;
    skip_repeated::<ItemDecl>(alloc, tokens)?;
    mark_at(alloc, tokens, Mark::Semicolon)?;
    Ok(())
}

#[tactic(auto, using(crate::proofs::PassedRules::post_passed))]
fn skip_post(alloc: Global, tokens: &mut Tokens<'_>) -> Result<(), Stop>
    ensures gives { Gives (λ x. x) result tokens.new (passed (post_read tokens.old)) }
    ensures shorter { IfOk result (λ _. length tokens.new < length tokens.old) }
{
    mark_at(alloc, tokens, Mark::Post)?;
    name_at(alloc, tokens)?;
    name_at(alloc, tokens)?;
    mark_at(alloc, tokens, Mark::Open)?;
    skip_listed::<OperandDecl>(alloc, Mark::Comma, tokens)?;
    mark_at(alloc, tokens, Mark::Close)?;
    mark_at(alloc, tokens, Mark::Semicolon)?;
    Ok(())
}

#[tactic(auto, using(crate::proofs::PassedRules::reply_passed))]
fn skip_reply(alloc: Global, tokens: &mut Tokens<'_>) -> Result<(), Stop>
    ensures gives { Gives (λ x. x) result tokens.new (passed (reply_read tokens.old)) }
    ensures shorter { IfOk result (λ _. length tokens.new < length tokens.old) }
{
    mark_at(alloc, tokens, Mark::Reply)?;
    numeral_at(alloc, tokens)?;
    OperandDecl::skip(alloc, tokens)?;
    mark_at(alloc, tokens, Mark::Semicolon)?;
    Ok(())
}

impl Skipped for StatementDecl {
    #[tactic(auto, unfolding(crate::specs::ScriptReading::statement_read))]
    fn skip(alloc: Global, tokens: &mut Tokens<'_>) -> Result<(), Stop> {
        if is_next(tokens, Mark::Print) {
            return skip_print(alloc, tokens);
        }
        if is_next(tokens, Mark::Post) {
            return skip_post(alloc, tokens);
        }
        if is_next(tokens, Mark::Reply) {
            return skip_reply(alloc, tokens);
        }
        stop_at(alloc, tokens)?;
        Ok(())
    }
}

impl Skipped for RuleDecl {
    #[tactic(auto, using(crate::proofs::PassedRules::definition_passed))]
    fn skip(alloc: Global, tokens: &mut Tokens<'_>) -> Result<(), Stop> {
        mark_at(alloc, tokens, Mark::When)?;
        skip_separated::<PatternDecl>(alloc, Mark::With, tokens)?;
        window_at(alloc, tokens)?;
        skip_guard(alloc, tokens)?;
        mark_at(alloc, tokens, Mark::OpenBrace)?;
        skip_repeated::<StatementDecl>(alloc, tokens)?;
        mark_at(alloc, tokens, Mark::CloseBrace)?;
        Ok(())
    }
}

/// Passes over a definition.
pub fn skip_rule(alloc: Global, tokens: &mut Tokens<'_>) -> Result<(), Stop>
    ensures gives { Gives (λ x. x) result tokens.new (passed (definition_read tokens.old)) }
    ensures shorter { IfOk result (λ _. length tokens.new < length tokens.old) }
{
    RuleDecl::skip(alloc, tokens)
}
