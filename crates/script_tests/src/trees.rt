//! Outlines of scripts, trees of definitions, and the places in them.

use crate::given::{INT, joined};
use join_base::Sort;
use script_grammar::{
    FieldDecl, ItemDecl, LeafDecl, MessageDecl, OperandDecl, OperandRef, Part, PatternDecl,
    RuleDecl, Spelt, StatementDecl, Stop, mark_at, name_at, rule_at, skip_message,
};
use script_reader::read_outline;
use script_tokens::{Mark, Tokens};
use std::alloc::Global;

const SCRIPT: &[u8] =
    b"message a(x: int, s: text) message b() actor m { when a(x, _) & b() if x - 2 == 1 && !(x < 1 || \"k\" != x) { print \"t\" x (-x + 1); post m b(\"k\", 3); stop; } }";

fn is_spelt(spelt: &Spelt, name: &[u8], place: u64) -> bool {
    spelt.name.bytes() == name && spelt.place == place
}

fn is_field(field: &FieldDecl, name: &[u8], place: u64, sort: Sort) -> bool {
    is_spelt(&field.name, name, place) && field.sort == sort
}

fn are_messages(messages: &[MessageDecl]) -> bool {
    let [a, b] = messages else {
        return false;
    };
    let [x, s] = a.fields.as_slice() else {
        return false;
    };
    is_spelt(&a.name, b"a", 8)
        && is_field(x, b"x", 10, Sort::Int)
        && is_field(s, b"s", 18, Sort::Words)
        && is_spelt(&b.name, b"b", 35)
        && b.fields.len() == 0
}

fn are_patterns(patterns: &[PatternDecl]) -> bool {
    let [a, b] = patterns else {
        return false;
    };
    let [(first, named), (second, blank)] = a.variables.as_slice() else {
        return false;
    };
    is_spelt(&a.kind, b"a", 54)
        && is_spelt(&b.kind, b"b", 64)
        && *first == 56
        && *second == 59
        && named.is_some()
        && blank.is_none()
}

fn is_leaf(leaf: &LeafDecl, place: u64, minus: bool, number: Option<i64>) -> bool {
    let found = match leaf.part {
        Part::Number(value) => Some(value),
        Part::Named(_) => None,
    };
    leaf.place == place && leaf.minus == minus && found == number
}

fn are_items(items: &[ItemDecl]) -> bool {
    match items {
        [
            ItemDecl::Fixed { place, words },
            ItemDecl::Named(name),
            ItemDecl::Sum {
                place: begin,
                leaves,
            },
        ] => {
            *place == 114
                && words.bytes() == b"t".as_slice()
                && is_spelt(name, b"x", 118)
                && *begin == 120
                && are_leaves(leaves.as_slice())
        }
        _ => false,
    }
}

fn are_leaves(leaves: &[LeafDecl]) -> bool {
    match leaves {
        [x, one] => is_leaf(x, 122, true, None) && is_leaf(one, 126, false, Some(1)),
        _ => false,
    }
}

fn is_text(operand: OperandRef<'_>, text: &[u8], start: u64) -> bool {
    match operand {
        OperandRef::Fixed { place, words } => place == start && words.bytes() == text,
        _ => false,
    }
}

fn is_number(operand: OperandRef<'_>, number: i64, start: u64) -> bool {
    match operand {
        OperandRef::Number { place, value } => place == start && value == number,
        _ => false,
    }
}

fn are_operands(operands: &[OperandDecl]) -> bool {
    match operands {
        [text, three] => is_text(text.seen(), b"k", 139) && is_number(three.seen(), 3, 144),
        _ => false,
    }
}

fn is_print(statement: &StatementDecl) -> bool {
    match statement {
        StatementDecl::Print { place, items } => *place == 108 && are_items(items.as_slice()),
        _ => false,
    }
}

fn is_post(statement: &StatementDecl) -> bool {
    match statement {
        StatementDecl::Post {
            place,
            target,
            kind,
            operands,
        } => {
            *place == 130
                && is_spelt(target, b"m", 135)
                && is_spelt(kind, b"b", 137)
                && are_operands(operands.as_slice())
        }
        _ => false,
    }
}

fn is_stop(statement: &StatementDecl) -> bool {
    match statement {
        StatementDecl::Stop { place } => *place == 148,
        _ => false,
    }
}

fn is_rule(rule: &RuleDecl) -> bool {
    let [print, post, stop] = rule.body.as_slice() else {
        return false;
    };
    rule.place == 49
        && rule.guard.len() == 2
        && are_patterns(rule.patterns.as_slice())
        && is_print(print)
        && is_post(post)
        && is_stop(stop)
}

fn are_actors(actors: &[Spelt]) -> bool {
    match actors {
        [m] => is_spelt(m, b"m", 45),
        _ => false,
    }
}

fn is_reply(statement: &StatementDecl, places: [u64; 3], number: i64) -> bool {
    let StatementDecl::Reply {
        place,
        number_place,
        pattern,
        operand,
    } = statement
    else {
        return false;
    };
    [*place, *number_place, operand.start()] == places && *pattern == number
}

fn are_replies(body: &[StatementDecl]) -> bool {
    match body {
        [first, second] => is_reply(first, [50, 56, 58], 1) && is_reply(second, [65, 71, 74], 12),
        _ => false,
    }
}

fn has_outline(alloc: Global, script: &[u8]) -> bool {
    match read_outline(alloc, script) {
        Ok(outline) => {
            are_messages(outline.messages.as_slice()) && are_actors(outline.actors.as_slice())
        }
        Err(_) => false,
    }
}

// Passes over so many messages, and what an actor begins with.
fn skip_front(alloc: Global, messages: u32, tokens: &mut Tokens<'_>) -> Result<(), Stop> {
    for _ in 0..messages {
        skip_message(alloc, tokens)?;
    }
    mark_at(alloc, tokens, Mark::Actor)?;
    name_at(alloc, tokens)?;
    mark_at(alloc, tokens, Mark::OpenBrace)?;
    Ok(())
}

fn has_rule(alloc: Global, script: &[u8]) -> Result<bool, Stop> {
    let mut tokens = Tokens::new(alloc, script)?;
    skip_front(alloc, 2, &mut tokens)?;
    let rule = rule_at(alloc, &mut tokens)?;
    Ok(is_rule(&rule))
}

fn are_windows(first: &RuleDecl, second: &RuleDecl) -> bool {
    first.window == Some((45, 3)) && second.window.is_none() && are_replies(first.body.as_slice())
}

fn have_windows(alloc: Global, rest: &[u8]) -> Result<bool, Stop> {
    let script = joined(alloc, INT, b"", 0, rest)?;
    let mut tokens = Tokens::new(alloc, script.bytes())?;
    skip_front(alloc, 1, &mut tokens)?;
    let first = rule_at(alloc, &mut tokens)?;
    let second = rule_at(alloc, &mut tokens)?;
    Ok(are_windows(&first, &second))
}

fn whole_script() -> &'static [u8] {
    SCRIPT
}

#[test]
fn parts_of_a_script_have_their_places(rt: HostRuntime) {
    let alloc = rt.alloc();
    let script = whole_script();
    assert!(rt; has_outline(alloc, script) && matches!(has_rule(alloc, script), Ok(true)));
}

#[test]
fn windows_and_replies_have_their_places(rt: HostRuntime) {
    let rest = b"when a(x) within 03 { reply 1 x + 2; reply 12 \"k\"; } when a(x) { } }";
    assert!(rt; matches!(have_windows(rt.alloc(), rest), Ok(true)));
}
