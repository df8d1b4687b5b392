//! Lines put together in a room, each before a place of it. The answer is where the line begins, or `None` where it has
//! a text that needs escapes or is too long for the room.
ghost use Rattle.std.specs.Prelude.{◌≡◌, ◌≤◌, ◌+◌, ◌∷◌, [], ◌++◌, codes, drop, length, IfSome, Some};
ghost use Rattle.std.specs.Fmt.{decimal};
ghost use Rattle.std.specs.List.{flat_map};
ghost use Rattle.join_base.specs.Quoted.{quoted};
ghost use Rattle.script_types.specs.Names.{name_of_actor, name_of_kind};
ghost use Rattle.arrival_log.specs.Commas.{arrival_front, source_between};
ghost use Rattle.arrival_log.specs.LogText.{arrival_line, effect_line, entry_lines, fire_line, firing_lines, line, message_text, stamped, value_text};

use crate::room::{
    FRONT, ROOM, put_number, put_numbers, put_stamp, put_text, put_value, put_values, put_words,
};
use fair_semantics::{Effect, Entry, Fired, Firing, LogVersion};
use join_base::{Message, Source, Value};
use script_types::Plan;

#[inline]
fn actor_name(plan: &Plan, actor: u32) -> &[u8]
    ensures name { result.now ≡ name_of_actor plan.now actor }
    ensures short { length result.now ≤ 64 }
{
    match plan.actors.as_slice().get(actor as usize) {
        Some(actor) => actor.name.bytes(),
        None => b"",
    }
}

#[inline]
fn kind_name(plan: &Plan, kind: u32) -> &[u8]
    ensures name { result.now ≡ name_of_kind plan.now kind }
    ensures short { length result.now ≤ 64 }
{
    match plan.kinds.as_slice().get(kind as usize) {
        Some(kind) => kind.name.bytes(),
        None => b"",
    }
}

// ` from feed K ` or ` from actor NAME `.
#[inline]
fn put_source(room: &mut [u8; ROOM], end: usize, plan: &Plan, source: Source) -> usize
    requires within { (77 ≤ end) × (end ≤ 512) }
    ensures start { (result ≤ end) × (end ≤ result + 77) }
    ensures written { drop result room.new ≡ source_between plan.now source ++ drop end room.old }
{
    match source {
        Source::Feed(feed) => {
            let end = put_words(room, end, b" ");
            let end = put_number(room, end, u64::from(feed));
            put_words(room, end, b" from feed ")
        }
        Source::Actor(actor) => {
            let end = put_words(room, end, b" ");
            let end = put_words(room, end, actor_name(plan, actor));
            put_words(room, end, b" from actor ")
        }
    }
}

/// What stands before the message in an arrival's line, with this stamp in place of the arrival's own.
pub(crate) fn put_front(
    room: &mut [u8; ROOM],
    end: usize,
    plan: &Plan,
    version: LogVersion,
    entry: &Entry,
    stamp: u64,
) -> usize
    requires within { (121 ≤ end) × (end ≤ 512) }
    ensures start { result ≤ 512 }
    ensures written { drop result room.new ≡ arrival_front plan.now version (stamped entry.now stamp)
        ++ drop end room.old }
{
    let end = put_source(room, end, plan, entry.source);
    let end = put_stamp(room, end, version, stamp);
    put_number(room, end, u64::from(entry.number))
}

// `KIND(VALUES)` and LF.
fn put_message(room: &mut [u8; ROOM], end: usize, plan: &Plan, message: &Message) -> Option<usize>
    requires within { (256 ≤ end) × (end ≤ 512) }
    ensures start { IfSome result (λ start. (170 ≤ start) × (start ≤ 512)) }
    ensures written { IfSome result (λ start. drop start room.new ≡ message_text plan.now message.now ++ 10
        ∷ drop end room.old) }
{
    let end = put_words(room, end, b")\n");
    let end = put_values(room, end, &message.fields)?;
    let end = put_words(room, end, b"(");
    Some(put_words(room, end, kind_name(plan, message.kind)))
}

/// The line of an arrival, with this stamp in place of its own.
pub(crate) fn put_arrival(
    room: &mut [u8; ROOM],
    end: usize,
    plan: &Plan,
    version: LogVersion,
    entry: &Entry,
    stamp: u64,
) -> Option<usize>
    requires within { end ≤ 512 }
    ensures start { IfSome result (λ start. start ≤ 512) }
    ensures written { IfSome result (λ start. drop start room.new ≡ arrival_line plan.now version
        (stamped entry.now stamp) ++ drop end room.old) }
{
    if end < FRONT {
        return None;
    }
    let end = put_message(room, end, plan, &entry.message)?;
    Some(put_front(room, end, plan, version, entry, stamp))
}

/// The first line of a firing.
pub(crate) fn put_fire(room: &mut [u8; ROOM], end: usize, firing: &Firing) -> usize
    requires within { (257 ≤ end) × (end ≤ 512) }
    ensures start { result ≤ 512 }
    ensures written { drop result room.new ≡ fire_line firing.now ++ drop end room.old }
{
    let end = put_words(room, end, b"\n");
    let end = put_numbers(room, end, firing.taken.as_slice());
    let end = put_words(room, end, b" take ");
    let end = put_number(room, end, u64::from(firing.rule));
    put_words(room, end, b"fire rule ")
}

fn put_print(room: &mut [u8; ROOM], end: usize, printed: &[u8]) -> Option<usize>
    requires within { (256 ≤ end) × (end ≤ 512) }
    ensures start { IfSome result (λ start. start ≤ 512) }
    ensures written { IfSome result (λ start. drop start room.new ≡ line (codes "print" ∷ quoted printed.now ∷ [])
        ++ drop end room.old) }
{
    let end = put_words(room, end, b"\n");
    let end = put_text(room, end, printed)?;
    Some(put_words(room, end, b"print "))
}

fn put_post(
    room: &mut [u8; ROOM],
    end: usize,
    plan: &Plan,
    target: u32,
    message: &Message,
) -> Option<usize>
    requires within { (256 ≤ end) × (end ≤ 512) }
    ensures start { IfSome result (λ start. start ≤ 512) }
    ensures written { IfSome result (λ start. drop start room.new ≡ line (codes "post" ∷ name_of_actor plan.now target
        ∷ message_text plan.now message.now ∷ []) ++ drop end room.old) }
{
    let end = put_message(room, end, plan, message)?;
    let end = put_words(room, end, b" ");
    let end = put_words(room, end, actor_name(plan, target));
    Some(put_words(room, end, b"post "))
}

fn put_reply(room: &mut [u8; ROOM], end: usize, number: u32, value: &Value) -> Option<usize>
    requires within { (256 ≤ end) × (end ≤ 512) }
    ensures start { IfSome result (λ start. start ≤ 512) }
    ensures written { IfSome result (λ start. drop start room.new ≡ line (codes "reply" ∷ decimal number
        ∷ value_text value.now ∷ []) ++ drop end room.old) }
{
    let end = put_words(room, end, b"\n");
    let end = put_value(room, end, value.seen())?;
    let end = put_words(room, end, b" ");
    let end = put_number(room, end, u64::from(number));
    Some(put_words(room, end, b"reply "))
}

/// The line of what a body did.
pub(crate) fn put_effect(
    room: &mut [u8; ROOM],
    end: usize,
    plan: &Plan,
    effect: &Effect,
) -> Option<usize>
    requires within { (256 ≤ end) × (end ≤ 512) }
    ensures start { IfSome result (λ start. start ≤ 512) }
    ensures written { IfSome result (λ start. drop start room.new ≡ effect_line plan.now effect.now
        ++ drop end room.old) }
{
    match effect {
        Effect::Print(printed) => put_print(room, end, printed.bytes()),
        Effect::Post { target, message } => put_post(room, end, plan, *target, message),
        Effect::Reply { number, value } => put_reply(room, end, *number, value),
    }
}

// The lines of a firing's effects, where it has at most one.
fn put_effects(room: &mut [u8; ROOM], plan: &Plan, effects: &[Effect]) -> Option<usize>
    ensures start { IfSome result (λ start. start ≤ 512) }
    ensures written { IfSome result (λ start. drop start room.new ≡ flat_map (effect_line plan.now) effects.now) }
{
    match effects {
        [] => Some(ROOM),
        [effect] => put_effect(room, ROOM, plan, effect),
        _ => None,
    }
}

fn put_firing(room: &mut [u8; ROOM], plan: &Plan, firing: &Firing) -> Option<usize>
    ensures start { IfSome result (λ start. start ≤ 512) }
    ensures written { IfSome result (λ start. drop start room.new ≡ firing_lines plan.now (Some firing.now)) }
{
    let end = put_effects(room, plan, firing.effects.as_slice())?;
    if end <= FRONT {
        return None;
    }
    Some(put_fire(room, end, firing))
}

// The lines of what an arrival fired, or nothing where there is no firing.
fn put_fired(room: &mut [u8; ROOM], plan: &Plan, fired: &Fired) -> Option<usize>
    ensures start { IfSome result (λ start. start ≤ 512) }
    ensures written { IfSome result (λ start. drop start room.new ≡ firing_lines plan.now fired.now) }
{
    match fired.get() {
        None => Some(ROOM),
        Some(firing) => put_firing(room, plan, firing),
    }
}

/// The lines of an arrival, with this stamp in place of its own, and of what it fired, where that has at most one
/// effect.
pub(crate) fn put_entry(
    room: &mut [u8; ROOM],
    plan: &Plan,
    version: LogVersion,
    entry: &Entry,
    stamp: u64,
) -> Option<usize>
    ensures start { IfSome result (λ start. start ≤ 512) }
    ensures written { IfSome result (λ start. drop start room.new ≡ entry_lines plan.now version
        (stamped entry.now stamp)) }
{
    let end = put_fired(room, plan, &entry.firing)?;
    put_arrival(room, end, plan, version, entry, stamp)
}
