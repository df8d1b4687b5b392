//! The plan of the building.
ghost use Rattle.std.specs.Prelude.{◌≡◌, ◌<◌, ◌∷◌, [], IfOk, OnOk, true};
ghost use Rattle.join_base.specs.Text.{is_name};
ghost use Rattle.guard_eval.specs.Shape.{conjunct_condition};
ghost use Rattle.script_types.specs.Typed.{IsTyped};
ghost use Rattle.building_load.specs.Building as building;

use crate::parts::{
    compared, field, number, one, place_at, plus, three, two, value_of, variable, within_a_minute,
};
use guard_eval::{Conjunct, ConjunctList, WordsLeaf};
use join_base::{Items, Name, NoMemory, Relation, Sort, Text};
use pattern_core::Definition;
use script_types::{ActorPlan, Item, Kind, Plan, Rule, Statement};
use std::alloc::Global;

// The numbers of the kinds, and of the desk.
pub(crate) const MOTION: u32 = 0;

pub(crate) const LIGHT: u32 = 1;

pub(crate) const CONTACT: u32 = 2;

const ON: u32 = 3;

const ALARM: u32 = 4;

const DESK: u32 = 4;

// The fields `room: int, t: int`.
fn sighting_fields(alloc: Global) -> Result<Items<(Name, Sort)>, NoMemory>
    ensures { IfOk result (λ fields. fields ≡ building.sighting_fields) }
{
    let room = field(alloc, b"room")?;
    let time = field(alloc, b"t")?;
    two(alloc, room, time)
}

// `message NAME(room: int, t: int)`.
fn sighting(alloc: Global, name: &[u8]) -> Result<Kind, NoMemory>
    requires is_name { is_name name.now ≡ true }
    ensures { IfOk result (λ kind. kind ≡ building.sighting name.now) }
{
    let name = Name::from_bytes(alloc, name)?;
    let fields = sighting_fields(alloc)?;
    Ok(Kind { name, fields })
}

// The fields `room: int, lux: int, t: int`.
fn light_fields(alloc: Global) -> Result<Items<(Name, Sort)>, NoMemory>
    ensures { IfOk result (λ fields. fields ≡ building.light_kind.fields) }
{
    let room = field(alloc, b"room")?;
    let lux = field(alloc, b"lux")?;
    let time = field(alloc, b"t")?;
    three(alloc, room, lux, time)
}

// `message light(room: int, lux: int, t: int)`.
fn light_kind(alloc: Global) -> Result<Kind, NoMemory>
    ensures { IfOk result (λ kind. kind ≡ building.light_kind) }
{
    let name = Name::from_bytes(alloc, b"light")?;
    let fields = light_fields(alloc)?;
    Ok(Kind { name, fields })
}

// The fields `room: int`.
fn report_fields(alloc: Global) -> Result<Items<(Name, Sort)>, NoMemory>
    ensures { IfOk result (λ fields. fields ≡ building.report_fields) }
{
    let room = field(alloc, b"room")?;
    one(alloc, room)
}

// `message NAME(room: int)`.
fn report(alloc: Global, name: &[u8]) -> Result<Kind, NoMemory>
    requires is_name { is_name name.now ≡ true }
    ensures { IfOk result (λ kind. kind ≡ building.report name.now) }
{
    let name = Name::from_bytes(alloc, name)?;
    let fields = report_fields(alloc)?;
    Ok(Kind { name, fields })
}

// Pushes the kinds into an empty list.
fn push_kinds(alloc: Global, kinds: &mut Items<Kind>) -> Result<(), NoMemory>
    requires empty { kinds.old ≡ [] }
    ensures { OnOk result (kinds.new ≡ building.kinds) }
{
    kinds.push(sighting(alloc, b"motion")?)?;
    kinds.push(light_kind(alloc)?)?;
    kinds.push(sighting(alloc, b"contact")?)?;
    kinds.push(report(alloc, b"on")?)?;
    kinds.push(report(alloc, b"alarm")?)?;
    Ok(())
}

fn kinds(alloc: Global) -> Result<Items<Kind>, NoMemory>
    ensures { IfOk result (λ kinds. kinds ≡ building.kinds) }
{
    let mut kinds = Items::new(alloc);
    push_kinds(alloc, &mut kinds)?;
    Ok(kinds)
}

// That both messages are of one room.
fn same_room(alloc: Global) -> Result<Conjunct, NoMemory>
    ensures { IfOk result (λ conjunct. conjunct_condition conjunct ≡ building.same_room) }
{
    let first = one(alloc, plus(place_at(0, 0)))?;
    let second = one(alloc, plus(place_at(1, 0)))?;
    compared(alloc, first, Relation::Equal, second)
}

// That the light is below 40.
fn is_dim(alloc: Global) -> Result<Conjunct, NoMemory>
    ensures { IfOk result (λ conjunct. conjunct_condition conjunct ≡ building.is_dim) }
{
    let lux = one(alloc, plus(place_at(1, 1)))?;
    let bound = one(alloc, number(40))?;
    compared(alloc, lux, Relation::Less, bound)
}

// Pushes the guard of a light, whose time is its third field, into an empty one.
fn push_light_guard(alloc: Global, guard: &mut ConjunctList) -> Result<(), NoMemory>
    requires empty { guard.old ≡ [] }
    ensures { OnOk result (guard.new ≡ building.light_rule.definition.conjuncts) }
{
    guard.push(same_room(alloc)?)?;
    guard.push(is_dim(alloc)?)?;
    guard.push(within_a_minute(alloc, place_at(1, 2), place_at(0, 1))?)?;
    guard.push(within_a_minute(alloc, place_at(0, 1), place_at(1, 2))?)?;
    Ok(())
}

fn light_guard(alloc: Global) -> Result<ConjunctList, NoMemory>
    ensures { IfOk result (λ guard. guard ≡ building.light_rule.definition.conjuncts) }
{
    let mut guard = ConjunctList::new(alloc);
    push_light_guard(alloc, &mut guard)?;
    Ok(guard)
}

// Pushes the guard of a contact, whose time is its second field, into an empty one.
fn push_contact_guard(alloc: Global, guard: &mut ConjunctList) -> Result<(), NoMemory>
    requires empty { guard.old ≡ [] }
    ensures { OnOk result (guard.new ≡ building.contact_rule.definition.conjuncts) }
{
    guard.push(same_room(alloc)?)?;
    guard.push(within_a_minute(alloc, place_at(1, 1), place_at(0, 1))?)?;
    guard.push(within_a_minute(alloc, place_at(0, 1), place_at(1, 1))?)?;
    Ok(())
}

fn contact_guard(alloc: Global) -> Result<ConjunctList, NoMemory>
    ensures { IfOk result (λ guard. guard ≡ building.contact_rule.definition.conjuncts) }
{
    let mut guard = ConjunctList::new(alloc);
    push_contact_guard(alloc, &mut guard)?;
    Ok(guard)
}

// The variables of a room and a time.
fn sighting_variables(
    alloc: Global,
    room: &[u8],
    time: &[u8],
) -> Result<Items<Option<Name>>, NoMemory>
    requires is_room { is_name room.now ≡ true }
    requires is_time { is_name time.now ≡ true }
    ensures { IfOk result (λ names. names ≡ building.variables (room.now ∷ time.now ∷ [])) }
{
    let room = variable(alloc, room)?;
    let time = variable(alloc, time)?;
    two(alloc, room, time)
}

fn motion_variables(alloc: Global) -> Result<Items<Option<Name>>, NoMemory>
    ensures { IfOk result (λ names. names ≡ building.motion_variables) }
{
    sighting_variables(alloc, b"r1", b"t1")
}

fn light_variables(alloc: Global) -> Result<Items<Option<Name>>, NoMemory>
    ensures { IfOk result (λ names. names ≡ building.light_variables) }
{
    let room = variable(alloc, b"r2")?;
    let lux = variable(alloc, b"lux")?;
    let time = variable(alloc, b"t2")?;
    three(alloc, room, lux, time)
}

fn contact_variables(alloc: Global) -> Result<Items<Option<Name>>, NoMemory>
    ensures { IfOk result (λ names. names ≡ building.contact_variables) }
{
    sighting_variables(alloc, b"r2", b"t2")
}

// The variables of a motion, and those of the other pattern.
fn with_motion(
    alloc: Global,
    others: Items<Option<Name>>,
) -> Result<Items<Items<Option<Name>>>, NoMemory>
    ensures { IfOk result (λ rows. rows ≡ building.with_motion others) }
{
    let motion = motion_variables(alloc)?;
    two(alloc, motion, others)
}

// `post desk KIND(r1);`, where the kind is of one room.
fn tell_desk(alloc: Global, kind: u32) -> Result<Items<Statement>, NoMemory>
    ensures { IfOk result (λ body. body ≡ building.tell_desk kind ∷ []) }
{
    let room = value_of(alloc, place_at(0, 0))?;
    one(
        alloc,
        Statement::Post {
            target: DESK,
            kind,
            operands: one(alloc, room)?,
        },
    )
}

// A motion, and a message of another kind.
fn motion_and(alloc: Global, kind: u32, conjuncts: ConjunctList) -> Result<Definition, NoMemory>
    ensures { IfOk result (λ definition. definition ≡ building.motion_and kind conjuncts) }
{
    let patterns = two(alloc, MOTION, kind)?;
    Ok(Definition {
        patterns,
        conjuncts,
        window: None,
    })
}

fn light_rule(alloc: Global) -> Result<Rule, NoMemory>
    ensures { IfOk result (λ rule. rule ≡ building.light_rule) }
{
    let variables = with_motion(alloc, light_variables(alloc)?)?;
    let body = tell_desk(alloc, ON)?;
    let definition = motion_and(alloc, LIGHT, light_guard(alloc)?)?;
    Ok(Rule {
        definition,
        variables,
        body,
    })
}

fn contact_rule(alloc: Global) -> Result<Rule, NoMemory>
    ensures { IfOk result (λ rule. rule ≡ building.contact_rule) }
{
    let variables = with_motion(alloc, contact_variables(alloc)?)?;
    let body = tell_desk(alloc, ALARM)?;
    let definition = motion_and(alloc, CONTACT, contact_guard(alloc)?)?;
    Ok(Rule {
        definition,
        variables,
        body,
    })
}

fn hall_rules(alloc: Global) -> Result<Items<Rule>, NoMemory>
    ensures { IfOk result (λ rules. rules ≡ building.hall_rules) }
{
    let light = light_rule(alloc)?;
    let contact = contact_rule(alloc)?;
    two(alloc, light, contact)
}

fn hall(alloc: Global, name: &[u8]) -> Result<ActorPlan, NoMemory>
    requires is_name { is_name name.now ≡ true }
    ensures { IfOk result (λ actor. actor ≡ building.hall name.now) }
{
    let name = Name::from_bytes(alloc, name)?;
    let rules = hall_rules(alloc)?;
    Ok(ActorPlan { name, rules })
}

// The variables of `KIND(r)`.
fn print_variables(alloc: Global) -> Result<Items<Items<Option<Name>>>, NoMemory>
    ensures { IfOk result (λ rows. rows ≡ building.print_variables) }
{
    let room = variable(alloc, b"r")?;
    let row = one(alloc, room)?;
    one(alloc, row)
}

// `print TEXT r;`.
fn print_body(alloc: Global, text: Text) -> Result<Items<Statement>, NoMemory>
    ensures { IfOk result (λ body. body ≡ building.print_body text) }
{
    let words = Item::Words(WordsLeaf::Fixed(text));
    let items = two(alloc, words, Item::Plain(place_at(0, 0)))?;
    one(alloc, Statement::Print(items))
}

// `when KIND(r) { print TEXT r; }`.
fn print_rule(alloc: Global, kind: u32, text: Text) -> Result<Rule, NoMemory>
    ensures { IfOk result (λ rule. rule ≡ building.print_rule kind text) }
{
    let body = print_body(alloc, text)?;
    let variables = print_variables(alloc)?;
    let patterns = one(alloc, kind)?;
    Ok(Rule {
        definition: Definition {
            patterns,
            conjuncts: ConjunctList::new(alloc),
            window: None,
        },
        variables,
        body,
    })
}

fn on_rule(alloc: Global) -> Result<Rule, NoMemory>
    ensures { IfOk result (λ rule. rule ≡ building.on_rule) }
{
    let text = Text::from_text(alloc, b"light on in ")?;
    print_rule(alloc, ON, text)
}

fn alarm_rule(alloc: Global) -> Result<Rule, NoMemory>
    ensures { IfOk result (λ rule. rule ≡ building.alarm_rule) }
{
    let text = Text::from_text(alloc, b"alarm in ")?;
    print_rule(alloc, ALARM, text)
}

fn desk_rules(alloc: Global) -> Result<Items<Rule>, NoMemory>
    ensures { IfOk result (λ rules. rules ≡ building.desk.rules) }
{
    let on = on_rule(alloc)?;
    let alarm = alarm_rule(alloc)?;
    two(alloc, on, alarm)
}

fn desk(alloc: Global) -> Result<ActorPlan, NoMemory>
    ensures { IfOk result (λ actor. actor ≡ building.desk) }
{
    let name = Name::from_bytes(alloc, b"desk")?;
    let rules = desk_rules(alloc)?;
    Ok(ActorPlan { name, rules })
}

// Pushes the actors into an empty list.
fn push_actors(alloc: Global, actors: &mut Items<ActorPlan>) -> Result<(), NoMemory>
    requires empty { actors.old ≡ [] }
    ensures { OnOk result (actors.new ≡ building.load_plan.actors) }
{
    actors.push(hall(alloc, b"hall1")?)?;
    actors.push(hall(alloc, b"hall2")?)?;
    actors.push(hall(alloc, b"hall3")?)?;
    actors.push(hall(alloc, b"hall4")?)?;
    actors.push(desk(alloc)?)?;
    Ok(())
}

fn actors(alloc: Global) -> Result<Items<ActorPlan>, NoMemory>
    ensures { IfOk result (λ actors. actors ≡ building.load_plan.actors) }
{
    let mut actors = Items::new(alloc);
    push_actors(alloc, &mut actors)?;
    Ok(actors)
}

/// The plan of the building, which is well typed: its kinds are motion, light and contact, which the halls take, and on
/// and alarm, which the desk takes; its actors are hall1 to hall4 and desk.
pub fn load_plan(alloc: Global) -> Result<Plan, NoMemory>
    ensures plan { IfOk result (λ plan. plan ≡ building.load_plan) }
    ensures typed { IfOk result IsTyped }
{
    let kinds = kinds(alloc)?;
    let actors = actors(alloc)?;
    Ok(Plan { kinds, actors })
}
