//! A plan as text.
ghost use Rattle.std.specs.Prelude.{◌≡◌, ◌++◌, OnOk, OnErr, codes};
ghost use Rattle.std.specs.List.{flat_map, join_by};
ghost use Rattle.plan_text.specs.PlanText.{actor_begin, actor_end, actor_lines, field_text, kind_line, plan_text};

use crate::names::write_sort;
use crate::rules::write_rules;
use join_base::{Bytes, Name, NoMemory, Sort};
use script_types::{ActorPlan, Kind, Plan};
use std::alloc::Global;

fn write_field(text: &mut Bytes, field: &(Name, Sort)) -> Result<(), NoMemory>
    ensures { OnOk result (text.new ≡ text.old ++ field_text field.now) }
{
    let (name, sort) = field;
    text.push_all(name.bytes())?;
    text.push_all(b": ")?;
    write_sort(text, *sort)
}

fn write_fields(text: &mut Bytes, fields: &[(Name, Sort)]) -> Result<(), NoMemory>
    ensures { OnOk result (text.new ≡ text.old ++ join_by field_text (codes ", ") fields.now) }
{
    match fields {
        [] => Ok(()),
        [first, more @ ..] => {
            write_field(text, first)?;
            for field in more {
                text.push_all(b", ")?;
                write_field(text, field)?;
            }
            Ok(())
        }
    }
}

/// Appends a line for each kind. Without memory some of the text may stay appended, here and in the calls below that
/// append a part of a plan.
pub fn write_kinds(text: &mut Bytes, kinds: &[Kind]) -> Result<(), NoMemory>
    ensures { OnOk result (text.new ≡ text.old ++ flat_map kind_line kinds.now) }
{
    for kind in kinds {
        text.push_all(b"message ")?;
        text.push_all(kind.name.bytes())?;
        text.push_all(b"(")?;
        write_fields(text, kind.fields.as_slice())?;
        text.push_all(b")\n")?;
    }
    Ok(())
}

/// Appends the line that begins an actor of this name.
pub fn write_actor_begin(text: &mut Bytes, name: &Name) -> Result<(), NoMemory>
    ensures { OnOk result (text.new ≡ text.old ++ actor_begin name.now) }
{
    text.push_all(b"actor ")?;
    text.push_all(name.bytes())?;
    text.push_all(b" {\n")
}

/// Appends the line that ends an actor.
pub fn write_actor_end(text: &mut Bytes) -> Result<(), NoMemory>
    ensures { OnOk result (text.new ≡ text.old ++ actor_end) }
{
    text.push_all(b"}\n")
}

fn write_actors(text: &mut Bytes, plan: &Plan, actors: &[ActorPlan]) -> Result<(), NoMemory>
    ensures { OnOk result (text.new ≡ text.old ++ flat_map (actor_lines plan.now) actors.now) }
{
    for actor in actors {
        write_actor_begin(text, &actor.name)?;
        write_rules(text, plan, actor.rules.as_slice())?;
        write_actor_end(text)?;
    }
    Ok(())
}

/// Appends a plan as text, in the form of a script: its messages and then its actors, each with its definitions. So
/// people can read what a plan says.
///
/// Each number of a kind or an actor, and each place of a variable, is written as its name, and as nothing where the
/// plan has none. After `NoMemory` nothing was appended.
pub fn print_plan(alloc: Global, plan: &Plan, out: &mut Bytes) -> Result<(), NoMemory>
    ensures ok { OnOk result (out.new ≡ out.old ++ plan_text plan.now) }
    ensures err { OnErr result (out.new ≡ out.old) }
{
    let mut text = Bytes::new(alloc);
    write_kinds(&mut text, plan.kinds.as_slice())?;
    write_actors(&mut text, plan, plan.actors.as_slice())?;
    out.push_all(text.bytes())
}
