//! The names that the numbers of a plan stand for, written.
ghost use Rattle.std.specs.Prelude.{◌≡◌, ◌++◌, OnOk, OnErr};
ghost use Rattle.script_types.specs.Names.{name_of_actor, name_of_kind};

use crate::plan::Plan;
use join_base::{Bytes, NoMemory};

/// Appends the name of the kind of a number, counted from 0, and nothing where the plan has none. Without memory the
/// bytes are as they were.
pub fn write_kind_name(text: &mut Bytes, plan: &Plan, kind: u32) -> Result<(), NoMemory>
    ensures ok { OnOk result (text.new ≡ text.old ++ name_of_kind plan.now kind) }
    ensures err { OnErr result (text.new ≡ text.old) }
{
    match plan.kinds.as_slice().get(kind as usize) {
        Some(kind) => text.push_all(kind.name.bytes()),
        None => Ok(()),
    }
}

/// Appends the name of the actor of a number, likewise.
pub fn write_actor_name(text: &mut Bytes, plan: &Plan, actor: u32) -> Result<(), NoMemory>
    ensures ok { OnOk result (text.new ≡ text.old ++ name_of_actor plan.now actor) }
    ensures err { OnErr result (text.new ≡ text.old) }
{
    match plan.actors.as_slice().get(actor as usize) {
        Some(actor) => text.push_all(actor.name.bytes()),
        None => Ok(()),
    }
}
