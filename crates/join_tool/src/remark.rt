//! What is remarked besides a good answer: definitions that keep too much, and quotes that are never closed.
use command_words::Request;
use fault_places::{Tie, feed_remark, push_tie};
use join_base::{Bytes, Name, NoMemory, Word};
use join_command::MAX_LOG;
use script_check::{checked_outline, visit_script};
use script_hints::{Script, script_of};
use script_plan::{PlanVisitor, plan_heads};
use script_types::{Plan, Rule};
use std::alloc::Global;
use system_files::read_again;
use tied_patterns::{Tied, tied_pairs};

fn kind_name<'a>(plan: &'a Plan, rule: &Rule, pattern: u32) -> &'a [u8] {
    let Some(kind) = rule.definition.patterns.as_slice().get(pattern as usize) else {
        return b"?";
    };
    match plan.kinds.as_slice().get(*kind as usize) {
        Some(kind) => kind.name.bytes(),
        None => b"?",
    }
}

fn variable_name(rule: &Rule, pattern: u32, field: u32) -> &[u8] {
    let Some(variables) = rule.variables.as_slice().get(pattern as usize) else {
        return b"?";
    };
    match variables.as_slice().get(field as usize) {
        Some(Some(name)) => name.bytes(),
        _ => b"?",
    }
}

fn tie_of<'a>(plan: &'a Plan, rule: &'a Rule, tied: &Tied) -> Tie<'a> {
    Tie {
        left_kind: kind_name(plan, rule, tied.left.pattern),
        right_kind: kind_name(plan, rule, tied.right.pattern),
        link_kind: kind_name(plan, rule, tied.link.pattern),
        left: variable_name(rule, tied.left.pattern, tied.left.field),
        right: variable_name(rule, tied.right.pattern, tied.right.field),
    }
}

// Appends what is remarked of each definition that it takes. The heads are the plan without its definitions, which has
// the names.
#[derive(Drop)]
struct Remarks<'a> {
    name: &'a str,
    script: &'a Script<'a>,
    heads: &'a Plan,
    actor: usize,
    number: usize,
    out: Bytes,
}

impl<'a> PlanVisitor for Remarks<'a> {
    ghost Taken = { Unit {0} };

    ghost taken = { λ s. tt };

    ghost with_actor = { λ taken name. taken };

    ghost with_rule = { λ taken rule. taken };

    ghost with_end = { λ taken name. taken };

    fn begin_actor(&mut self, _alloc: Global, _name: &Name) -> Result<(), NoMemory> {
        self.number = 0;
        Ok(())
    }

    fn take_rule(&mut self, alloc: Global, rule: Rule) -> Result<(), NoMemory> {
        let pairs = tied_pairs(alloc, &rule.definition)?;
        for tied in pairs.as_slice() {
            let tie = tie_of(self.heads, &rule, tied);
            push_tie(
                &mut self.out,
                self.name,
                self.script,
                self.actor,
                self.number,
                tie,
            )?;
        }
        self.number = self.number.saturating_add(1);
        Ok(())
    }

    fn end_actor(&mut self, _alloc: Global, _name: Name) -> Result<(), NoMemory> {
        self.actor = self.actor.saturating_add(1);
        Ok(())
    }
}

// What is remarked of the definitions of a script, and nothing of one with a fault.
fn text_remark(alloc: Global, name: &str, text: &[u8]) -> Result<Bytes, NoMemory> {
    let Ok(outline) = checked_outline(alloc, text) else {
        return Ok(Bytes::new(alloc));
    };
    let heads = plan_heads(alloc, &outline)?;
    let script = script_of(alloc, text)?;
    let mut remarks = Remarks {
        name,
        script: &script,
        heads: &heads,
        actor: 0,
        number: 0,
        out: Bytes::new(alloc),
    };
    visit_script(alloc, text, &outline, &mut remarks)?;
    Ok(remarks.out)
}

/// What is remarked of the definitions of a script that can be read again.
pub fn script_remark(rt: &HostRuntime, name: &Word) -> Result<Bytes, NoMemory> {
    let alloc = rt.alloc();
    let Some(text) = read_again(rt, name.as_str(), MAX_LOG) else {
        return Ok(Bytes::new(alloc));
    };
    text_remark(alloc, name.as_str(), text.bytes())
}

// What is remarked of a feed that can be read again.
fn remark_on(rt: &HostRuntime, name: &Word) -> Result<Bytes, NoMemory> {
    match read_again(rt, name.as_str(), MAX_LOG) {
        Some(text) => feed_remark(rt.alloc(), name.as_str(), text.bytes()),
        None => Ok(Bytes::new(rt.alloc())),
    }
}

/// What is remarked of the feeds of a run.
pub fn feeds_remark(rt: &HostRuntime, command: &Request<'_>) -> Result<Bytes, NoMemory> {
    let mut out = Bytes::new(rt.alloc());
    if let Request::Run(run) | Request::Ask(run) | Request::Watch { run, .. } = command {
        for name in run.feeds.as_slice() {
            let remark = remark_on(rt, name)?;
            out.push_all(remark.bytes())?;
        }
    }
    Ok(out)
}

/// The script of a command for which its definitions are remarked on.
pub fn script_to_remark<'a>(command: &Request<'a>, has_jammed: bool) -> Option<&'a Word> {
    match command {
        Request::Check { script } | Request::Lint { script } => Some(*script),
        Request::Run(run) | Request::Ask(run) | Request::Watch { run, .. } if has_jammed => Some(
            run.script,
        ),
        _ => None,
    }
}
