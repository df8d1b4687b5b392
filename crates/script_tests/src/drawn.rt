//! What lint finds of scripts that are drawn at random, beside a plain reading of the findings: what a bound leaves is
//! found by trying numbers.
ghost use Rattle.std.specs.Prelude.{◌<◌, ◌≤◌, length};

use crate::findings::has_findings;
use join_base::{Bytes, NoMemory, Relation, write_number};
use script_lint::Finding;
use std::alloc::Global;
use std::test::Fail;

// The first field of a pattern has the relation to the number.
type Bound = (u32, Relation, i64);

// A definition of one or two patterns with at most three bounds.
#[derive(Clone, Copy)]
struct Drawn {
    first: u32,
    second: Option<u32>,
    bounds: [Option<Bound>; 3],
    window: Option<u32>,
}

// Numbers from 0 to 3 stand in bounds, so that one below and one above them stand for all others.
const TRIED: [i64; 6] = [-1, 0, 1, 2, 3, 4];

const RELATIONS: [Relation; 6] = [
    Relation::Equal,
    Relation::NotEqual,
    Relation::Less,
    Relation::LessEqual,
    Relation::Greater,
    Relation::GreaterEqual,
];

// Numbers that look random, and are the same each time.
#[derive(Drop)]
struct Chance {
    state: u64,
}

impl Chance {
    // One of the numbers below `count`.
    fn below(&mut self, count: u32) -> u32
        requires some { 0 < count }
        ensures within { result < count }
    {
        self.state = self
            .state
            .wrapping_mul(6_364_136_223_846_793_005)
            .wrapping_add(1_442_695_040_888_963_407);
        ((self.state >> 33) as u32) % count
    }
}

fn draw_bound(chance: &mut Chance, patterns: u32) -> Bound
    requires some { 0 < patterns }
{
    let relation = RELATIONS[chance.below(6) as usize];
    let pattern = chance.below(patterns);
    (pattern, relation, i64::from(chance.below(4)))
}

fn draw_second(chance: &mut Chance) -> Option<u32> {
    if chance.below(2) == 0 {
        Some(chance.below(2))
    } else {
        None
    }
}

fn draw_window(chance: &mut Chance) -> Option<u32> {
    if chance.below(3) == 0 {
        Some(1 + chance.below(3))
    } else {
        None
    }
}

fn draw_rule(chance: &mut Chance) -> Drawn {
    let first = chance.below(2);
    let second = draw_second(chance);
    let patterns = if second.is_some() { 2 } else { 1 };
    let count = chance.below(4) as usize;
    let mut bounds = [None; 3];
    for place in 0..count {
        bounds[place] = Some(draw_bound(chance, patterns));
    }
    let window = draw_window(chance);
    Drawn {
        first,
        second,
        bounds,
        window,
    }
}

fn holds(relation: Relation, value: i64, number: i64) -> bool {
    match relation {
        Relation::Equal => value == number,
        Relation::NotEqual => value != number,
        Relation::Less => value < number,
        Relation::LessEqual => value <= number,
        Relation::Greater => value > number,
        Relation::GreaterEqual => value >= number,
    }
}

// Whether a bound lets the field of the pattern have this value. A `!=` is no bound.
fn lets(bound: &Option<Bound>, pattern: u32, value: i64) -> bool {
    match bound {
        Some((on, relation, number)) => {
            *on != pattern || *relation == Relation::NotEqual || holds(*relation, value, *number)
        }
        None => true,
    }
}

fn allows(rule: &Drawn, pattern: u32, value: i64) -> bool {
    rule.bounds.iter().all(|bound| lets(bound, pattern, value))
}

fn is_left_none(rule: &Drawn, pattern: u32) -> bool {
    !TRIED.iter().any(|value| allows(rule, pattern, *value))
}

// Whether one of the two patterns is left no value.
fn is_dead(rule: &Drawn) -> bool {
    is_left_none(rule, 0) || is_left_none(rule, 1)
}

fn is_narrow(rule: &Drawn) -> bool {
    match rule.window {
        Some(window) => window < 2 && rule.second.is_some(),
        None => false,
    }
}

// A definition without a window sees all.
fn sees_as_much(earlier: Option<u32>, window: Option<u32>) -> bool {
    match (earlier, window) {
        (None, _) => true,
        (Some(_), None) => false,
        (Some(earlier), Some(window)) => earlier >= window,
    }
}

// Whether each value that the rule leaves has the relation of the bound, or the rule has the same bound.
fn implies(rule: &Drawn, bound: &Option<Bound>) -> bool {
    let Some((pattern, relation, number)) = bound else {
        return true;
    };
    rule.bounds.iter().any(|own| own == bound)
        || *relation != Relation::NotEqual
            && TRIED.iter().all(|value| !allows(rule, *pattern, *value)
                || holds(*relation, *value, *number))
}

// Whether each match of the rule is one of the earlier rule.
fn shadows(earlier: &Drawn, rule: &Drawn) -> bool {
    earlier.first == rule.first
        && earlier.second == rule.second
        && sees_as_much(earlier.window, rule.window)
        && earlier.bounds.iter().all(|bound| implies(rule, bound))
}

fn first_shadow(earlier: &[Drawn], rule: &Drawn) -> Option<u32>
    requires few { length earlier.now ≤ 16 }
{
    for place in 0..earlier.len() {
        if shadows(&earlier[place], rule) {
            return Some(place as u32 + 1);
        }
    }
    None
}

// What is to be found of the rule at a place.
fn finding_of(rules: &[Drawn], place: usize) -> Option<Finding>
    requires within { place < length rules.now }
    requires few { length rules.now ≤ 16 }
{
    let own = &rules[place];
    let actor = 0;
    let rule = place as u32 + 1;
    if is_dead(own) {
        Some(Finding::Dead { actor, rule })
    } else if is_narrow(own) {
        Some(Finding::Narrow { actor, rule })
    } else {
        first_shadow(&rules[..place], own).map(|by| Finding::Shadowed { actor, rule, by })
    }
}

// Whether a rule without a finding has a pattern of the kind.
fn is_taken(rules: &[Drawn], kind: u32) -> bool
    requires few { length rules.now ≤ 16 }
{
    for place in 0..rules.len() {
        let own = &rules[place];
        if finding_of(rules, place).is_none() && (own.first == kind || own.second == Some(kind)) {
            return true;
        }
    }
    false
}

// The findings of one actor with these rules, over two kinds.
fn wanted_of(alloc: Global, rules: &[Drawn]) -> Result<Vec<Finding>, NoMemory>
    requires few { length rules.now ≤ 16 }
{
    let mut wanted = Vec::new(alloc);
    for place in 0..rules.len() {
        if let Some(finding) = finding_of(rules, place) {
            wanted.push(finding)?;
        }
    }
    for kind in [0, 1] {
        if !is_taken(rules, kind) {
            wanted.push(Finding::Idle { kind })?;
        }
    }
    Ok(wanted)
}

fn relation_text(relation: Relation) -> &'static [u8] {
    match relation {
        Relation::Equal => b" == ",
        Relation::NotEqual => b" != ",
        Relation::Less => b" < ",
        Relation::LessEqual => b" <= ",
        Relation::Greater => b" > ",
        Relation::GreaterEqual => b" >= ",
    }
}

fn push_pattern(
    script: &mut Bytes,
    before: &[u8],
    kind: u32,
    variable: &[u8],
) -> Result<(), NoMemory> {
    script.push_all(before)?;
    script.push_all(if kind == 0 { b"a(" } else { b"b(" })?;
    script.push_all(variable)?;
    script.push_all(b")")
}

fn push_bound(script: &mut Bytes, before: &[u8], bound: Bound) -> Result<(), NoMemory> {
    let (pattern, relation, number) = bound;
    script.push_all(before)?;
    script.push_all(if pattern == 0 { b"x" } else { b"y" })?;
    script.push_all(relation_text(relation))?;
    write_number(script, i128::from(number))
}

fn push_bounds(script: &mut Bytes, bounds: &[Option<Bound>]) -> Result<(), NoMemory> {
    let mut before = b" if ".as_slice();
    for bound in bounds {
        if let Some(bound) = bound {
            push_bound(script, before, *bound)?;
            before = b" && ".as_slice();
        }
    }
    Ok(())
}

fn push_rule(script: &mut Bytes, rule: &Drawn) -> Result<(), NoMemory> {
    push_pattern(script, b"when ", rule.first, b"x")?;
    if let Some(kind) = rule.second {
        push_pattern(script, b" & ", kind, b"y")?;
    }
    if let Some(window) = rule.window {
        script.push_all(b" within ")?;
        write_number(script, i128::from(window))?;
    }
    push_bounds(script, rule.bounds.as_slice())?;
    script.push_all(b" { } ")
}

fn script_of(alloc: Global, rules: &[Drawn]) -> Result<Bytes, NoMemory> {
    let mut script = Bytes::new(alloc);
    script.push_all(b"message a(x: int) message b(x: int) actor m { ")?;
    for rule in rules {
        push_rule(&mut script, rule)?;
    }
    script.push_all(b"}")?;
    Ok(script)
}

fn is_sort(finding: &Finding, sort: usize) -> bool {
    match finding {
        Finding::Dead { .. } => sort == 0,
        Finding::Narrow { .. } => sort == 1,
        Finding::Shadowed { .. } => sort == 2,
        Finding::Idle { .. } => sort == 3,
    }
}

// Whether lint finds what is to be found. It notes which sorts of findings there are.
fn is_found(alloc: Global, rules: &[Drawn], seen: &mut [bool; 4]) -> Result<bool, NoMemory>
    requires few { length rules.now ≤ 16 }
{
    let wanted = wanted_of(alloc, rules)?;
    for sort in 0..4 {
        if wanted.iter().any(|finding| is_sort(finding, sort)) {
            seen[sort] = true;
        }
    }
    let script = script_of(alloc, rules)?;
    has_findings(alloc, script.bytes(), wanted.as_slice())
}

// So many plans of four rules each, among which each sort of findings is.
fn are_found(alloc: Global, times: u32) -> Result<bool, NoMemory> {
    let mut chance = Chance { state: 7 };
    let mut seen = [false; 4];
    for _ in 0..times {
        let rules = [
            draw_rule(&mut chance),
            draw_rule(&mut chance),
            draw_rule(&mut chance),
            draw_rule(&mut chance),
        ];
        if !is_found(alloc, rules.as_slice(), &mut seen)? {
            return Ok(false);
        }
    }
    Ok(seen == [true; 4])
}

#[test]
fn scripts_drawn_at_random_have_the_findings_of_a_plain_reading(
    rt: HostRuntime,
) -> Result<(), Fail> {
    assert!(rt; are_found(rt.alloc(), 300)?);
    Ok(())
}
