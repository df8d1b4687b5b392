//! What could stand where a script doesn't go on.
use crate::bodies::{BEGINNINGS, BODIES, ENDINGS, LEAVES};
use crate::heads::{ACTORS, HEADS, MESSAGES};
use crate::sights::{RELATION, Row, SIGN, Side};
use crate::spot::{Part, Sight, Spot, Step, is_one_of};
use script_tokens::Mark;

type Wanted = (Side, &'static [u8]);

const NOTHING: Wanted = (Side::Here, b"a script doesn't go on like this");

fn found_in(rows: &[Row], spot: Spot, sight: Sight) -> Option<Wanted> {
    for (here, sights, side, sentence) in rows {
        if *here == spot && is_one_of(sight, sights) {
            return Some((*side, *sentence));
        }
    }
    None
}

fn of_beginning(part: Part, sight: Sight) -> Wanted {
    for (here, sights, sentence) in BEGINNINGS {
        if *here == part && is_one_of(sight, sights) {
            return (Side::Here, *sentence);
        }
    }
    NOTHING
}

fn of_leaf(sight: Sight) -> Wanted {
    for (sights, sentence) in LEAVES {
        if is_one_of(sight, sights) {
            return (Side::Here, *sentence);
        }
    }
    NOTHING
}

fn of_ending(part: Part, sight: Sight) -> Wanted {
    for (here, sights, side, sentence) in ENDINGS {
        if *here == part && is_one_of(sight, sights) {
            return (*side, *sentence);
        }
    }
    NOTHING
}

fn in_term(part: Part, step: Step, sight: Sight) -> Wanted {
    match step {
        Step::Begin => of_beginning(part, sight),
        Step::Leaf => of_leaf(sight),
        Step::Behind => of_ending(part, sight),
        Step::Quoted if is_one_of(sight, SIGN) => (Side::Here, b"texts are not added"),
        Step::Quoted => of_ending(part, sight),
    }
}

fn in_message(spot: Spot, sight: Sight) -> Option<Wanted> {
    found_in(MESSAGES, spot, sight)
}

fn in_actor(spot: Spot, sight: Sight) -> Option<Wanted> {
    found_in(ACTORS, spot, sight)
}

fn in_head(spot: Spot, sight: Sight) -> Option<Wanted> {
    found_in(HEADS, spot, sight)
}

fn in_body(spot: Spot, sight: Sight) -> Option<Wanted> {
    found_in(BODIES, spot, sight)
}

// What is told where a script doesn't go on with what stands at this spot, and where the mark of it stands.
fn wanted_at(spot: Spot, sight: Sight) -> Wanted {
    match spot {
        Spot::Term(part, step) => in_term(part, step, sight),
        Spot::BehindParenthesis if is_one_of(sight, RELATION) => (
            Side::Here,
            b"parentheses stand around comparisons, and not around a side of one",
        ),
        Spot::BehindParenthesis => of_ending(Part::Right, sight),
        _ => in_message(spot, sight)
            .or(in_actor(spot, sight))
            .or(in_head(spot, sight))
            .or(in_body(spot, sight))
            .unwrap_or(NOTHING),
    }
}

/// What is told where a script doesn't go on with what stands at this spot, behind something else; and where the mark
/// of it stands.
pub fn wanted_behind(before: Sight, spot: Spot, sight: Sight) -> Wanted {
    match (before, spot, sight) {
        (Sight::Quoted, Spot::Item, Sight::Mark(Mark::Plus)) => (
            Side::Here,
            b"the items of a print stand one behind the other, without `+`",
        ),
        _ => wanted_at(spot, sight),
    }
}
