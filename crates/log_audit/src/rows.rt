//! The rows of a feed for an actor.
ghost use Rattle.std.specs.Prelude.{◌≡◌, ◌∷◌, [], ◌+◌, ◌-◌, ◌<◌, ◌≤◌, ◌^◌, drop, length, min, slice_get, IfSome, MatchOption};
ghost use Rattle.log_audit.specs.Wrong.{number_of, row_for, rows_for};

use join_base::Message;
use std::marker::Model;

/// A row, with the message where it stands in its feed. A contract sees it as its number and its message.
#[derive(Drop)]
pub(crate) struct SeenRow<'a> {
    number: u64,
    message: &'a Message,
}

impl<'a> Model for SeenRow<'a> {
    ghost use Rattle.log_audit.specs.Wrong.{Row};

    ghost Value = { Row };

    ghost view = { λ r. record { number = r.number; message = r.message.now } };
}

impl<'a> SeenRow<'a> {
    pub(crate) fn number(&self) -> u64
        ensures { result ≡ self.now.number }
    {
        self.number
    }

    pub(crate) fn message(&self) -> &'a Message
        ensures { result.now ≡ self.now.message }
    {
        self.message
    }
}

// The number of a row, if there is one.
pub(crate) fn number_of(row: Option<SeenRow>) -> Option<u64>
    ensures { result ≡ number_of row.entry }
{
    match row {
        Some(row) => Some(row.number()),
        None => None,
    }
}

fn row_for<'a>(actor: u32, number: u64, post: &'a (u32, Message)) -> Option<SeenRow<'a>>
    ensures { result ≡ row_for actor number post.now }
{
    if post.0 == actor {
        Some(SeenRow {
            number,
            message: &post.1,
        })
    } else {
        None
    }
}

// The first row for an actor among posts, before which so many stand, and the posts behind it.
fn first_row<'a>(
    actor: u32,
    before: u64,
    posts: &'a [(u32, Message)],
) -> Option<(SeenRow<'a>, &'a [(u32, Message)])>
    requires { before + length posts.now < 2 ^ 64 }
    ensures first { MatchOption result (rows_for actor before posts.now ≡ [])
        (λ p. rows_for actor before posts.now ≡ p.0 ∷ rows_for actor p.0.number p.1.now) }
    ensures small { IfSome result (λ p. p.0.number + length p.1.now < 2 ^ 64) }
{
    let mut count = before;
    for (place, post) in posts.iter().enumerate() {
        count += 1;
        if let Some(row) = row_for(actor, count, post) {
            return Some((row, posts.split_at(place + 1).1));
        }
    }
    None
}

/// The rows of a feed for an actor that were not taken yet, in order. A contract sees them as a list.
#[derive(Drop)]
pub(crate) struct Rows<'a> {
    actor: u32,
    // How many rows of the feed stand before those that were not looked at.
    before: u64,
    posts: &'a [(u32, Message)],
}

impl<'a> Model for Rows<'a> {
    ghost use Rattle.std.specs.Prelude.{List, ◌+◌, ◌<◌, ◌^◌, length};
    ghost use Rattle.log_audit.specs.Wrong.{Row, rows_for};

    ghost Value = { List Row };

    ghost view = { λ r. rows_for r.actor r.before r.posts.now };

    ghost invariant = { λ r. r.before + length r.posts.now < 2 ^ 64 };
}

impl<'a> Rows<'a> {
    /// All rows of a feed for an actor.
    pub(crate) fn new(actor: u32, posts: &'a [(u32, Message)]) -> Rows<'a>
        ensures { result ≡ rows_for actor 0 posts.now }
    {
        Rows {
            actor,
            before: 0,
            posts,
        }
    }

    /// The same rows again.
    pub(crate) fn again(&self) -> Rows<'a>
        ensures { result ≡ self.now }
    {
        Rows {
            actor: self.actor,
            before: self.before,
            posts: self.posts,
        }
    }

    /// Takes the next row, if there is one.
    pub(crate) fn next(&mut self) -> Option<SeenRow<'a>>
        ensures first { result ≡ slice_get self.old 0 }
        ensures rest { self.new ≡ drop 1 self.old }
    {
        match first_row(self.actor, self.before, self.posts) {
            Some((row, posts)) => {
                *self = Rows {
                    actor: self.actor,
                    before: row.number,
                    posts,
                };
                Some(row)
            }
            None => {
                *self = Rows::new(self.actor, &[]);
                None
            }
        }
    }
}

// How many rows there are, counted up to the last 64-bit number.
#[tactic(auto, using(crate::proofs::RowLemmas::one_left))]
pub(crate) fn row_count(rows: Rows) -> u64
    ensures { result ≡ min (length rows.entry) (2 ^ 64 - 1) }
{
    let mut rest = rows;
    let mut count: u64 = 0;
    while let Some(_) = rest.next() {
        count = count.saturating_add(1);
    }
    count
}
