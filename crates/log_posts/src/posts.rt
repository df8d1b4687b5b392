//! The posts from one actor to another, by the entries of the first.
ghost use Rattle.std.specs.Prelude.{◌≡◌, ◌∷◌, [], ◌++◌, drop, slice_get, MatchOption};
ghost use Rattle.std.specs.List.{filter_map};
ghost use Rattle.fair_semantics.specs.Linked.{effect_for, firing_effects};
ghost use Rattle.log_posts.specs.Posts.{has_message, line_stamp, link_posts};

use crate::same::same_message;
use fair_semantics::{Effect, Entry, Fired};
use join_base::Message;
use std::marker::Model;

/// A post, with the message where it stands in its entry. A contract sees it as a message with its stamp.
#[derive(Drop)]
pub struct Posted<'a> {
    message: &'a Message,
    stamp: u64,
}

impl<'a> Model for Posted<'a> {
    ghost use Rattle.join_base.specs.declared.message.Stamped.{Stamped};

    ghost Value = { Stamped };

    ghost view = { λ s. record { message = s.message.now; stamp = s.stamp } };
}

impl<'a> Posted<'a> {
    /// The stamp that the post carries.
    pub fn stamp(&self) -> u64
        ensures { result ≡ self.now.stamp }
    {
        self.stamp
    }
}

/// Whether there is a post, and it has this message.
pub fn has_message(post: Option<Posted>, message: &Message) -> bool
    ensures { result ≡ has_message post.entry message.now }
{
    match post {
        Some(post) => same_message(post.message, message),
        None => false,
    }
}

fn post_for<'a>(effect: &'a Effect, to: u32, stamp: u64) -> Option<Posted<'a>>
    ensures { result ≡ effect_for to stamp effect.now }
{
    match effect {
        Effect::Print(_) => None,
        Effect::Post { target, message } => {
            if *target == to {
                Some(Posted { message, stamp })
            } else {
                None
            }
        }
        Effect::Reply { .. } => None,
    }
}

// The first post to an actor among effects, and the effects behind it.
fn first_post<'a>(effects: &'a [Effect], to: u32, stamp: u64) -> Option<(Posted<'a>, &'a [Effect])>
    ensures { MatchOption result (filter_map (effect_for to stamp) effects.now ≡ [])
        (λ p. filter_map (effect_for to stamp) effects.now ≡ p.0 ∷ filter_map (effect_for to stamp) p.1.now) }
{
    for (place, effect) in effects.iter().enumerate() {
        if let Some(post) = post_for(effect, to, stamp) {
            return Some((post, effects.split_at(place + 1).1));
        }
    }
    None
}

/// The effects of a firing, or none where nothing fired.
pub fn effects_of<'a>(fired: &'a Fired) -> &'a [Effect]
    ensures { result.now ≡ firing_effects fired.now }
{
    match fired.get() {
        Some(firing) => firing.effects.as_slice(),
        None => &[],
    }
}

// The stamp of the line at this place, or of the entry where there is none.
fn line_stamp(lines: &[Entry], place: usize, entry: &Entry) -> u64
    ensures { result ≡ line_stamp (slice_get lines.now place) entry.now.stamp }
{
    match lines.get(place) {
        Some(line) => line.stamp,
        None => entry.stamp,
    }
}

// The lines behind so many.
fn lines_behind(lines: &[Entry], count: usize) -> &[Entry]
    ensures { result.now ≡ drop count lines.now }
{
    lines.split_at(count.min(lines.len())).1
}

/// The posts from one actor to another that were not taken yet, in order. A contract sees them as a list.
///
/// They stand in the entries that made them, so a link takes no memory. Each has the stamp of the line that was read at
/// the place of its entry, or where there is no such line, of the entry.
#[derive(Drop)]
pub struct Link<'a> {
    to: u32,
    // Of the entry that was reached, the effects that were not looked at, and the stamp of its line.
    effects: &'a [Effect],
    stamp: u64,
    // The entries behind it, and their lines.
    made: &'a [Entry],
    lines: &'a [Entry],
}

impl<'a> Model for Link<'a> {
    ghost use Rattle.std.specs.Prelude.{List, ◌++◌};
    ghost use Rattle.std.specs.List.{filter_map};
    ghost use Rattle.join_base.specs.declared.message.Stamped.{Stamped};
    ghost use Rattle.fair_semantics.specs.Linked.{effect_for};
    ghost use Rattle.log_posts.specs.Posts.{link_posts};

    ghost Value = { List Stamped };

    ghost view = { λ l. filter_map (effect_for l.to l.stamp) l.effects.now ++ link_posts l.to l.made.now l.lines.now };
}

impl<'a> Link<'a> {
    /// The posts to an actor by the entries that were made, with the lines that were read.
    pub fn new(to: u32, made: &'a [Entry], lines: &'a [Entry]) -> Link<'a>
        ensures { result ≡ link_posts to made.now lines.now }
    {
        Link {
            to,
            effects: &[],
            stamp: 0,
            made,
            lines,
        }
    }

    /// The same posts again.
    pub fn again(&self) -> Link<'a>
        ensures { result ≡ self.now }
    {
        Link {
            to: self.to,
            effects: self.effects,
            stamp: self.stamp,
            made: self.made,
            lines: self.lines,
        }
    }

    /// Takes the next post, if there is one.
    pub fn next(&mut self) -> Option<Posted<'a>>
        ensures first { result ≡ slice_get self.old 0 }
        ensures rest { self.new ≡ drop 1 self.old }
    {
        if let Some((post, effects)) = first_post(self.effects, self.to, self.stamp) {
            self.effects = effects;
            return Some(post);
        }
        match first_made(self.to, self.made, self.lines) {
            Some((post, rest)) => {
                *self = rest;
                Some(post)
            }
            None => {
                *self = Link::new(self.to, &[], &[]);
                None
            }
        }
    }
}

// The first post to an actor by the entries that were made, and those behind it.
fn first_made<'a>(to: u32, made: &'a [Entry], lines: &'a [Entry]) -> Option<(Posted<'a>, Link<'a>)>
    ensures { MatchOption result (link_posts to made.now lines.now ≡ []) (λ p. link_posts to made.now lines.now
        ≡ p.0 ∷ p.1) }
{
    for (place, entry) in made.iter().enumerate() {
        let stamp = line_stamp(lines, place, entry);
        if let Some((post, effects)) = first_post(effects_of(&entry.firing), to, stamp) {
            let rest = Link {
                to,
                effects,
                stamp,
                made: made.split_at(place + 1).1,
                lines: lines_behind(lines, place + 1),
            };
            return Some((post, rest));
        }
    }
    None
}
