//! Publishing beside a pool.
ghost use Rattle.std.specs.Prelude.{◌≡◌, ◌<◌, None, IfOk, OnErr, OnOk, replicate, slice_set};
ghost use Rattle.join_base.specs.Outside.{Rose};
ghost use Rattle.actor_pool.specs.Beside.{KeepsOthers};
ghost use Rattle.live_board.specs.Publishers.{KeepsNote, note_of, notes_of, record_of};
ghost use Rattle.live_board.specs.Writers.{EndsWith};

use crate::note::BoardNote;
use crate::publisher::Publisher;
use crate::record::Record;
use crate::shared_writer::SharedWriter;
use crate::totals::actor_totals;
use actor_pool::Beside;
use actor_turn::Actor;
use join_base::NoMemory;
use std::alloc::Global;
use std::sync::{Mutex, Wait};

// Publishes a record and gives the note of that, under one lock.
fn publish_and_tell<W: Wait + Drop, R: Wait>(
    rt: &R,
    writer: &Mutex<SharedWriter<W>>,
    item: Record,
) -> Result<BoardNote, NoMemory>
    ensures told { IfOk result (EndsWith item) }
{
    let mut own = writer.lock(rt);
    own.writer.publish(rt, item)?;
    Ok(own.writer.tell())
}

// Room for a note of each actor, with none in it.
fn no_notes(alloc: Global) -> Result<Vec<Option<BoardNote>>, NoMemory>
    ensures none { IfOk result (λ notes. notes.items ≡ replicate 32 None) }
{
    let mut notes = Vec::with_capacity(alloc, 32)?;
    for _ in 0..32u32 {
        notes.push(None)?;
    }
    Ok(notes)
}

impl<'a, W: Wait + Drop> Publisher<'a, W> {
    /// A publisher that keeps no note, with room for one of each actor.
    pub fn new(
        alloc: Global,
        writer: &'a Mutex<SharedWriter<W>>,
    ) -> Result<Publisher<'a, W>, NoMemory>
        ensures none { IfOk result (λ p. notes_of p ≡ replicate 32 None) }
    {
        Ok(Publisher {
            writer,
            notes: no_notes(alloc)?,
            shown: 0,
        })
    }

    /// Hands out the note that is kept for an actor, which is kept no longer. `None` exactly where none is kept. The
    /// other notes stay.
    pub fn note(&mut self, actor: u32) -> Option<BoardNote>
        requires below { actor < 32 }
        ensures note { result ≡ note_of self.old actor }
        ensures kept { notes_of self.new ≡ slice_set (notes_of self.old) actor None }
    {
        self.notes[actor as usize].take()
    }
}

impl<'a, W: Wait + Drop, R: Wait> Beside<R> for Publisher<'a, W> {
    ghost fits = { λ _ _ _ _. Unit {0} };

    ghost tells = { λ p. p.shown };

    ghost wants = { Unit {0} };

    // Publishes the totals of the state, and keeps the note of that for the actor. At `NoMemory` all notes stay.
    fn seen(&mut self, rt: &R, _alloc: Global, actor: u32, state: &Actor) -> Result<(), NoMemory>
        requires below { actor < 32 }
        ensures others { KeepsOthers (λ _ _ _ _. Unit {0}) self.old self.new actor }
        ensures told { Rose self.old.shown self.new.shown }
        ensures wants { OnErr result (Unit {0}) }
        ensures noted { OnOk result (KeepsNote (record_of actor state.now) (notes_of self.old) (notes_of self.new)) }
        ensures kept { OnErr result (notes_of self.new ≡ notes_of self.old) }
    {
        self.shown = self.shown.saturating_add(1);
        let item = Record {
            actor,
            totals: actor_totals(state),
        };
        let note = publish_and_tell(rt, self.writer, item)?;
        self.notes[actor as usize] = Some(note);
        Ok(())
    }

    ghost grows = { λ _ _ _ _ _ _ fit. fit };
}
