//! The cells.
ghost use Rattle.std.specs.Prelude.{◌≡◌, ◌≢◌, ◌↔◌, [], IfErr, IfOk, IfSome, IfNone, IsSome, IsTrue, MatchResult, OnOk, Some, None, map, replicate};
ghost use Rattle.ask_board.specs.declared.view.Ask.{Ask as OneAsk};
ghost use Rattle.ask_board.specs.declared.board.AnswerFault.TheVariants.{Differs};
ghost use Rattle.ask_board.specs.Rows.{item_of};
ghost use Rattle.std.specs.List.{AllByRecursion};
ghost use Rattle.once_cell.specs.Once.{cell_name};
ghost use Rattle.ask_board.specs.View.{KnowsNone, known_of, noted_cell};
ghost use Rattle.ask_board.specs.Board.{AreCellsOf, HasAsk, IsPost, IsViewOf, KnowsAnother, KnowsNothing, StaysKnown, differs, handed_back, has_no_memory};

use crate::same::same_value;
use crate::view::{Ask, AskView};
use feed_store::{Feed, Feeds};
use join_base::{Items, NoMemory, Value};
use once_cell::race::{Note, OnceBox};
use std::alloc::Global;

/// For each post of each feed a cell that is set at most once.
#[derive(Drop)]
pub struct AskBoard {
    // For each feed, and for each actor, the cells of its posts.
    cells: Items<Items<Items<OnceBox<Value>>>>,
    alloc: Global,
}

/// Why an ask was not answered. The value is handed back.
#[derive(Drop)]
pub enum AnswerFault {
    /// The ask has another value.
    Differs(Value),
    NoMemory(Value),
}

// No cells for each of so many actors.
fn no_cells(alloc: Global, actors: u32) -> Result<Items<Items<OnceBox<Value>>>, NoMemory>
    ensures empty { IfOk result (λ rows. rows ≡ replicate actors []) }
{
    let mut rows = Items::new(alloc);
    for _ in 0..actors {
        rows.push(Items::new(alloc))?;
    }
    Ok(rows)
}

// A cell for each post of a feed to one of so many actors.
fn cells_of_feed(
    alloc: Global,
    posts: &Feed,
    actors: u32,
) -> Result<Items<Items<OnceBox<Value>>>, NoMemory>
    ensures cells { IfOk result (λ rows. AreCellsOf actors posts.now rows) }
{
    let mut rows = no_cells(alloc, actors)?;
    let mut rest = posts.reader();
    while let Some(target) = rest.next_target() {
        if target < actors {
            let row = rows.at_mut(target as usize);
            row.push(OnceBox::new(alloc))?;
        }
    }
    Ok(rows)
}

// Notes of the cells of a feed's posts to an actor.
fn notes_of_posts(
    alloc: Global,
    cells: &Items<OnceBox<Value>>,
) -> Result<Items<Note<Value>>, NoMemory>
    ensures cells { IfOk result (λ notes. map noted_cell notes ≡ map cell_name cells.now) }
    ensures nothing { IfOk result (AllByRecursion KnowsNone) }
{
    let mut notes = Items::new(alloc);
    for cell in cells.as_slice() {
        notes.push(cell.note())?;
    }
    Ok(notes)
}

// Notes of the cells of a feed's posts.
fn notes_of_actors(
    alloc: Global,
    actors: &Items<Items<OnceBox<Value>>>,
) -> Result<Items<Items<Note<Value>>>, NoMemory>
    ensures cells { IfOk result (λ notes. map (map noted_cell) notes ≡ map (map cell_name) actors.now) }
    ensures nothing { IfOk result (AllByRecursion (AllByRecursion KnowsNone)) }
{
    let mut notes = Items::new(alloc);
    for cells in actors.as_slice() {
        notes.push(notes_of_posts(alloc, cells)?)?;
    }
    Ok(notes)
}

// Whether an ask has this value.
fn compared(found: &Value, value: Value) -> Result<(), AnswerFault>
    ensures ok { OnOk result (found.now ≡ value) }
    ensures differs { IfErr result (λ fault. (fault ≡ Differs value) × found.now ≢ value) }
{
    if same_value(found, &value) {
        Ok(())
    } else {
        Err(AnswerFault::Differs(value))
    }
}

impl AskBoard {
    /// A cell for each post of the feeds to one of so many actors.
    pub fn new(alloc: Global, feeds: &Feeds, actors: u32) -> Result<AskBoard, NoMemory>
        ensures asks { IfOk result (λ board. (ask : OneAsk) → HasAsk board ask ↔ IsPost feeds.now actors ask) }
    {
        let mut cells = Items::new(alloc);
        for posts in feeds.as_slice() {
            cells.push(cells_of_feed(alloc, posts, actors)?)?;
        }
        Ok(AskBoard { cells, alloc })
    }

    /// Whether the board has the ask.
    pub fn has(&self, ask: Ask) -> bool
        ensures { IsTrue result ↔ HasAsk self.now ask }
    {
        if ask.feed == 0 || self.cells.len() < ask.feed as usize {
            return false;
        }
        let actors = self.cells.at((ask.feed - 1) as usize);
        if actors.len() <= ask.actor as usize {
            return false;
        }
        let posts = actors.at(ask.actor as usize);
        ask.place != 0 && ask.place as usize <= posts.len()
    }

    // The cell of an ask.
    fn cell(&self, ask: Ask) -> &OnceBox<Value>
        requires exists { HasAsk self.now ask }
        ensures cell { item_of self.now.cells ask ≡ Some result.now }
    {
        let actors = self.cells.at((ask.feed - 1) as usize);
        let posts = actors.at(ask.actor as usize);
        posts.at((ask.place - 1) as usize)
    }

    /// A view that knows nothing.
    pub fn view(&self) -> Result<AskView, NoMemory>
        ensures of_board { IfOk result (IsViewOf self.now) }
        ensures nothing { IfOk result KnowsNothing }
    {
        let mut feeds = Items::new(self.alloc);
        for actors in self.cells.as_slice() {
            feeds.push(notes_of_actors(self.alloc, actors)?)?;
        }
        Ok(AskView { notes: feeds })
    }

    /// The value of an ask, where it has one. The view knows it from then on. `None` comes only where the view knew
    /// none.
    pub fn look<'a>(&'a self, view: &mut AskView, ask: Ask) -> Option<&'a Value>
        requires of_board { IsViewOf self.now view.old }
        requires exists { HasAsk self.now ask }

        ensures of_board { IsViewOf self.now view.new }
        ensures some { IfSome result (λ value. known_of view.new ask ≡ Some value.now) }
        ensures none { IfNone result ((known_of view.old ask ≡ None) × (known_of view.new ask ≡ None)) }
        ensures stays { StaysKnown (known_of view.old ask) (known_of view.new ask) }
        ensures others { (another : OneAsk) → another ≢ ask → known_of view.new another ≡ known_of view.old another }
    {
        let cell = self.cell(ask);
        let notes = view.notes.at_mut((ask.feed - 1) as usize);
        let notes = notes.at_mut(ask.actor as usize);
        let note = notes.at_mut((ask.place - 1) as usize);
        cell.get_as(note)
    }

    // Sets the cell of an ask, or hands the value back. The view knows the cell's value from then on.
    fn set(&self, view: &mut AskView, ask: Ask, value: Box<Value>) -> Result<(), Box<Value>>
        requires of_board { IsViewOf self.now view.old }
        requires exists { HasAsk self.now ask }

        ensures of_board { IsViewOf self.now view.new }
        ensures known { IsSome (known_of view.new ask) }
        ensures set { OnOk result (known_of view.new ask ≡ Some value.value) }
        ensures back { MatchResult result (λ _. Unit {0}) (λ back. back.value ≡ value.value) }
        ensures stays { StaysKnown (known_of view.old ask) (known_of view.new ask) }
        ensures others { (another : OneAsk) → another ≢ ask → known_of view.new another ≡ known_of view.old another }
    {
        let cell = self.cell(ask);
        let notes = view.notes.at_mut((ask.feed - 1) as usize);
        let notes = notes.at_mut(ask.actor as usize);
        let note = notes.at_mut((ask.place - 1) as usize);
        cell.set_as(value, note)
    }

    /// Answers an ask with a value. `Ok` where the ask has this value, set here or found. `Differs` exactly where the
    /// view then knows another value for it. After `NoMemory` the view knows what it knew.
    pub fn answer(&self, view: &mut AskView, ask: Ask, value: Value) -> Result<(), AnswerFault>
        requires of_board { IsViewOf self.now view.old }
        requires exists { HasAsk self.now ask }

        ensures of_board { IsViewOf self.now view.new }
        ensures ok { OnOk result (known_of view.new ask ≡ Some value) }
        ensures differs { IsTrue (differs result) ↔ KnowsAnother (known_of view.new ask) value }
        ensures no_memory { IsTrue (has_no_memory result) → known_of view.new ask ≡ known_of view.old ask }
        ensures back { IfErr result (λ fault. handed_back fault ≡ value) }
        ensures stays { StaysKnown (known_of view.old ask) (known_of view.new ask) }
        ensures others { (another : OneAsk) → another ≢ ask → known_of view.new another ≡ known_of view.old another }
    {
        if let Some(found) = self.look(view, ask) {
            return compared(found, value);
        }
        let boxed = match Box::new(self.alloc, value) {
            Ok(boxed) => boxed,
            Err(failed) => return Err(AnswerFault::NoMemory(failed.value)),
        };
        match self.set(view, ask, boxed) {
            Ok(()) => Ok(()),
            Err(back) => match self.look(view, ask) {
                Some(found) => compared(found, Box::into_inner(back)),
                None => unreachable!(),
            },
        }
    }
}
