//! Blocks of numbers, of which all but the first and the last are full.
ghost use Rattle.std.specs.Prelude.{ℕ, ◌≡◌, suc, ◌+◌, ◌-◌, ◌<◌, ◌≤◌, ◌^◌, ◌++◌, ◌∷◌, [], List, length, slice_index, OnOk, OnErr};
ghost use Rattle.std.specs.List.{concat, remove};
ghost use Rattle.tiered_vec.specs.Tiers.{IsBegun, IsPushed, IsShifted, IsShorter, IsTaken, IsTiered, block_at, count_before};

use crate::block::Block;
use join_base::NoMemory;
use std::alloc::Global;

// How many numbers a block takes: some hundred numbers move in it, and one for each block before it.
const BLOCK: usize = 2048;

// The room that a first block begins with, since most lists are short. It grows as numbers come.
const FIRST_ROOM: usize = 4;

/// A place among blocks: which block, and where in it.
#[derive(Clone, Copy)]
pub struct Place {
    pub block: usize,
    pub within: usize,
}

/// Where the number at a place of the whole list stands.
pub fn place_in(blocks: &Vec<Block>, place: usize) -> Place
    requires tiered { IsTiered blocks.now.items }
    requires within { place < length (concat blocks.now.items) }
    ensures block { result.block < length blocks.now.items }
    ensures within { result.within < length (block_at blocks.now.items result.block) }
    ensures same { count_before blocks.now.items result.block + result.within ≡ place }
{
    let first = blocks[0].len();
    if place < first {
        return Place {
            block: 0,
            within: place,
        };
    }
    let rest = place - first;
    Place {
        block: 1 + rest / BLOCK,
        within: rest % BLOCK,
    }
}

/// How many numbers stand before a block.
pub fn numbers_before(blocks: &Vec<Block>, block: usize) -> usize
    requires tiered { IsTiered blocks.now.items }
    requires block { block < length blocks.now.items }
    requires few { length (concat blocks.now.items) < 2 ^ 64 }
    ensures { result ≡ count_before blocks.now.items block }
{
    if block == 0 {
        return 0;
    }
    blocks[0].len() + (block - 1) * BLOCK
}

// Puts a block of one number behind the others.
fn push_block(
    blocks: &mut Vec<Block>,
    alloc: Global,
    room: usize,
    number: u32,
) -> Result<(), NoMemory>
    ensures ok { OnOk result (blocks.new.items ≡ blocks.old.items ++ (number ∷ []) ∷ []) }
    ensures err { OnErr result (blocks.new.items ≡ blocks.old.items) }
{
    let block = Block::with_first(alloc, room, number)?;
    blocks.push(block)?;
    Ok(())
}

/// Puts a number at the end: into the last block, or into a new one if that is full.
pub fn push_in(blocks: &mut Vec<Block>, alloc: Global, number: u32) -> Result<(), NoMemory>
    requires tiered { IsTiered blocks.old.items }
    requires begun { IsBegun blocks.old.items }
    ensures ok { OnOk result (IsPushed blocks.old.items blocks.new.items number) }
    ensures err { OnErr result (blocks.new.items ≡ blocks.old.items) }
{
    let count = blocks.len();
    if count == 0 {
        push_block(blocks, alloc, FIRST_ROOM, number)?;
        return Ok(());
    }
    if blocks[count - 1].len() < BLOCK {
        blocks[count - 1].push_back(number)?;
        return Ok(());
    }
    push_block(blocks, alloc, BLOCK, number)?;
    Ok(())
}

// The last number of each block before `to` goes to the front of the next. That of the one before `to` is left over.
fn shift_to(blocks: &mut Vec<Block>, to: usize) -> u32
    requires behind { 0 < to }
    requires within { to < length blocks.old.items }
    requires tiered { IsTiered blocks.old.items }
    requires begun { IsBegun blocks.old.items }
    ensures { IsShifted blocks.old.items blocks.new.items to result }
{
    let mut number = blocks[0].take_last();
    for block in 1..to {
        number = blocks[block].shift(number);
    }
    number
}

// Takes a number out of a block before the last. Each block before its own gives the last number to the next, so that
// the first is one shorter.
fn remove_in(blocks: &mut Vec<Block>, at: Place)
    requires block { at.block < length blocks.old.items }
    requires within { at.within < length (block_at blocks.old.items at.block) }
    requires tiered { IsTiered blocks.old.items }
    requires begun { IsBegun blocks.old.items }
    ensures left { concat blocks.new.items
        ≡ remove (concat blocks.old.items) (count_before blocks.old.items at.block + at.within) }
    ensures shorter { IsShorter blocks.old.items blocks.new.items }
{
    if at.block == 0 {
        blocks[0].remove(at.within);
        return;
    }
    let number = shift_to(blocks, at.block);
    blocks[at.block].replace(at.within, number);
}

// Takes the first block out if it is empty.
fn drop_empty(blocks: &mut Vec<Block>)
    requires tiered { IsTiered blocks.old.items }
    requires some { 0 < length blocks.old.items }
    ensures same { concat blocks.new.items ≡ concat blocks.old.items }
    ensures tiered { IsTiered blocks.new.items }
    ensures begun { IsBegun blocks.new.items }
{
    if blocks[0].len() == 0 {
        let _ = blocks.remove(0);
    }
}

// Takes a number out of the last block, with which that goes if it has no other.
fn remove_last(blocks: &mut Vec<Block>, at: Place)
    requires block { suc at.block ≡ length blocks.old.items }
    requires within { at.within < length (block_at blocks.old.items at.block) }
    requires tiered { IsTiered blocks.old.items }
    requires begun { IsBegun blocks.old.items }
    ensures { IsTaken blocks.old.items blocks.new.items (count_before blocks.old.items at.block + at.within) }
{
    if blocks[at.block].len() == 1 {
        let _ = blocks.pop();
        return;
    }
    blocks[at.block].remove(at.within);
}

/// Takes the number at a place of the whole list out.
pub fn take_out(blocks: &mut Vec<Block>, place: usize)
    requires within { place < length (concat blocks.old.items) }
    requires tiered { IsTiered blocks.old.items }
    requires begun { IsBegun blocks.old.items }
    ensures { IsTaken blocks.old.items blocks.new.items place }
{
    let at = place_in(blocks, place);
    if at.block + 1 == blocks.len() {
        remove_last(blocks, at);
        return;
    }
    remove_in(blocks, at);
    drop_empty(blocks);
}

/// A block whose last number is at least so great, and behind one whose last is less: by halves.
pub fn block_from(blocks: &Vec<Block>, number: u32) -> usize
    requires tiered { IsTiered blocks.now.items }
    requires begun { IsBegun blocks.now.items }
    ensures within { result ≤ length blocks.now.items }
    ensures less { (i : ℕ) → suc i ≡ result
        → slice_index (block_at blocks.now.items i) (length (block_at blocks.now.items i) - 1) < number }
    ensures reached { result < length blocks.now.items
        → number ≤ slice_index (block_at blocks.now.items result) (length (block_at blocks.now.items result) - 1) }
{
    let mut from = 0;
    let mut end = blocks.len();
    while from < end {
        let middle = from + (end - from) / 2;
        let block = &blocks[middle];
        if block.at(block.len() - 1) < number {
            from = middle + 1;
        } else {
            end = middle;
        }
    }
    from
}
