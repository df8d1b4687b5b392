use building_load::{load_feed, load_feeds, load_plan};
use feed_store::{packed_all, unpacked_all};
use join_base::{Message, NoMemory, Posts, ValueRef};
use std::alloc::Global;
use std::test::Fail;

// Whether the message has these integers, and no other fields.
fn has_ints(message: &Message, wanted: &[i64]) -> bool {
    if message.fields.len() != wanted.len() {
        return false;
    }
    for place in 0..wanted.len() {
        match message.fields.get(place) {
            Some(ValueRef::Int(n)) if n == wanted[place] => {}
            _ => return false,
        }
    }
    true
}

// Whether the post at a place is for actor 1, and has this kind and these integers.
fn is_post(posts: &Posts, place: usize, kind: u32, ints: &[i64]) -> bool {
    match posts.as_slice().get(place) {
        Some((actor, message)) => *actor == 1 && message.kind == kind && has_ints(message, ints),
        None => false,
    }
}

// Whether the posts are those of hall 1: a group has a motion, a light and a contact.
fn are_groups(posts: &Posts) -> bool {
    is_post(posts, 0, 0, &[0, 0])
        && is_post(posts, 1, 1, &[0, 0, 10])
        && is_post(posts, 2, 2, &[0, 20])
        && is_post(posts, 3, 0, &[1, 30])
        && is_post(posts, 4, 1, &[1, 10, 40])
        && is_post(posts, 22, 1, &[0, 70, 220])
        && is_post(posts, 25, 1, &[1, 0, 250])
}

fn has_groups_of_three(alloc: Global) -> Result<bool, NoMemory> {
    let feed = load_feed(alloc, 26, 2)?;
    let posts = feed.unpacked(alloc)?;
    Ok(are_groups(&posts))
}

fn has_five_actors(alloc: Global) -> Result<bool, NoMemory> {
    let plan = load_plan(alloc)?;
    Ok(plan.actors.len() == 5)
}

fn has_four_feeds(alloc: Global) -> Result<bool, NoMemory> {
    let feeds = load_feeds(alloc, 20_000)?;
    Ok(feeds.len() == 4)
}

// Whether the lists of posts of four feeds are packed into four feeds again.
fn are_packed_again(alloc: Global) -> Result<bool, NoMemory> {
    let feeds = load_feeds(alloc, 252)?;
    let lists = unpacked_all(alloc, &feeds)?;
    let again = packed_all(alloc, &lists)?;
    Ok(again.len() == 4)
}

#[test]
fn a_feed_has_groups_of_three(rt: HostRuntime) -> Result<(), Fail> {
    assert!(rt; has_groups_of_three(rt.alloc())?);
    assert!(rt; has_five_actors(rt.alloc())? && has_four_feeds(rt.alloc())?);
    Ok(())
}

#[test]
fn feeds_are_unpacked_and_packed_where_memory_is_ample(rt: HostRuntime) -> Result<(), Fail> {
    assert!(rt; are_packed_again(rt.alloc())?);
    Ok(())
}
