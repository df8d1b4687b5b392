//! What threads are given, and what comes back.

use actor_pool::{Helper, Poster};
use feed_store::Feed;

/// What the thread of a feed is given.
#[derive(Drop)]
pub(crate) struct FeedPart<B> {
    pub(crate) poster: Poster,
    pub(crate) helper: Helper,
    pub(crate) posts: Feed,
    pub(crate) beside: B,
}

/// What the thread of a worker is given.
#[derive(Drop)]
pub(crate) struct WorkPart<S, B> {
    pub(crate) helper: Helper,
    pub(crate) source: S,
    pub(crate) beside: B,
}

/// A helper that comes back, with what stood beside it.
#[derive(Drop)]
pub(crate) struct HelperBack<B> {
    pub(crate) helper: Helper,
    pub(crate) beside: B,
}

/// What comes back once all threads have ended: the posters of the feeds, in order, and all helpers.
#[derive(Drop)]
pub(crate) struct Returned<B> {
    pub(crate) posters: Vec<Poster>,
    pub(crate) helpers: Vec<HelperBack<B>>,
}
