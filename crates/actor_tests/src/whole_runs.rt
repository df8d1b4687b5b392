use fair_semantics::{ActorRun, Entry, Run};
use join_base::Source;
use log_posts::same_entries;

fn same_stamps(own: &[Entry], other: &[Entry]) -> bool {
    if own.len() != other.len() {
        return false;
    }
    for place in 0..own.len() {
        if own[place].stamp != other[place].stamp {
            return false;
        }
    }
    true
}

fn same_late(own: &[(Source, u64)], other: &[(Source, u64)]) -> bool {
    if own.len() != other.len() {
        return false;
    }
    for place in 0..own.len() {
        let (source, count) = own[place];
        if source != other[place].0 || count != other[place].1 {
            return false;
        }
    }
    true
}

fn same_actor(own: &ActorRun, other: &ActorRun) -> bool {
    same_entries(own.entries.as_slice(), other.entries.as_slice())
        && same_stamps(own.entries.as_slice(), other.entries.as_slice())
        && same_late(own.late.as_slice(), other.late.as_slice())
        && own.ending == other.ending
        && own.left.as_slice() == other.left.as_slice()
        && own.partials == other.partials
}

fn same_actors(own: &[ActorRun], other: &[ActorRun]) -> bool {
    if own.len() != other.len() {
        return false;
    }
    for place in 0..own.len() {
        if !same_actor(&own[place], &other[place]) {
            return false;
        }
    }
    true
}

// Whether two runs are the same in all that a log of them shows.
pub fn same_run(own: &Run, other: &Run) -> bool {
    own.version == other.version
        && own.limits == other.limits
        && own.feeds == other.feeds
        && same_actors(own.actors.as_slice(), other.actors.as_slice())
}
