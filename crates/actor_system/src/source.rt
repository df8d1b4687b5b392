//! The sources in their order.
ghost use Rattle.std.specs.Prelude.{◌≡◌, ◌<◌, ◌+◌, ◌^◌};
ghost use Rattle.actor_system.specs.Serving.{source_at as at_place};

use join_base::Source;

/// The source at a place among all: the feeds, and then the actors.
pub fn source_at(feeds: usize, place: usize) -> Source
    requires few { place + 1 < 2 ^ 32 }
    ensures { result ≡ at_place feeds place }
{
    if place < feeds {
        Source::Feed(place as u32 + 1)
    } else {
        Source::Actor((place - feeds) as u32)
    }
}
