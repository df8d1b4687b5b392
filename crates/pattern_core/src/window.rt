//! Which arrivals a definition sees.
ghost use Rattle.std.specs.Prelude.{◌≡◌, ◌-◌, ◌^◌, ◌<◌};
ghost use Rattle.pattern_core.specs.Window.{oldest_seen};

use crate::definition::Definition;

/// The number of the oldest arrival that the definition sees where `recorded` messages are recorded:
/// `recorded - n + 1` where its window n is at most `recorded`, and 1 otherwise.
pub fn oldest_seen(definition: &Definition, recorded: u32) -> u32
    requires few { recorded < 2 ^ 32 - 1 }
    ensures { result ≡ oldest_seen definition.now.window recorded }
{
    match definition.window {
        Some(window) => recorded.saturating_sub(window) + 1,
        None => 1,
    }
}
