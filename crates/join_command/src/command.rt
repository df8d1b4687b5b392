//! The commands and the options that the program takes.
ghost use Rattle.std.specs.Prelude.{◌≡◌, IfOk, IfSome};
ghost use Rattle.std.specs.Option.{option_map};
ghost use Rattle.command_words.specs.Ranges.{IsInRange};
ghost use Rattle.command_words.specs.Views.{command_in};
ghost use Rattle.join_command.specs.Command.{command_of};

use command_words::{Request, Setting, Verb};
use join_base::{NoMemory, WordList};
use std::alloc::Global;

/// The command that the words are, or none.
pub fn command_of<'a>(alloc: Global, words: &'a WordList) -> Result<Option<Request<'a>>, NoMemory>
    ensures command { IfOk result (λ request. option_map command_in request ≡ command_of words.now) }
    ensures in_range { IfOk result (λ request. IfSome request (λ r. IsInRange (command_in r))) }
{
    let verbs = [
        Verb::Run,
        Verb::Check,
        Verb::Replay,
        Verb::Lint,
        Verb::Ask,
        Verb::Watch,
        Verb::Load,
    ];
    let settings = [
        Setting::Workers,
        Setting::Ring,
        Setting::Arrivals,
        Setting::Partials,
        Setting::Monitors,
        Setting::Pool,
    ];
    command_words::command_of(alloc, &verbs, &settings, words)
}
