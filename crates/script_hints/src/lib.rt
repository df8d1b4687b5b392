//! What could stand where a script is refused, and what the tokens around a fault say of it.
//!
//! - `hint_of` gives the sentence for a cause at a place of a script, and where its mark stands; `plain_sentence` is
//!   for a script that can't be shown.
//! - `script_of` is for scripts that are scripts: where their definitions begin, and what fields their messages have.
//!
//! The text is gone over anew for each question, token by token, and few tokens are kept. So what a refused script
//! takes here does not grow with it.
//!
//! Nothing is claimed of the sentences. They are tested, and so are the spots behind them.
#![tactic(auto)]

mod around;
mod bodies;
mod cause;
mod heads;
mod hint;
mod messages;
mod quotes;
mod sights;
mod spot;
mod tokens;
mod wanted;

pub use cause::plain_sentence;
pub use hint::{Hint, hint_of};
pub use tokens::{Script, script_of};
