//! The tokens of a script: words, numbers, quoted texts and signs, each with its place.
//!
//! - `Tokens` reads them one after the other, and holds the next one alone. `name` is where a name stands in the text.
//! - `push_tokens` appends the tokens at the front of a text, as many as it is told, and answers with the rest.
//! - `ScriptName` is a name, as tokens and trees hold it.
//! - `one_list` says that each text has one list of tokens.
//!
//! A contract says by `AreTokens` which tokens a text has, and by `AreFront` which ones stand in front of a rest.
#![tactic(auto)]

mod cursor;
mod lexer;
mod name;
mod token;

pub use cursor::Tokens;
pub use lexer::{one_list, push_tokens};
pub use name::ScriptName;
pub use token::{Kind, Mark, Token};
