//! Reading a script.
ghost use Rattle.std.specs.Prelude.{◌≡◌, length, IfOk};
ghost use Rattle.std.specs.Str.{IsUtf8};
ghost use Rattle.script_tokens.specs.Tokens.{AreTokens};
ghost use Rattle.script_reader.specs.Spells.{Reads, ReadsTree, OneTree, NoBoth, OneFault, place_of, cause_of};
ghost use Rattle.script_grammar.specs.declared.fault.ScriptFault.TheVariants.{Bad};

use join_base::NoMemory;
use script_grammar::{Outline, ScriptCause, ScriptFault, Stop, outline_at};
use script_tokens::Tokens;
use std::alloc::Global;

// The fault of a text of this size that is refused from here on.
fn fault_at(tokens: &Tokens<'_>, size: usize) -> ScriptFault
    ensures { result ≡ Bad (place_of size tokens.now) (cause_of tokens.now) }
{
    match tokens.next() {
        None => ScriptFault::Bad {
            place: size as u64,
            cause: ScriptCause::BadSyntax,
        },
        Some(token) => {
            let cause = if token.kind.is_bad() {
                ScriptCause::BadToken
            } else {
                ScriptCause::BadSyntax
            };
            let place = token.place;
            ScriptFault::Bad { place, cause }
        }
    }
}

// The outline of a text with these tokens, or its fault.
fn whole_answer(
    alloc: Global,
    bytes: &[u8],
    tokens: &mut Tokens<'_>,
) -> Result<Outline, ScriptFault>
    requires text { IsUtf8 bytes.now }
    requires cut { AreTokens (length bytes.now) bytes.now tokens.old }
    ensures { Reads bytes.now result }
{
    script_grammar::filled_law();
    match outline_at(alloc, tokens) {
        Ok(outline) => Ok(outline),
        Err(Stop::NoMemory) => Err(ScriptFault::NoMemory),
        Err(Stop::Refused) => Err(fault_at(tokens, bytes.len())),
    }
}

// The outline of a text, or its fault. Each token is read where the grammar comes to it, so that a text that is refused
// early takes no memory for what stands behind.
fn read_text(alloc: Global, bytes: &[u8]) -> Result<Outline, ScriptFault>
    requires { IsUtf8 bytes.now }
    ensures { Reads bytes.now result }
{
    let mut tokens = Tokens::new(alloc, bytes)?;
    whole_answer(alloc, bytes, &mut tokens)
}

/// The messages of the tree that the bytes spell, and the names of its actors. Otherwise `NotText` behind the longest
/// UTF-8 front where they are no text, and else the first token at which no continuation is a script: `BadToken` where
/// no token begins there, and `BadSyntax` otherwise.
pub fn read_outline(alloc: Global, bytes: &[u8]) -> Result<Outline, ScriptFault>
    ensures { Reads bytes.now result }
{
    match std::str::from_utf8(bytes) {
        Ok(_) => read_text(alloc, bytes),
        Err(e) => Err(ScriptFault::Bad {
            place: e.valid_up_to() as u64,
            cause: ScriptCause::NotText,
        }),
    }
}

/// The tokens of a script, to read them once more.
pub fn tokens_of(alloc: Global, bytes: &[u8]) -> Result<Tokens<'_>, NoMemory>
    ensures { IfOk result (λ tokens. ReadsTree bytes.now tokens) }
{
    script_tokens::one_list();
    Tokens::new(alloc, bytes)
}

/// Bytes spell one tree or have one fault, and never both.
pub fn one_answer()
    ensures tree { OneTree }
    ensures both { NoBoth }
    ensures fault { OneFault }
{
    script_tokens::one_list();
    script_grammar::one_answer();
}
