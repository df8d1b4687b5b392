//! A name of a script, in little room.
ghost use Rattle.std.specs.Prelude.{◌≡◌, IfOk, true};
ghost use Rattle.join_base.specs.Text.{is_name};

use join_base::{Name, NoMemory, Text};
use std::alloc::Global;
use std::marker::Model;

/// A name as a script's tokens and tree hold it. It takes 16 bytes, and a block where it has more than 14.
#[derive(Drop)]
pub struct ScriptName {
    text: Text,
}

impl Model for ScriptName {
    ghost use Rattle.std.specs.Prelude.{◌≡◌, ℕ, List, true};
    ghost use Rattle.join_base.specs.Text.{is_name};

    ghost Value = { List ℕ };

    ghost view = { λ a. a.text };

    ghost invariant = { λ a. is_name a.text ≡ true };
}

impl ScriptName {
    #[tactic(auto, using(crate::proofs::NameLemmas::name_is_text))]
    pub fn from_bytes(alloc: Global, bytes: &[u8]) -> Result<ScriptName, NoMemory>
        requires is_name { is_name bytes.now ≡ true }
        ensures same { IfOk result (λ n. n ≡ bytes.now) }
    {
        let text = Text::from_text(alloc, bytes)?;
        Ok(ScriptName { text })
    }

    pub fn bytes(&self) -> &[u8]
        ensures same { result.now ≡ self.now }
        ensures is_name { is_name self.now ≡ true }
    {
        self.text.bytes()
    }

    pub fn copy(&self, alloc: Global) -> Result<ScriptName, NoMemory>
        ensures equal { IfOk result (λ n. n ≡ self.now) }
        ensures is_name { is_name self.now ≡ true }
    {
        let text = self.text.copy(alloc)?;
        Ok(ScriptName { text })
    }

    /// The same name, as plans hold it.
    pub fn to_name(&self, alloc: Global) -> Result<Name, NoMemory>
        ensures equal { IfOk result (λ n. n ≡ self.now) }
        ensures is_name { is_name self.now ≡ true }
    {
        Name::from_bytes(alloc, self.text.bytes())
    }
}

const _: () = prove!(size_of::<ScriptName>() == 16);
