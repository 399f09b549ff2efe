// A text that contracts see as the list of its bytes.

ghost use Rattle.std.specs.Prelude.{◌≡◌, IfOk, string_bytes};

use crate::memory::NoMemory;
use std::alloc::Global;
use std::marker::Model;

/// A name.
#[derive(Debug, Drop)]
pub struct Name {
    text: String,
}

impl Model for Name {
    ghost use Rattle.std.specs.Prelude.{List, ℕ, string_bytes};

    ghost Value = { List ℕ };

    ghost view = { λ n. string_bytes n.text };
}

impl Name {
    /// The name with this text.
    pub fn from_string(text: String) -> Name
        ensures { result ≡ string_bytes text }
    {
        Name { text }
    }

    /// Its text.
    pub fn as_str(&self) -> &str
        ensures { result.now ≡ self.now }
    {
        self.text.as_str()
    }

    /// A name that is equal to this one.
    pub fn copy(&self, alloc: Global) -> Result<Name, NoMemory>
        ensures { IfOk result (λ n. n ≡ self.now) }
    {
        Ok(Name {
            text: String::from_str(alloc, self.text.as_str())?,
        })
    }
}
