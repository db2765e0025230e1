//! The words of the command line.
ghost use Rattle.std.specs.Prelude.{◌≡◌, [], ◌∷◌, ◌++◌, OnOk, OnErr};

use nas_base::Memory;
use std::alloc::Global;
use std::marker::Model;

/// Words, without the program's own name.
#[derive(Drop)]
pub struct Words {
    pub items: Vec<String>,
}

impl Model for Words {
    ghost use Rattle.std.specs.Prelude.{List, ℕ, map, string_bytes};

    ghost Value = { List (List ℕ) };

    ghost view = { λ w. map string_bytes w.items.items };
}

impl Words {
    /// No word.
    pub fn new(alloc: Global) -> Words
        ensures { result ≡ [] }
    {
        Words {
            items: Vec::new(alloc),
        }
    }

    /// One more word at the end.
    pub fn push(&mut self, alloc: Global, word: &str) -> Result<(), Memory>
        ensures ok { OnOk result (self.new ≡ self.old ++ word.now ∷ []) }
        ensures err { OnErr result (self.new ≡ self.old) }
    {
        let Ok(word) = String::from_str(alloc, word) else {
            return Err(Memory);
        };
        match self.items.push(word) {
            Ok(()) => Ok(()),
            Err(_) => Err(Memory),
        }
    }
}
