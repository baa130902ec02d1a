//! The names that paints call pictures by.

ghost use Rattle.std.specs.Prelude.{◌≡◌, ◌<◌, ◌++◌, [], ◌∷◌, false, length, OnOk};
ghost use Rattle.gfx_script.specs.declared.TheConstants.{MOST_PICTURES};
ghost use Rattle.gfx_script_text.specs.Pictures.{is_named, number_of};

use gfx_base::NoMemory;
use gfx_script::MOST_PICTURES;
use indexmap::IndexSet;
use std::alloc::Global;
use std::marker::Model;

/// Names of pictures in the order of the script. Contracts see them as a list.
#[derive(Drop)]
pub struct Names<'a> {
    names: IndexSet<&'a str>,
}

impl<'a> Model for Names<'a> {
    ghost use Rattle.std.specs.Prelude.{◌≤◌, ℕ, List, map, length};
    ghost use Rattle.gfx_script.specs.declared.TheConstants.{MOST_PICTURES};

    ghost Value = { List (List ℕ) };

    ghost view = { λ s. map (λ k. k.now) s.names.keys };

    ghost invariant = { λ s. length s.names.keys ≤ MOST_PICTURES };
}

impl<'a> Names<'a> {
    /// No names. It takes no memory.
    pub fn new(alloc: Global) -> Names<'a>
        ensures { result ≡ [] }
    {
        Names {
            names: IndexSet::new(alloc),
        }
    }

    /// Whether this is one of the names.
    pub fn contains(&self, name: &str) -> bool
        ensures { result ≡ is_named self.now name.now }
    {
        self.names.contains(name)
    }

    /// The place of a name, counted from 0, or how many names there are where it is none of them.
    pub fn number_of(&self, name: &str) -> u32
        ensures { result ≡ number_of self.now name.now }
    {
        match self.names.get_index_of(name) {
            Some(at) => at as u32,
            None => self.names.len() as u32,
        }
    }

    /// One more name, which is none of them.
    pub fn add(&mut self, name: &'a str) -> Result<(), NoMemory>
        requires fresh { is_named self.old name.now ≡ false }
        requires few { length self.old < MOST_PICTURES }
        ensures { OnOk result (self.new ≡ self.old ++ name.now ∷ []) }
    {
        self.names.insert(name)?;
        Ok(())
    }
}
