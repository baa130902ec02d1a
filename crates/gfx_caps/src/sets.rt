ghost use Rattle.std.specs.Prelude.{◌≡◌, ◌++◌, ◌∷◌, ◌==◌, [], length, OnOk, OnErr};
ghost use Rattle.std.specs.List.{slice_get};
ghost use Rattle.std.specs.Option.{option_copied};

use gfx_base::{Bytes, NoMemory};
use std::alloc::Global;
use std::marker::Model;

/// What a client offers under one version ([MS-RDPEGFX] 2.2.1.6, RDPGFX_CAPSET), as it was read: the
/// versions of this profile have a word of flags as their body.
#[derive(Debug, Drop)]
pub struct CapsSet {
    pub version: u32,
    pub body: Bytes,
}

/// Capability sets, in the order of a message. Contracts see the list.
#[derive(Debug, Drop)]
pub struct CapsSets {
    sets: Vec<CapsSet>,
}

impl Model for CapsSets {
    ghost use Rattle.std.specs.Prelude.{List};
    ghost use Rattle.gfx_caps.specs.declared.sets.CapsSet.{CapsSet};

    ghost Value = { List CapsSet };

    ghost view = { λ s. s.sets.items };
}

impl CapsSets {
    /// No sets. It takes no memory.
    pub fn new(alloc: Global) -> CapsSets
        ensures { result ≡ [] }
    {
        CapsSets {
            sets: Vec::new(alloc),
        }
    }

    /// Puts a set at the end.
    pub fn push(&mut self, set: CapsSet) -> Result<(), NoMemory>
        ensures ok { OnOk result (self.new ≡ self.old ++ set ∷ []) }
        ensures err { OnErr result (self.new ≡ self.old) }
    {
        self.sets.push(set)?;
        Ok(())
    }

    pub fn len(&self) -> usize
        ensures { result ≡ length self.now }
    {
        self.sets.len()
    }

    pub fn is_empty(&self) -> bool
        ensures { result ≡ (length self.now == 0) }
    {
        self.sets.is_empty()
    }

    /// The set at a place, counted from 0, if there is one.
    pub fn get(&self, at: usize) -> Option<&CapsSet>
        ensures { option_copied result ≡ slice_get self.now at }
    {
        self.sets.get(at)
    }

    pub fn as_slice(&self) -> &[CapsSet]
        ensures { result.now ≡ self.now }
    {
        self.sets.as_slice()
    }
}
