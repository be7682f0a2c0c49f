//! How steps are made, from the front.
ghost use Rattle.std.specs.Prelude.{◌≡◌, ◌+◌, ◌^◌, ◌<◌, ◌≤◌, length, OnOk};
ghost use Rattle.image_update.specs.Pairs.{Grows, HasRoom, after, built_in};
ghost use Rattle.image_update.specs.Pairs.{keeping, nothing_built, replacing};

use crate::steps::Step;
use std::alloc::{AllocError, Global};

/// Steps that are being made.
#[derive(Drop)]
pub(crate) struct Builder {
    pub(crate) done: Vec<Step>,
    pub(crate) last: Step,
    /// All bytes that the steps put.
    pub(crate) put: Vec<u8>,
}

impl Builder {
    pub(crate) fn new(alloc: Global) -> Builder
        ensures { built_in result ≡ nothing_built }
    {
        Builder {
            done: Vec::new(alloc),
            last: Step {
                keep: 0,
                skip: 0,
                put: 0,
            },
            put: Vec::new(alloc),
        }
    }

    // Keeps bytes.
    fn keep(&mut self, count: usize) -> Result<(), AllocError>
        requires { self.old.last.keep + count < 2 ^ 64 }
        ensures { OnOk result (built_in self.new ≡ keeping count (built_in self.old)) }
    {
        if count == 0 {
            return Ok(());
        }
        if self.last.skip == 0 && self.last.put == 0 {
            self.last.keep += count as u64;
            return Ok(());
        }
        self.done.push(self.last)?;
        self.last = Step {
            keep: count as u64,
            skip: 0,
            put: 0,
        };
        Ok(())
    }

    // Puts bytes in the place of others.
    fn replace(&mut self, old: &[u8], new: &[u8]) -> Result<(), AllocError>
        requires old { self.old.last.skip + length old.now < 2 ^ 64 }
        requires new { self.old.last.put + length new.now < 2 ^ 64 }
        ensures { OnOk result
            (built_in self.new ≡ replacing old.now new.now (built_in self.old)) }
    {
        self.put.extend_from_slice(new)?;
        self.last.skip += old.len() as u64;
        self.last.put += new.len() as u64;
        Ok(())
    }

    /// Goes over two parts that face each other: keeps them where they are equal, and puts the new
    /// one in the place of the old one else.
    pub(crate) fn pair(&mut self, old: &[u8], new: &[u8]) -> Result<(), AllocError>
        requires { HasRoom (built_in self.old) (length old.now) (length new.now) }
        ensures pair { OnOk result (built_in self.new
            ≡ after (record { old = old.now; new = new.now }) (built_in self.old)) }
        ensures grows { OnOk result
            (Grows (built_in self.old) (built_in self.new) (length old.now) (length new.now)) }
    {
        if old == new {
            self.keep(old.len())
        } else {
            self.replace(old, new)
        }
    }
}
