//! Bytes, read field by field from their front.

ghost use Rattle.std.specs.Prelude.{◌≡◌, ◌==◌, ℕ, ◌*◌, ◌≤◌, List, length, IfOk};
ghost use Rattle.gfx_base.specs.Outcome.{Gives, Says};
ghost use Rattle.gfx_layout.specs.declared.stop.Stop.TheVariants.{Long};
ghost use Rattle.gfx_layout.specs.Shape.{u8 as one_byte, u16 as two_bytes, u32 as four_bytes, u64 as eight_bytes, width, number_alone};
ghost use Rattle.gfx_layout.specs.Reading.{take_one, take_bytes, take_items, take_list, take_sized, parts_in, ended};

use crate::part::Part;
use crate::stop::Stop;
use gfx_base::{Cause, Items, NoMemory};
use std::alloc::Global;
use std::marker::Model;

/// Bytes that are read from their front on. Contracts see the bytes that are left.
#[derive(Debug, Drop)]
pub struct Fields<'a> {
    rest: &'a [u8],
}

impl<'a> Model for Fields<'a> {
    ghost Value = { List ℕ };

    ghost view = { λ f. f.rest.now };
}

impl<'a> Fields<'a> {
    /// All of these bytes are still to be read.
    #[inline(always)]
    pub fn new(bytes: &'a [u8]) -> Fields<'a>
        ensures { result ≡ bytes.now }
    {
        Fields { rest: bytes }
    }

    /// The next part.
    #[inline(always)]
    #[tactic(auto, unfolding(crate::specs::Reading::take_one))]
    pub fn one<T: Part>(&mut self) -> Result<T, Stop>
        ensures { Says (λ part. (part, self.new)) result (take_one T.shape self.old) }
    {
        if self.rest.len() < T::SIZE {
            return Err(Stop::Short);
        }
        let part = T::read(self.rest);
        let (_, rest) = self.rest.split_at(T::SIZE);
        self.rest = rest;
        Ok(part)
    }

    /// The next byte.
    #[inline(always)]
    pub fn u8(&mut self) -> Result<u8, Stop>
        ensures { Says (λ n. (n, self.new)) result (take_one (number_alone one_byte) self.old) }
    {
        self.one()
    }

    /// The next number of two bytes.
    #[inline(always)]
    pub fn u16(&mut self) -> Result<u16, Stop>
        ensures { Says (λ n. (n, self.new)) result (take_one (number_alone two_bytes) self.old) }
    {
        self.one()
    }

    /// The next number of four bytes.
    #[inline(always)]
    pub fn u32(&mut self) -> Result<u32, Stop>
        ensures { Says (λ n. (n, self.new)) result (take_one (number_alone four_bytes) self.old) }
    {
        self.one()
    }

    /// The next number of eight bytes.
    #[inline(always)]
    pub fn u64(&mut self) -> Result<u64, Stop>
        ensures { Says (λ n. (n, self.new)) result (take_one (number_alone eight_bytes) self.old) }
    {
        self.one()
    }

    /// So many bytes as they are.
    #[inline(always)]
    #[tactic(auto, unfolding(crate::specs::Reading::take_bytes))]
    pub fn bytes(&mut self, count: usize) -> Result<&'a [u8], Stop>
        ensures { Says (λ some. (some.now, self.new)) result (take_bytes count self.old) }
    {
        if self.rest.len() < count {
            return Err(Stop::Short);
        }
        let (front, rest) = self.rest.split_at(count);
        self.rest = rest;
        Ok(front)
    }

    /// So many parts. It takes memory only where the bytes have them.
    #[tactic(auto, unfolding(crate::specs::Reading::take_items))]
    pub fn items<T: Part + Drop>(
        &mut self,
        alloc: Global,
        count: usize,
    ) -> Result<Items<T>, Cause<Stop>>
        ensures { Gives (λ parts. (parts, self.new)) result (take_items T.shape count self.old) }
    {
        let room = self.rest.len();
        let Some(size) = count.checked_mul(T::SIZE) else {
            return Err(Cause::Refused(Stop::Short));
        };
        if room < size {
            return Err(Cause::Refused(Stop::Short));
        }
        let parts = read_parts(alloc, self.rest, count)?;
        let (_, rest) = self.rest.split_at(size);
        self.rest = rest;
        Ok(parts)
    }

    /// Parts behind their count of two bytes.
    #[tactic(auto, unfolding(crate::specs::Reading::take_list, gfx_base::specs::Results::and_then))]
    pub fn list<T: Part + Drop>(&mut self, alloc: Global) -> Result<Items<T>, Cause<Stop>>
        ensures { Gives (λ parts. (parts, self.new)) result (take_list two_bytes T.shape self.old) }
    {
        let count = self.u16()?;
        self.items(alloc, usize::from(count))
    }

    /// Bytes behind their length of four bytes.
    #[inline(always)]
    #[tactic(auto, unfolding(crate::specs::Reading::take_sized, gfx_base::specs::Results::and_then))]
    pub fn sized(&mut self) -> Result<&'a [u8], Stop>
        ensures { Says (λ some. (some.now, self.new)) result (take_sized four_bytes self.old) }
    {
        let length = self.u32()?;
        self.bytes(length as usize)
    }

    /// Whether no bytes are left.
    #[inline(always)]
    pub fn is_empty(&self) -> bool
        ensures { result ≡ (length self.now == 0) }
    {
        self.rest.is_empty()
    }

    /// Nothing may be left.
    #[inline(always)]
    pub fn end(&self) -> Result<(), Stop>
        ensures { result ≡ ended self.now }
    {
        if self.rest.is_empty() {
            Ok(())
        } else {
            Err(Stop::Long)
        }
    }
}

/// Reads so many parts from the front of bytes that have them.
fn read_parts<T: Part + Drop>(
    alloc: Global,
    bytes: &[u8],
    count: usize,
) -> Result<Items<T>, NoMemory>
    requires { count * width T.shape ≤ length bytes.now }
    ensures { IfOk result (λ parts. parts ≡ parts_in T.shape count bytes.now) }
{
    let mut parts = Vec::with_capacity(alloc, count)?;
    let mut rest = bytes;
    'parts: for _ in 0..count {
        parts.push(T::read(rest))?;
        let (_, after) = rest.split_at(T::SIZE);
        rest = after;
    }
    Ok(Items::from_vec(parts))
}
