//! Parts of a fixed number of bytes: numbers, and records of numbers.

ghost use Rattle.std.specs.Prelude.{◌≡◌, ℕ, ◌≤◌, ◌++◌, length, refl, OnOk, OnErr};
ghost use Rattle.gfx_layout.specs.Shape.{Shape, width, text, part_in, number_alone};
ghost use Rattle.gfx_layout.specs.Shapes.{pixel, point, rect};

use crate::putting::put_items;
use gfx_base::{Bytes, NoMemory, Pixel, Point, Rect};

/// What stands in a format as a fixed number of bytes.
pub trait Part: Copy {
    /// Its numbers, in their order.
    ghost shape: { Shape Self };

    /// How many bytes it has.
    const SIZE: usize;

    ghost SIZE: { ℕ };

    /// Reads the part at the front of bytes.
    fn read(bytes: &[u8]) -> Self
        requires { width shape ≤ length bytes.now }
        ensures { result ≡ part_in shape bytes.now };

    /// Puts its bytes at the end, all or none.
    fn put(self, out: &mut Bytes) -> Result<(), NoMemory>
        ensures ok { OnOk result (out.new ≡ out.old ++ text shape self) }
        ensures err { OnErr result (out.new ≡ out.old) };

    ghost sized: { SIZE ≡ width shape };
}

impl Part for u8 {
    ghost use Rattle.gfx_layout.specs.Shape.{u8 as size};

    ghost shape = { number_alone size };

    const SIZE: usize = 1;

    ghost SIZE = { 1 };

    ghost sized = { refl };

    #[inline(always)]
    #[tactic(auto, unfolding(crate::specs::Shape::part_in))]
    fn read(bytes: &[u8]) -> u8 {
        bytes[0]
    }

    #[inline(always)]
    #[tactic(auto, unfolding(crate::specs::Shape::text))]
    fn put(self, out: &mut Bytes) -> Result<(), NoMemory> {
        out.push(self)
    }
}

impl Part for u16 {
    ghost use Rattle.gfx_layout.specs.Shape.{u16 as size};

    ghost shape = { number_alone size };

    const SIZE: usize = 2;

    ghost SIZE = { 2 };

    ghost sized = { refl };

    #[inline(always)]
    #[tactic(auto, unfolding(crate::specs::Shape::part_in))]
    fn read(bytes: &[u8]) -> u16 {
        let number = &bytes[..2];
        u16::from_le_bytes([number[0], number[1]])
    }

    #[inline(always)]
    #[tactic(auto, unfolding(crate::specs::Shape::text))]
    fn put(self, out: &mut Bytes) -> Result<(), NoMemory> {
        out.append(&self.to_le_bytes())
    }
}

impl Part for u32 {
    ghost use Rattle.gfx_layout.specs.Shape.{u32 as size};

    ghost shape = { number_alone size };

    const SIZE: usize = 4;

    ghost SIZE = { 4 };

    ghost sized = { refl };

    #[inline(always)]
    #[tactic(auto, unfolding(crate::specs::Shape::part_in))]
    fn read(bytes: &[u8]) -> u32 {
        let number = &bytes[..4];
        u32::from_le_bytes([number[0], number[1], number[2], number[3]])
    }

    #[inline(always)]
    #[tactic(auto, unfolding(crate::specs::Shape::text))]
    fn put(self, out: &mut Bytes) -> Result<(), NoMemory> {
        out.append(&self.to_le_bytes())
    }
}

impl Part for u64 {
    ghost use Rattle.gfx_layout.specs.Shape.{u64 as size};

    ghost shape = { number_alone size };

    const SIZE: usize = 8;

    ghost SIZE = { 8 };

    ghost sized = { refl };

    #[inline(always)]
    #[tactic(auto, unfolding(crate::specs::Shape::part_in))]
    fn read(bytes: &[u8]) -> u64 {
        let number = &bytes[..8];
        u64::from_le_bytes([
            number[0], number[1], number[2], number[3], number[4], number[5], number[6], number[7],
        ])
    }

    #[inline(always)]
    #[tactic(auto, unfolding(crate::specs::Shape::text))]
    fn put(self, out: &mut Bytes) -> Result<(), NoMemory> {
        out.append(&self.to_le_bytes())
    }
}

impl Part for Pixel {
    ghost shape = { pixel };

    const SIZE: usize = 4;

    ghost SIZE = { 4 };

    ghost sized = { refl };

    #[inline(always)]
    #[tactic(auto, unfolding(crate::specs::Shape::part_in))]
    fn read(bytes: &[u8]) -> Pixel {
        Pixel {
            b: bytes[0],
            g: bytes[1],
            r: bytes[2],
            a: bytes[3],
        }
    }

    #[tactic(auto, unfolding(crate::specs::Shape::text))]
    fn put(self, out: &mut Bytes) -> Result<(), NoMemory> {
        out.append(&[self.b, self.g, self.r, self.a])
    }
}

impl Part for Point {
    ghost shape = { point };

    const SIZE: usize = 4;

    ghost SIZE = { 4 };

    ghost sized = { refl };

    #[inline(always)]
    #[tactic(auto, unfolding(crate::specs::Shape::part_in))]
    fn read(bytes: &[u8]) -> Point {
        Point {
            x: u16::read(bytes),
            y: u16::read(&bytes[2..]),
        }
    }

    #[tactic(auto, unfolding(crate::specs::Shape::text))]
    fn put(self, out: &mut Bytes) -> Result<(), NoMemory> {
        put_items(out, &[self.x, self.y])
    }
}

impl Part for Rect {
    ghost shape = { rect };

    const SIZE: usize = 8;

    ghost SIZE = { 8 };

    ghost sized = { refl };

    #[inline(always)]
    #[tactic(auto, unfolding(crate::specs::Shape::part_in))]
    fn read(bytes: &[u8]) -> Rect {
        Rect {
            left: u16::read(bytes),
            top: u16::read(&bytes[2..]),
            right: u16::read(&bytes[4..]),
            bottom: u16::read(&bytes[6..]),
        }
    }

    #[tactic(auto, unfolding(crate::specs::Shape::text))]
    fn put(self, out: &mut Bytes) -> Result<(), NoMemory> {
        put_items(out, &[self.left, self.top, self.right, self.bottom])
    }
}
