ghost use Rattle.std.specs.Prelude.{pos, ◌≡◌, ◌≢◌, MatchBool};
ghost use Rattle.gfx_dwt.specs.Noughts.{AllAre, BlankBlocks, SomeIsNot};

/// How many numbers are looked at together.
const BLOCK: usize = 64;

#[inline]
fn is_same(value: i16, other: i16) -> bool
    ensures { MatchBool result (value ≡ other) (value ≢ other) }
{
    value == other
}

/// Whether all numbers of a block are this one.
// No early return: so it is done on many numbers at a time.
#[inline]
fn are_same(block: &[i16], one: i16) -> bool
    ensures { MatchBool result (AllAre one block.now) (SomeIsNot one block.now) }
{
    let mut same = true;
    for place in 0..block.len() {
        same &= is_same(block[place], one);
    }
    same
}

/// How many numbers at the front of a plane are nought, in whole blocks; it is all where the plane is nought.
pub fn noughts_before(plane: &[i16; 4096]) -> usize
    ensures { BlankBlocks plane.now result }
{
    for block in 0..64 {
        let start = BLOCK * block;
        if !are_same(&plane[start..start + BLOCK], 0) {
            return start;
        }
    }
    4096
}

/// Whether all numbers of a slice are this one; it stops at the first block that has another.
pub fn all_are(values: &[i16], one: i16) -> bool
    ensures { MatchBool result (AllAre one values.now) (SomeIsNot one values.now) }
{
    let blocks = values.len() / BLOCK;
    for block in 0..blocks {
        let start = BLOCK * block;
        if !are_same(&values[start..start + BLOCK], one) {
            return false;
        }
    }
    are_same(&values[BLOCK * blocks..], one)
}
