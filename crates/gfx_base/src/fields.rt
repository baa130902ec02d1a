ghost use Rattle.std.specs.Prelude.{◌≡◌, ◌+◌, ◌≤◌, length, IfSome};
ghost use Rattle.std.specs.Int.{w16, w32, w64};
ghost use Rattle.gfx_base.specs.Field.{field};

/// The little-endian number of two bytes at this place; None exactly where the bytes end before it does.
#[tactic(auto, unfolding(crate::specs::Field::field))]
pub fn field_u16(bytes: &[u8], at: usize) -> Option<u16>
    ensures value { result ≡ field w16 bytes.now at }
    ensures within { IfSome result (λ _. at + 2 ≤ length bytes.now) }
{
    if bytes.len() < 2 || at > bytes.len() - 2 {
        return None;
    }
    let number = &bytes[at..at + 2];
    Some(u16::from_le_bytes([number[0], number[1]]))
}

/// The little-endian number of four bytes at this place; None exactly where the bytes end before it does.
#[tactic(auto, unfolding(crate::specs::Field::field))]
pub fn field_u32(bytes: &[u8], at: usize) -> Option<u32>
    ensures value { result ≡ field w32 bytes.now at }
    ensures within { IfSome result (λ _. at + 4 ≤ length bytes.now) }
{
    if bytes.len() < 4 || at > bytes.len() - 4 {
        return None;
    }
    let number = &bytes[at..at + 4];
    Some(u32::from_le_bytes([number[0], number[1], number[2], number[3]]))
}

/// The little-endian number of eight bytes at this place; None exactly where the bytes end before it does.
#[tactic(auto, unfolding(crate::specs::Field::field))]
pub fn field_u64(bytes: &[u8], at: usize) -> Option<u64>
    ensures value { result ≡ field w64 bytes.now at }
    ensures within { IfSome result (λ _. at + 8 ≤ length bytes.now) }
{
    if bytes.len() < 8 || at > bytes.len() - 8 {
        return None;
    }
    let number = &bytes[at..at + 8];
    Some(u64::from_le_bytes([
        number[0], number[1], number[2], number[3], number[4], number[5], number[6], number[7],
    ]))
}
