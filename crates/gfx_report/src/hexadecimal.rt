//! Digests and keys as hexadecimal digits at the end of a line.
ghost use Rattle.std.specs.Prelude.{◌≡◌, ◌+◌, ◌≤◌, ◌++◌, length};
ghost use Rattle.gfx_report.specs.Audit.{key_digits};
ghost use Rattle.gfx_report.specs.Texts.{digests_text};
ghost use Rattle.hex.specs.Hex.{encode_lower};

use gfx_line::{LINE_ROOM, Line};

/// How many digits a digest has.
pub const DIGEST_DIGITS: usize = 64;

/// How many digits a key has.
pub const KEY_DIGITS: usize = 16;

/// How many bytes two digests have with their names, as `put_digests` appends them.
const TWO_DIGESTS: usize = 145;

/// Appends a digest, two lower-case hexadecimal digits a byte.
pub(crate) fn put_digest(digest: &[u8; 32], line: &mut Line)
    requires { length line.old + DIGEST_DIGITS ≤ LINE_ROOM }
    ensures bytes { line.new ≡ line.old ++ encode_lower digest.now }
    ensures len { length line.new ≡ length line.old + DIGEST_DIGITS }
{
    let mut digits = [0; DIGEST_DIGITS];
    hex::encode_to_slice(digest, &mut digits).unwrap();
    line.put(&digits);
}

/// Appends a key, in lower-case hexadecimal digits, the highest first.
pub(crate) fn put_key(key: u64, line: &mut Line)
    requires { length line.old + KEY_DIGITS ≤ LINE_ROOM }
    ensures bytes { line.new ≡ line.old ++ key_digits key }
    ensures len { length line.new ≡ length line.old + KEY_DIGITS }
{
    let mut digits = [0; KEY_DIGITS];
    hex::encode_to_slice(key.to_be_bytes(), &mut digits).unwrap();
    line.put(&digits);
}

/// Appends the digests of the client's and of the server's state, and ends the line.
pub(crate) fn put_digests(client: &[u8; 32], server: &[u8; 32], line: &mut Line)
    requires { length line.old + TWO_DIGESTS ≤ LINE_ROOM }
    ensures { line.new ≡ line.old ++ digests_text client.now server.now }
{
    line.put(b" client ");
    put_digest(client, line);
    line.put(b" server ");
    put_digest(server, line);
    line.put(b"\n");
}
