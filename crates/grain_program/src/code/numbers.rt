//! Numbers in bytes, the lowest byte first.

ghost use Rattle.std.specs.Prelude.{◌≡◌, ◌≤◌, length, Some};
ghost use Rattle.grain_program.specs.Fields.{one, two, four};
ghost use Rattle.grain_program.specs.Decoding.{number_at};

/// The number of the first byte.
pub(crate) fn one_there(bytes: &[u8]) -> u8
    requires { 1 ≤ length bytes.now }
    ensures { number_at one bytes.now ≡ Some result }
{
    bytes[0]
}

/// The number of the first two bytes.
pub(crate) fn two_there(bytes: &[u8]) -> u16
    requires { 2 ≤ length bytes.now }
    ensures { number_at two bytes.now ≡ Some result }
{
    let (pairs, _) = bytes.as_chunks::<2>();
    u16::from_le_bytes(pairs[0])
}

/// The number of the first four bytes.
pub(crate) fn four_there(bytes: &[u8]) -> u32
    requires { 4 ≤ length bytes.now }
    ensures { number_at four bytes.now ≡ Some result }
{
    u32::from_le_bytes([bytes[0], bytes[1], bytes[2], bytes[3]])
}
