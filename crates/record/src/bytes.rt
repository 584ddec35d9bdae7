//! Numbers in bytes, the most significant byte first.
ghost use Rattle.std.specs.Prelude.{◌≡◌, ◌+◌, ◌<◌, ◌≤◌, length};
ghost use Rattle.record.specs.Bytes.{bytes24, number24, number32, bit?, zeros?};

/// The low 24 bits of a number.
pub fn u24_to_be_bytes(n: u32) -> [u8; 3]
    ensures { result ≡ bytes24 n }
{
    let [_, high, middle, low] = n.to_be_bytes();
    [high, middle, low]
}

// Not one function over the number of bytes: a number of 24 bits is read as one of 32.
pub(crate) fn u24_at(bytes: &[u8], at: usize) -> u32
    requires { at + 3 ≤ length bytes.now }
    ensures { result ≡ number24 bytes.now at }
{
    u32::from_be_bytes([0, bytes[at], bytes[at + 1], bytes[at + 2]])
}

pub(crate) fn u32_at(bytes: &[u8], at: usize) -> u32
    requires { at + 4 ≤ length bytes.now }
    ensures { result ≡ number32 bytes.now at }
{
    u32::from_be_bytes([bytes[at], bytes[at + 1], bytes[at + 2], bytes[at + 3]])
}

// Whether a bit of a byte is 1; bit 0 is the least significant.
pub(crate) fn bit(byte: u8, index: u8) -> bool
    requires { index < 8 }
    ensures { result ≡ bit? byte index }
{
    (byte >> index) % 2 == 1
}

pub(crate) fn all_zero(bytes: &[u8]) -> bool
    ensures { result ≡ zeros? bytes.now }
{
    bytes.iter().all(|byte| *byte == 0)
}
