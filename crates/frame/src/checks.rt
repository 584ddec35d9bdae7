//! The check of a frame.

ghost use Rattle.std.specs.Prelude.{◌≡◌};
ghost use Rattle.frame.specs.Check.{check_of};

/// The exclusive or of all bytes: 0 over a sound frame from its start byte to its check byte. A loop and not `fold`: it reads
/// as the protocol tells how a check is made.
pub fn check(bytes: &[u8]) -> u8
    ensures { result ≡ check_of bytes.now }
{
    let mut check = 0;
    for byte in bytes {
        check ^= *byte;
    }
    check
}
