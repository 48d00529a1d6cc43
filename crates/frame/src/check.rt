// The check byte of a telegram, FCS.
ghost use Rattle.std.specs.Prelude.{◌≡◌};
ghost use Rattle.frame.specs.Check.{check_byte};

// The sum of the bytes modulo 256, in one pass.
pub(crate) fn check_byte(bytes: &[u8]) -> u8
    ensures { result ≡ check_byte bytes.now }
{
    bytes.iter().fold(0u8, |sum, b| sum.wrapping_add(*b))
}
