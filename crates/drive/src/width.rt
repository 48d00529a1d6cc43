// How wide a cell's value is.
ghost use Rattle.std.specs.Prelude.{◌≡◌};
ghost use Rattle.drive.specs.Width.{width_bits, fits};

// Values are signed, in two's complement.
#[derive(Clone, Copy, Debug, PartialEq, Eq)]
pub enum Width {
    Word = 16,
    Double = 32,
}

impl Width {
    // How many bits a value has; a method, as u8::from would not say that it is bits.
    pub fn bits(self) -> u8
        ensures { result ≡ width_bits self }
    {
        self as u8
    }

    // Whether a value fits the width.
    pub(crate) fn fits(self, value: i32) -> bool
        ensures { result ≡ fits self value }
    {
        match self {
            Width::Word => i16::try_from(value).is_ok(),
            Width::Double => true,
        }
    }
}
