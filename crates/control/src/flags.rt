// Words of named bits.
ghost use Rattle.std.specs.Prelude.{◌≡◌, ℕ};
ghost use Rattle.control.specs.Flags.{is_set};

// A word of named bits: a control word or a status word. Two words, and no dependency for them.
// A mask is a u16, as masks are joined by |, which a type of its own would have to be given.
pub trait Flags: Copy {
    // The word as a number.
    ghost bits: { Self → ℕ };

    // All of its bits.
    fn bits(self) -> u16
        ensures { result ≡ bits self };

    // Whether the bit of this mask is set.
    final fn has(self, mask: u16) -> bool
        ensures { result ≡ is_set mask (bits self) }
    {
        self.bits() & mask != 0
    }
}
