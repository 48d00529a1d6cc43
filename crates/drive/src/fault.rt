// A drive's fault, which has a number.
ghost use Rattle.std.specs.Prelude.{◌≡◌, ◌≤◌, MatchOption};

#[derive(Clone, Copy, Debug, PartialEq, Eq)]
pub struct Fault {
    pub number: u16,
    ghost low: { 1 ≤ number },
    ghost high: { number ≤ 65535 },
}

impl Fault {
    // The fault with this number; 0 stands for none.
    pub fn new(number: u16) -> Option<Fault>
        ensures { MatchOption result (number ≡ 0) (λ fault. fault.number ≡ number) }
    {
        if number == 0 {
            None
        } else {
            Some(Fault { number })
        }
    }
}

// The number under which a fault is reported.
impl From<Fault> for u16 {
    ghost from_gives = { λ fault number. number ≡ fault.number };

    fn from(fault: Fault) -> u16 {
        fault.number
    }
}
