// Speeds and references: whole numbers within full speed, both ways.
ghost use Rattle.std.specs.Prelude.{◌≡◌, ◌≤ℤ◌};
ghost use Rattle.drive.specs.Speed.{full, full_back, held, toward, InSpan};

#[derive(Clone, Copy, Debug, PartialEq, Eq)]
pub struct Speed {
    value: i32,
    ghost low: { full_back ≤ℤ value },
    ghost high: { value ≤ℤ full },
}

impl Speed {
    // Full speed.
    pub const FULL: i32 = 20000;

    // Standstill.
    pub const ZERO: Speed = Speed { value: 0 };

    // The speed with this value, held within full speed.
    pub fn held(value: i32) -> Speed
        ensures { result.value ≡ held value }
    {
        let value = value.clamp(-Speed::FULL, Speed::FULL);
        Speed { value }
    }

    // A method: i32::from(speed) would say no more, and a speed is asked for its value everywhere.
    pub fn value(self) -> i32
        ensures { result ≡ self.value }
    {
        self.value
    }

    // One step towards the target, never past it: so it stays between the two.
    pub fn toward(self, target: Speed, step: u16) -> Speed
        ensures value { result.value ≡ toward self.value target.value step }
        ensures between { InSpan self.value target.value result.value }
    {
        let step = i32::from(step);
        let up = self.value + step;
        if up < target.value {
            return Speed { value: up };
        }
        let down = self.value - step;
        if target.value < down {
            return Speed { value: down };
        }
        target
    }
}
