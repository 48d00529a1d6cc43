// Speeds as words of the process data, and back: the one place that knows the scale.
ghost use Rattle.std.specs.Prelude.{◌≡◌};
ghost use Rattle.control.specs.Scale.{scaled_speed, shown_speed, ScalesToSpeed, ScalesToWord};

use drive::Speed;

// Full speed is 20000, and 16384 as a word: their ratio in lowest terms.
const SPEED_PARTS: i32 = 625;

const WORD_PARTS: i32 = 512;

// The speed that a word asks for, cut towards 0 and held within full speed.
pub fn scaled_speed(word: i16) -> Speed
    ensures value { result.value ≡ scaled_speed word }
    ensures scales { ScalesToSpeed }
{
    Speed::held(i32::from(word) * SPEED_PARTS / WORD_PARTS)
}

// The word that shows a speed, cut towards 0.
pub fn shown_speed(speed: Speed) -> i16
    ensures value { result ≡ shown_speed speed.value }
    ensures scales { ScalesToWord }
{
    // as: what full speed shows fits, so try_from would add an Err that cannot occur
    (speed.value() * WORD_PARTS / SPEED_PARTS) as i16
}
