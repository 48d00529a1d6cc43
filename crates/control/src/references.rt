// The reference that the drive runs at.
ghost use Rattle.std.specs.Prelude.{◌≡◌};
ghost use Rattle.drive.specs.Command.{command_of};
ghost use Rattle.control.specs.Reference.{next_reference};

use crate::control_word::ControlWord;
use crate::flags::Flags;
use drive::{Command, Speed};

// The reference after a taken word and the scaled speed beside it, while this command is in force; without a word it is kept.
pub fn reference(taken: Option<ControlWord>, scaled: Speed, in_force: Command) -> Speed
    ensures { result.value ≡ next_reference taken scaled.value (command_of in_force) }
{
    let former = in_force.target();
    match taken {
        None => former,
        Some(word) if !word.has(ControlWord::ENABLE_RAMP) => Speed::ZERO,
        Some(word) if !word.has(ControlWord::ENABLE_SETPOINT) => Speed::ZERO,
        Some(word) if !word.has(ControlWord::UNFREEZE_RAMP) => former,
        Some(_) => scaled,
    }
}
