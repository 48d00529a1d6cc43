// What a drive is commanded to do.
ghost use Rattle.std.specs.Prelude.{◌≡◌, Some};
ghost use Rattle.std.specs.Fmt.{styled_text};
ghost use Rattle.drive.specs.Command.{command_of, is_off, target, command_text};

use crate::speed::Speed;
use std::fmt;

// An enum cannot have a Model, so clauses read a command by command_of.
#[derive(Clone, Copy, Debug, PartialEq, Eq)]
pub enum Command {
    // meant for no torque: a turning drive coasts
    Off,
    // run at this reference
    Run(Speed),
    // meant for braking along the ramp
    RampStop,
    // meant for braking as fast as the drive can
    QuickStop,
}

impl Command {
    pub fn is_off(self) -> bool
        ensures { result ≡ is_off (command_of self) }
    {
        self == Command::Off
    }

    // The speed that the command asks for: the reference under run, else 0.
    pub fn target(self) -> Speed
        ensures { result.value ≡ target (command_of self) }
    {
        match self {
            Command::Run(reference) => reference,
            _ => Speed::ZERO,
        }
    }
}

// Without its reference.
impl fmt::Display for Command {
    ghost output = { λ command. Some (command_text (command_of command)) };

    ghost styled_output = { λ command style. Some (styled_text style (command_text (command_of command))) };

    fn fmt<W: fmt::Write>(&self, f: &mut fmt::Formatter<W>) -> fmt::Result {
        f.pad(match self {
            Self::Off => "off",
            Self::Run(_) => "run",
            Self::RampStop => "ramp stop",
            Self::QuickStop => "quick stop",
        })
    }
}
