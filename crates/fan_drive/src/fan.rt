// The fan's drive: made, and what it does as a drive.
ghost use Rattle.std.specs.Prelude.{◌≡◌};
ghost use Rattle.fan_drive.specs.Fan.{fan_meaning, fan_made, step_cell, fan_ticked, fan_reset, is_backwards, fault_under, aim};
ghost use Rattle.drive.specs.Command.{command_of};
ghost use Rattle.drive.specs.Fault.{fault_number};

use crate::state::FanDrive;
use drive::{Cell, Change, ChangeError, Command, Drive, Fault, Key, Link, Speed, Width};

// The fault of a fan that is to turn backwards.
const BACKWARDS: Fault = Fault { number: 1 };

// The key of the cell that holds the step.
const STEP: Key = Key {
    group: 1,
    number: 1,
};

// The cell that holds the step.
fn step_cell(value: i32) -> Cell
    ensures { result ≡ step_cell value }
{
    Cell {
        key: STEP,
        width: Width::Word,
        low: 1,
        high: 20000,
        value,
        writable: true,
        only_while_off: true,
    }
}

// Whether the command would turn the fan backwards.
fn is_backwards(command: Command) -> bool
    ensures { result ≡ is_backwards (command_of command) }
{
    command.target().value() < 0
}

// The fault after a tick under this command.
fn fault_under(command: Command, fault: Option<Fault>) -> Option<Fault>
    ensures { fault_number result ≡ fault_under (command_of command) (fault_number fault) }
{
    if is_backwards(command) {
        Some(BACKWARDS)
    } else {
        fault
    }
}

// Where the speed goes: to the command's target, in a fault to 0.
fn aim(command: Command, fault: Option<Fault>) -> Speed
    ensures { result.value ≡ aim (command_of command) (fault_number fault) }
{
    match fault {
        None => command.target(),
        Some(_) => Speed::ZERO,
    }
}

impl FanDrive {
    // Off and at standstill, with step 100.
    pub fn new() -> FanDrive
        ensures { fan_meaning result ≡ fan_made }
    {
        FanDrive {
            step: 100,
            command: Command::Off,
            speed: Speed::ZERO,
            fault: None,
        }
    }
}

impl Drive for FanDrive {
    ghost meaning = { fan_meaning };

    ghost ticks = { λ before after. fan_meaning after ≡ fan_ticked before.step (fan_meaning before) };

    ghost resets = { λ before after. fan_meaning after ≡ fan_reset (fan_meaning before) };

    fn cell(&self, key: Key) -> Option<Cell> {
        if key == STEP {
            Some(step_cell(i32::from(self.step)))
        } else {
            None
        }
    }

    fn change(&mut self, change: Change) -> Result<(), ChangeError> {
        let cell = (*self).cell(change.key).ok_or(ChangeError::NoCell)?;
        cell.check_change(self.command, change.width, change.value)?;
        // as: the cell's limits fit, so try_from would add an Err that cannot occur
        self.step = change.value as u16;
        Ok(())
    }

    fn set_command(&mut self, command: Command) {
        self.command = command;
    }

    fn tick(&mut self) {
        self.fault = fault_under(self.command, self.fault);
        let aim = aim(self.command, self.fault);
        self.speed = self.speed.toward(aim, self.step);
    }

    fn reset(&mut self) {
        if !is_backwards(self.command) {
            self.fault = None;
        }
    }

    fn command(&self) -> Command {
        self.command
    }

    fn speed(&self) -> Speed {
        self.speed
    }

    fn fault(&self) -> Option<Fault> {
        self.fault
    }

    fn link(&self) -> Link {
        Link::Good
    }
}
