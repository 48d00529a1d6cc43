// The fan's drive: a ramp, and a trip when it is to turn backwards.
use crate::asked::change;
use drive::{ChangeError, Command, Drive, Fault, Speed, Width};
use fan_drive::FanDrive;

#[test]
fn ramps_by_its_cell(rt: HostRuntime) {
    let mut fan = FanDrive::new();
    fan.set_command(Command::Run(Speed::held(250)));
    fan.tick();
    assert_eq!(rt; fan.speed().value(), 100);
    assert_eq!(rt;
        fan.change(change(1, 1, Width::Word, 40)),
        Err(ChangeError::OnlyWhileOff)
    );
    fan.set_command(Command::Off);
    assert_eq!(rt; fan.change(change(1, 1, Width::Word, 40)), Ok(()));
    assert_eq!(rt;
        fan.change(change(1, 1, Width::Word, 0)),
        Err(ChangeError::OutsideLimits)
    );
    fan.tick();
    assert_eq!(rt; fan.speed().value(), 60);
}

#[test]
fn trips_backwards(rt: HostRuntime) {
    let mut fan = FanDrive::new();
    fan.set_command(Command::Run(Speed::held(-1)));
    fan.tick();
    assert_eq!(rt; fan.fault().map(u16::from), Some(1));
    assert_eq!(rt; fan.speed().value(), 0);
    fan.reset();
    assert_eq!(rt;
        fan.fault(),
        Fault::new(1),
        "while still commanded backwards"
    );
    fan.set_command(Command::Off);
    fan.reset();
    assert_eq!(rt; fan.fault(), None);
}
