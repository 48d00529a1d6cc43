// Time passing for any drive.
ghost use Rattle.drive.specs.Laws.{Steps, HoweverManyTicks};

use crate::drive::Drive;

// Ticks the drive so many times.
pub fn tick_times<D: Drive>(drive: &mut D, times: u32)
    ensures exact { Steps D.Drive.ticks times drive.old drive.new }
    ensures keeps { HoweverManyTicks (D.Drive.meaning drive.old) (D.Drive.meaning drive.new) }
{
    for _done in 0..times {
        drive.tick();
    }
}
