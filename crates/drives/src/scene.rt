// A scene: steps on any drive, each printed with what the drive then shows.
use crate::row::Row;
use crate::step::{Step, take};
use drive::Drive;

// The title of a scene, and the columns' heads.
pub(crate) fn open(rt: &HostRuntime, title: &str) -> anyhow::Result<()> {
    println!(rt; "{title}")?;
    println!(rt; "tick  step                  answer     command     target   speed  fault  link")?;
    Ok(())
}

// Plays the steps, counting the ticks from 0.
pub(crate) fn play<D: Drive>(
    rt: &HostRuntime,
    drive: &mut D,
    steps: &[Step],
) -> anyhow::Result<()> {
    let mut tick = 0u32;
    for step in steps {
        if let Step::Tick = step {
            tick = tick.saturating_add(1);
        }
        let answer = match take(drive, *step) {
            Ok(()) => format!(in rt.alloc(); "done")?,
            Err(error) => format!(in rt.alloc(); "error {}", u8::from(error))?,
        };
        let done = format!(in rt.alloc(); "{step}")?;
        let row = Row {
            tick,
            step: done.as_str(),
            answer: answer.as_str(),
            command: drive.command(),
            speed: drive.speed().value(),
            fault: drive.fault(),
            link: drive.link(),
        };
        println!(rt; "{row}")?;
    }
    Ok(())
}
