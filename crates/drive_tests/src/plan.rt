// The bench drive and its plan.
ghost use Rattle.std.specs.Prelude.{◌≡◌};
ghost use Rattle.bench_drive.specs.Bench.{bench_meaning, bench_made, bench_ticked};
ghost use Rattle.drive.specs.Command.{command_of};
ghost use Rattle.drive.specs.Meaning.{with_command};

use crate::asked::change;
use bench_drive::{BenchDrive, PlanEntry};
use drive::{Cell, ChangeError, Command, Drive, Fault, Key, Link, Speed, Width, tick_times};
use std::process::Abort;
use std::test::Fail;

// Two ticks under a command, known exactly from the bench drive's contracts alone.
fn two_ticks(plan: [PlanEntry; 8], command: Command) -> BenchDrive
    ensures { bench_meaning result ≡ bench_ticked plan 1 (bench_ticked plan 0 (with_command bench_made (command_of command))) }
{
    let mut bench = BenchDrive::with_plan(plan);
    bench.set_command(command);
    bench.tick();
    bench.tick();
    bench
}

fn entry(tick: u16, fault: Option<Fault>, link: u8) -> PlanEntry {
    PlanEntry { tick, fault, link }
}

// A plan of these two entries.
fn planned(first: PlanEntry, second: PlanEntry) -> BenchDrive {
    let mut plan = [PlanEntry::UNUSED; 8];
    plan[2] = first;
    plan[5] = second;
    BenchDrive::with_plan(plan)
}

// One tick more, and the fault and the link then.
fn ticks_to(rt: &impl Abort, bench: &mut BenchDrive, fault: Option<Fault>, link: Link, what: &str) {
    bench.tick();
    assert_eq!(rt; bench.fault(), fault, "{what}");
    assert_eq!(rt; bench.link(), link, "{what}");
}

#[test]
fn as_made(rt: HostRuntime) {
    let bench = BenchDrive::new();
    assert_eq!(rt; bench.command(), Command::Off);
    assert_eq!(rt; bench.speed().value(), 0);
    assert_eq!(rt; bench.fault(), None);
    assert_eq!(rt; bench.link(), Link::Good);
    let cell = Cell {
        key: Key {
            group: 12,
            number: 7,
        },
        width: Width::Word,
        low: -2000,
        high: 2000,
        value: 1000,
        writable: true,
        only_while_off: true,
    };
    assert_eq!(rt; bench.cell(Key::new(12, 7)), Some(cell));
    assert_eq!(rt;
        bench.cell(Key::new(12, 1)),
        Some(Cell {
            key: Key::new(12, 1),
            only_while_off: false,
            ..cell
        })
    );
    assert_eq!(rt;
        bench.cell(Key::new(12, 8)),
        Some(Cell {
            key: Key::new(12, 8),
            writable: false,
            only_while_off: false,
            ..cell
        })
    );
    assert_eq!(rt; bench.cell(Key::new(12, 9)), None);
    assert_eq!(rt; bench.cell(Key::new(12, 0)), None);
    assert_eq!(rt; bench.cell(Key::new(11, 1)), None);
}

#[test]
fn changes(rt: HostRuntime) -> Result<(), Fail> {
    let mut bench = BenchDrive::new();
    assert_eq!(rt; bench.change(change(12, 4, Width::Word, 2000)), Ok(()));
    assert_eq!(rt;
        bench.change(change(12, 4, Width::Word, 2001)),
        Err(ChangeError::OutsideLimits)
    );
    assert_eq!(rt;
        bench.change(change(12, 8, Width::Double, 5)),
        Err(ChangeError::NotWritable)
    );
    assert_eq!(rt;
        bench.change(change(13, 4, Width::Word, 5)),
        Err(ChangeError::NoCell)
    );
    assert_eq!(rt; bench.change(change(12, 7, Width::Word, -5)), Ok(()), "off");
    bench.set_command(Command::Run(Speed::held(0)));
    assert_eq!(rt;
        bench.change(change(12, 7, Width::Word, 6)),
        Err(ChangeError::OnlyWhileOff)
    );
    let fourth = bench
        .cell(Key::new(12, 4))
        .ok_or_else(|| Fail::new("no cell 12.4"))?;
    assert_eq!(rt; fourth.value, 2000);
    let seventh = bench
        .cell(Key::new(12, 7))
        .ok_or_else(|| Fail::new("no cell 12.7"))?;
    assert_eq!(rt; seventh.value, -5);
    Ok(())
}

#[test]
fn reaches_its_target_at_once(rt: HostRuntime) {
    let mut bench = BenchDrive::new();
    bench.set_command(Command::Run(Speed::held(-20000)));
    assert_eq!(rt; bench.speed().value(), 0);
    bench.tick();
    assert_eq!(rt; bench.speed().value(), -20000);
    bench.set_command(Command::RampStop);
    bench.tick();
    assert_eq!(rt; bench.speed().value(), 0);
}

#[test]
fn two_entries_for_one_tick(rt: HostRuntime) {
    let mut bench = planned(entry(2, Fault::new(5), 1), entry(2, Fault::new(9), 2));
    ticks_to(&rt, &mut bench, None, Link::Good, "nothing yet");
    ticks_to(
        &rt,
        &mut bench,
        Fault::new(5),
        Link::LostForNow,
        "the first one counts",
    );
    ticks_to(
        &rt,
        &mut bench,
        Fault::new(5),
        Link::LostForNow,
        "and it stays",
    );
    bench.reset();
    assert_eq!(rt; bench.fault(), None, "a reset clears the fault");
    assert_eq!(rt; bench.link(), Link::LostForNow, "and nothing else");
}

#[test]
fn two_ticks_under_a_command(rt: HostRuntime) {
    let mut plan = [PlanEntry::UNUSED; 8];
    plan[0] = entry(2, Fault::new(77), 0);
    let bench = two_ticks(plan, Command::Run(Speed::held(500)));
    assert_eq!(rt; bench.speed().value(), 500);
    assert_eq!(rt; bench.fault(), Fault::new(77));
}

#[test]
fn fault_0_keeps_the_fault(rt: HostRuntime) {
    let mut bench = planned(entry(1, Fault::new(65535), 7), entry(2, None, 0));
    ticks_to(
        &rt,
        &mut bench,
        Fault::new(65535),
        Link::LostForGood,
        "link 7 means 2",
    );
    ticks_to(
        &rt,
        &mut bench,
        Fault::new(65535),
        Link::Good,
        "fault 0 changes nothing",
    );
}

#[test]
fn the_last_tick_of_a_plan(rt: HostRuntime) {
    let mut bench = planned(entry(65535, Fault::new(3), 1), entry(0, Fault::new(8), 2));
    tick_times(&mut bench, 65533);
    ticks_to(&rt, &mut bench, None, Link::Good, "tick 65534");
    ticks_to(
        &rt,
        &mut bench,
        Fault::new(3),
        Link::LostForNow,
        "tick 65535",
    );
    bench.reset();
    ticks_to(&rt, &mut bench, None, Link::LostForNow, "tick 65536");
    tick_times(&mut bench, 70000);
    ticks_to(
        &rt,
        &mut bench,
        None,
        Link::LostForNow,
        "no entry fires again",
    );
}
