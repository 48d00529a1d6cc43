// Shows three makes of drive at work: starts, ramps, refused changes, trips and resets, a line for each step.
#![tactic(auto)]

mod row;
mod scene;
mod step;

use bench_drive::{BenchDrive, PlanEntry};
use drive::{Cell, Change, Command, Drive, Fault, Key, Speed, Width};
use fan_drive::FanDrive;
use scene::{open, play};
use step::Step;
use table_drive::TableDrive;

fn run(reference: i32) -> Step {
    Step::Command(Command::Run(Speed::held(reference)))
}

fn change(group: u8, number: u8, value: i32) -> Step {
    Step::Change(Change {
        key: Key::new(group, number),
        width: Width::Word,
        value,
    })
}

// A ramp by 3000 a tick, and a change that is refused while the drive runs.
fn table(rt: &HostRuntime) -> anyhow::Result<()> {
    let mut list = [Cell {
        key: Key::new(10, 1),
        width: Width::Word,
        low: 0,
        high: 500,
        value: 100,
        writable: true,
        only_while_off: true,
    }];
    {
        let mut table = TableDrive::new(&mut list, 3000);
        open(rt, "table drive, step 3000")?;
        play(rt, &mut table, &[change(10, 1, 250)])?;
        match table.accept() {
            Ok(()) => println!(rt; "      the list is accepted")?,
            Err(refusal) => println!(rt; "      the list is refused with {}", u8::from(refusal))?,
        }
        let steps = [
            change(10, 1, 250),
            run(10000),
            Step::Tick,
            Step::Tick,
            Step::Tick,
            Step::Tick,
            change(10, 1, 300),
            run(-2000),
            Step::Tick,
            Step::Tick,
            Step::Tick,
            Step::Tick,
            Step::Command(Command::RampStop),
            Step::Tick,
            Step::Command(Command::Off),
            change(10, 1, 501),
            change(10, 1, 500),
        ];
        play(rt, &mut table, &steps)?;
    }
    println!(rt; "      the caller's list holds {}", list[0].value)?;
    Ok(())
}

// A trip and a lost link by plan, and a reset.
fn bench(rt: &HostRuntime) -> anyhow::Result<()> {
    let mut plan = [PlanEntry::UNUSED; 8];
    plan[0] = PlanEntry {
        tick: 2,
        fault: None,
        link: 1,
    };
    plan[1] = PlanEntry {
        tick: 3,
        fault: Fault::new(42),
        link: 0,
    };
    let mut bench = BenchDrive::with_plan(plan);
    open(rt, "bench drive, link lost at tick 2, fault 42 at tick 3")?;
    let steps = [
        run(20000),
        Step::Tick,
        change(12, 8, 5),
        change(12, 7, 5),
        change(12, 1, 2001),
        change(12, 1, 2000),
        Step::Tick,
        Step::Tick,
        Step::Command(Command::QuickStop),
        Step::Tick,
        Step::Reset,
        Step::Command(Command::Off),
        change(12, 7, 5),
    ];
    play(rt, &mut bench, &steps)
}

// A ramp by its own cell, and a trip when it is to turn backwards.
fn fan(rt: &HostRuntime) -> anyhow::Result<()> {
    let mut fan = FanDrive::new();
    open(rt, "fan drive, step 100")?;
    let steps = [
        change(1, 1, 400),
        run(1000),
        Step::Tick,
        Step::Tick,
        Step::Tick,
        run(-1000),
        Step::Tick,
        Step::Reset,
        run(600),
        Step::Reset,
        Step::Tick,
        Step::Command(Command::Off),
        Step::Tick,
        Step::Tick,
    ];
    play(rt, &mut fan, &steps)
}

fn main(rt: HostRuntime) -> anyhow::Result<()> {
    all(&rt)
}

fn all(rt: &HostRuntime) -> anyhow::Result<()> {
    table(rt)?;
    bench(rt)?;
    fan(rt)
}
