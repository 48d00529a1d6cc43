// The plan of a bench drive: at which of its ticks it faults, and when its link is lost.
ghost use Rattle.std.specs.Prelude.{◌≡◌, ◌<◌, None};
ghost use Rattle.bench_drive.specs.Plan.{planned};

use drive::Fault;

// What happens at one tick.
#[derive(Clone, Copy, Debug, PartialEq, Eq)]
pub struct PlanEntry {
    // 1 to 65535, or 0 for an entry that is not used: an Option of an entry would leave 0 a second way to say so
    pub tick: u16,
    // none keeps the fault as it is
    pub fault: Option<Fault>,
    // the number of the link, where those above 2 mean 2: a Link has only three of these values
    pub link: u8,
}

impl PlanEntry {
    // An entry that never fires: the first tick is 1.
    pub const UNUSED: PlanEntry = PlanEntry {
        tick: 0,
        fault: None,
        link: 0,
    };
}

// The first entry for this tick; past 65535 there is none.
pub(crate) fn planned(plan: &[PlanEntry; 8], tick: u32) -> Option<PlanEntry>
    ensures value { result ≡ planned plan.now tick }
    ensures over { 65535 < tick → result ≡ None }
{
    plan.iter()
        .find(|entry| u32::from(entry.tick) == tick)
        .copied()
}
