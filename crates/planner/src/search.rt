// The search for the next block (01, "Blocks"): report by report, with the last least high and the
// last greatest low so far.
ghost use Rattle.std.specs.Prelude.{◌≡◌, ◌+◌, ◌-◌, ◌<◌, length};
ghost use Rattle.planner.specs.Inside.{mark};

use crate::list::FairList;
use fraction::Pace;
use std::ops::ControlFlow;

// A high or a low: the report, and the pace from the block's start to a time of that report.
#[derive(Clone, Copy)]
pub struct Mark {
    pub at: usize,
    pub pace: Pace,
}

impl Mark {
    // The mark of a report and a time: its pace from the block's start, nil where that time is past.
    fn new(at: usize, time: u32, from: u32, operations: u32) -> Mark
        ensures { result ≡ mark at time from operations }
    {
        Mark {
            at,
            pace: Pace {
                ticks: time.saturating_sub(from),
                operations,
            },
        }
    }
}

// What the search keeps before report next: the operations so far, the last least high and the last
// greatest low.
#[derive(Clone, Copy)]
pub struct Kept {
    pub next: usize,
    pub sum: u32,
    pub high: Mark,
    pub low: Mark,
}

// Where a block ends: its last report, the time, its operations.
#[derive(Clone, Copy)]
pub struct End {
    pub last: usize,
    pub time: u32,
    pub operations: u32,
}

// What one report does to the search: it ends it, or it joins, and the search goes on.
pub type Step = ControlFlow<End, Kept>;

// A block to be found: the list, the block's first report, and its start.
#[derive(Clone, Copy)]
pub struct Search<'a> {
    pub fair: FairList<'a>,
    pub first: usize,
    pub from: u32,
    pub ghost on: { first < length fair.list.arrivals.now },
}

impl Search<'_> {
    ghost use Rattle.planner.specs.Inside.{reports_in, KeptIs, StepIs, Weighed};

    // Report kept.next with its marks: it ends the search where its low exceeds the least high or its
    // high lies below the greatest low; else it joins, and of equal marks the last is kept.
    fn judge(&self, kept: Kept, high: Mark, low: Mark) -> Step
        requires { Weighed (reports_in self.now.fair.list) self.now.from self.now.first kept high low }
        ensures { StepIs (reports_in self.now.fair.list) self.now.from self.now.first kept.next result }
    {
        let least = kept.high;
        let greatest = kept.low;
        if least.pace.below(low.pace) {
            let last = least.at;
            return ControlFlow::Break(End {
                last,
                time: self.fair.list.deadlines[last],
                operations: least.pace.operations,
            });
        }
        if high.pace.below(greatest.pace) {
            let last = greatest.at;
            return ControlFlow::Break(End {
                last,
                time: self.fair.list.arrivals[last + 1],
                operations: greatest.pace.operations,
            });
        }
        let high_stays = least.pace.below(high.pace);
        let low_stays = low.pace.below(greatest.pace);
        let next_high = if high_stays { least } else { high };
        let next_low = if low_stays { greatest } else { low };
        ControlFlow::Continue(Kept {
            next: kept.next + 1,
            sum: high.pace.operations,
            high: next_high,
            low: next_low,
        })
    }

    // What report kept.next does to the search: the stretch's end ends it too.
    pub fn take(&self, kept: Kept) -> Step
        requires { KeptIs (reports_in self.now.fair.list) self.now.from self.now.first kept }
        ensures { StepIs (reports_in self.now.fair.list) self.now.from self.now.first kept.next result }
    {
        let last = kept.next - 1;
        if !self.fair.joins(last) {
            return ControlFlow::Break(End {
                last,
                time: self.fair.list.deadlines[last],
                operations: kept.sum,
            });
        }
        let j = kept.next;
        let sum = kept.sum + self.fair.list.operations[j];
        let high = Mark::new(j, self.fair.list.deadlines[j], self.from, sum);
        let low = Mark::new(j, self.fair.floor(j), self.from, sum);
        self.judge(kept, high, low)
    }

    // The search begins with the block's first report. Its two marks are made as take makes those of the
    // next: one function for both would give a pair, by a contract of its own, for two lines.
    pub fn begin(&self) -> Kept
        ensures kept_is { KeptIs (reports_in self.now.fair.list) self.now.from self.now.first result }
        ensures next { result.next ≡ self.now.first + 1 }
    {
        let first = self.first;
        let sum = self.fair.list.operations[first];
        let high = Mark::new(first, self.fair.list.deadlines[first], self.from, sum);
        let low = Mark::new(first, self.fair.floor(first), self.from, sum);
        Kept {
            next: first + 1,
            sum,
            high,
            low,
        }
    }
}
