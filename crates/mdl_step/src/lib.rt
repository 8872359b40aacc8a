//! The machine as it is written down: the fetch, a step over any board, a run and the report.
//!
//! The one contract used above is the definitions themselves: `Step`, `Run` and `report_text`. The law
//! says what trying a plan does while paging is off. Read `specs/Step.antt` first, then `Fetching`,
//! `Boundary`, `Effects`, `Delivering`, `Events`, `Run`, `Report`.
#![tactic(auto)]

mod laws;

pub use laws::without_paging_only_held_writes_change;
