ghost use Rattle.std.specs.Prelude.{◌≡◌, IfOk};
ghost use Rattle.rollout_report.specs.Peaks.{peaks_of};

use crate::history::History;
use crate::pass::Pass;
use lists::Memory;
use std::alloc::Global;
use std::marker::Model;
use wan_model::CheckedPlan;

/// The peaks of all links and tables over a history.
#[derive(Debug, Drop)]
pub struct Peaks {
    links: Vec<u128>,
    tables: Vec<u128>,
}

impl Model for Peaks {
    ghost use Rattle.rollout_report.specs.Peaks.{PeakLists};

    ghost Value = { PeakLists };

    ghost view = { λ p. record { links = p.links.items; tables = p.tables.items } };
}

impl Peaks {
    /// The greatest, at the start of a history and after each of its entries, of what each link and table
    /// has to hold: of a link the larger of each tunnel's settled and next rate, of a table the widths of
    /// the entries that are there as settled or as next. An Err is lack of memory.
    pub fn over(alloc: Global, plan: &CheckedPlan, history: &History<'_>) -> Result<Peaks, Memory>
        ensures { IfOk result
            (λ peaks. peaks ≡ peaks_of plan.now.problem plan.now.plan history.now) }
    {
        let pass = Pass::over(alloc, plan, history)?;
        Ok(pass.into_peaks())
    }

    pub(crate) fn new(links: Vec<u128>, tables: Vec<u128>) -> Peaks
        ensures { result ≡ record { links = links.items; tables = tables.items } }
    {
        Peaks { links, tables }
    }

    /// The peak of each link by its number, in units of 1/scale.
    pub fn links(&self) -> &[u128]
        ensures { result.now ≡ self.now.links }
    {
        &self.links
    }

    /// The peak of each switch's table by the switch's number, in widths of entries.
    pub fn tables(&self) -> &[u128]
        ensures { result.now ≡ self.now.tables }
    {
        &self.tables
    }
}
