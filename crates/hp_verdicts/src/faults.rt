//! The report of a log's faults.
ghost use Rattle.std.specs.Prelude.{◌≡◌, ◌+◌, ◌<◌, ◌≤◌, ◌-◌, ◌^◌, List, OnOk, [], ◌∷◌, ◌++◌};
ghost use Rattle.hp_judge.specs.declared.faults.NumberedFault.{NumberedFault as AnyFault};
ghost use Rattle.hp_verdicts.specs.Reports.{IsReportOf};

use crate::allowed::AllowedKinds;
use hp_judge::NumberedFault;
use std::alloc::{AllocError, Global};
use std::marker::Model;

/// Counts a log's allowed and other faults, and keeps the first `most` of the others.
#[derive(Drop)]
pub struct FaultReport {
    allowed: AllowedKinds,
    most: u64,
    kept: Vec<NumberedFault>,
    count: u64,
    allowed_count: u64,
}

impl Model for FaultReport {
    ghost use Rattle.hp_verdicts.specs.Reports.{Report};

    ghost Value = { Report };

    ghost view = { λ r. record {
      allowed = r.allowed;
      most = r.most;
      kept = r.kept.items;
      count = r.count;
      allowed_count = r.allowed_count;
    } };
}

impl FaultReport {
    /// Makes an empty report, which keeps at most `most` faults.
    pub fn new(alloc: Global, allowed: AllowedKinds, most: u64) -> FaultReport
        ensures { result ≡ record {
          allowed = allowed;
          most = most;
          kept = [];
          count = 0;
          allowed_count = 0;
        } }
    {
        FaultReport {
            allowed,
            most,
            kept: Vec::new(alloc),
            count: 0,
            allowed_count: 0,
        }
    }

    /// Returns the faults that are kept.
    pub fn kept(&self) -> &[NumberedFault]
        ensures { result.now ≡ self.now.kept }
    {
        self.kept.as_slice()
    }

    /// Returns how many faults there are that are not allowed.
    pub fn count(&self) -> u64
        ensures { result ≡ self.now.count }
    {
        self.count
    }

    /// Returns how many allowed faults there are.
    pub fn allowed_count(&self) -> u64
        ensures { result ≡ self.now.allowed_count }
    {
        self.allowed_count
    }

    /// Adds a fault. Keeps it if its kind is not allowed and there is room.
    pub fn add(&mut self, fault: NumberedFault) -> Result<(), AllocError>
        requires { self.old.count + self.old.allowed_count < 2 ^ 64 - 1 }
        ensures allowed { self.new.allowed ≡ self.old.allowed }
        ensures most { self.new.most ≡ self.old.most }
        ensures sum { self.new.count + self.new.allowed_count ≤ self.old.count + self.old.allowed_count + 1 }
        ensures report { OnOk result ((all : List AnyFault) → IsReportOf all self.old
            → IsReportOf (all ++ fault ∷ []) self.new) }
    {
        if self.allowed.allows(fault.fault) {
            self.allowed_count += 1;
            return Ok(());
        }
        self.count += 1;
        if (self.kept.len() as u64) < self.most {
            self.kept.push(fault)?;
        }
        Ok(())
    }
}
