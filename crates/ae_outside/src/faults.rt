//! For each name, how often its reads and its writes have failed.
ghost use Rattle.std.specs.Prelude.{◌≡◌, OnOk, OnErr};
ghost use Rattle.ae_outside.specs.Counts.{count, one_more, no_faults, CountsAt, RoseAt};
ghost use Rattle.ae_outside.specs.Views.{with_count};

use ae_base::Memory;
use std::alloc::Global;
use std::collections::BTreeMap;
use std::marker::Model;

/// How often the calls of one name have failed.
#[derive(Clone, Copy, Debug)]
pub struct Failed {
    pub reads: u64,
    pub writes: u64,
}

/// The names whose calls failed, each with two counters that stop at their last value.
#[derive(Drop)]
pub struct FaultCounts {
    alloc: Global,
    by_name: BTreeMap<String, Failed>,
}

impl Model for FaultCounts {
    ghost use Rattle.ae_outside.specs.Counts.{Faults};

    ghost Value = { Faults };

    ghost use Rattle.ae_outside.specs.Codes.{coded_faults};

    ghost coded = { coded_faults };

    ghost use Rattle.ae_outside.specs.Views.{tally_of};

    ghost view = { λ a. record { reads = tally_of (λ f. f.reads) a.by_name.entries; writes = tally_of (λ f. f.writes) a.by_name.entries } };
}

impl FaultCounts {
    /// No call has failed.
    pub fn new(alloc: Global) -> Self
        ensures { result ≡ no_faults }
    {
        FaultCounts {
            alloc,
            by_name: BTreeMap::new(alloc),
        }
    }

    fn of(&self, name: &str) -> Failed
        ensures reads { result.reads ≡ count self.now.reads name.now }
        ensures writes { result.writes ≡ count self.now.writes name.now }
        ensures reads_stay { with_count self.now.reads name.now result.reads ≡ self.now.reads }
        ensures writes_stay { with_count self.now.writes name.now result.writes ≡ self.now.writes }
    {
        let none = Failed {
            reads: 0,
            writes: 0,
        };
        self.by_name.get(name).copied().unwrap_or(none)
    }

    // Only a new name takes memory.
    fn set(&mut self, name: &str, failed: Failed) -> Result<(), Memory>
        ensures reads { OnOk result (self.new.reads ≡ with_count self.old.reads name.now failed.reads) }
        ensures writes { OnOk result (self.new.writes ≡ with_count self.old.writes name.now failed.writes) }
        ensures err { OnErr result (self.new ≡ self.old) }
    {
        if let Some(held) = self.by_name.get_mut(name) {
            *held = failed;
            return Ok(());
        }
        self.by_name
            .insert(String::from_str(self.alloc, name)?, failed)?;
        Ok(())
    }

    /// A read of the name has failed. After `Memory` nothing is counted.
    pub fn read_failed(&mut self, name: &str) -> Result<(), Memory>
        ensures ok { OnOk result (self.new ≡ record self.old { reads = one_more self.old.reads name.now }) }
        ensures rose { OnOk result (RoseAt name.now self.old.reads self.new.reads) }
        ensures counts { CountsAt name.now self.old.reads self.new.reads }
        ensures err { OnErr result (self.new ≡ self.old) }
    {
        let before = self.of(name);
        self.set(
            name,
            Failed {
                reads: before.reads.saturating_add(1),
                writes: before.writes,
            },
        )?;
        Ok(())
    }

    /// A write to the name has failed. After `Memory` nothing is counted.
    pub fn write_failed(&mut self, name: &str) -> Result<(), Memory>
        ensures ok { OnOk result (self.new ≡ record self.old { writes = one_more self.old.writes name.now }) }
        ensures rose { OnOk result (RoseAt name.now self.old.writes self.new.writes) }
        ensures counts { CountsAt name.now self.old.writes self.new.writes }
        ensures err { OnErr result (self.new ≡ self.old) }
    {
        let before = self.of(name);
        self.set(
            name,
            Failed {
                reads: before.reads,
                writes: before.writes.saturating_add(1),
            },
        )?;
        Ok(())
    }
}
