//! The names of a plan.

ghost use Rattle.std.specs.Prelude.{◌≡◌, ◌<◌, [], IsTrue, not, ◌&&◌, is_some, map, length, option_map, IfOk, IfSome, OnOk, OnErr};
ghost use Rattle.lucy_names.specs.Plans.{AreNamesOf, segment_names, txn_names};
ghost use Rattle.lucy_names.specs.Tables as tables;

use crate::table::NameTable;
use lucy_plan::{Plan, Segment, Txn};
use std::alloc::{AllocError, Global};

// The names of segments, if they differ.
fn segment_table(alloc: Global, segments: &[Segment]) -> Result<Option<NameTable>, AllocError>
    ensures { IfOk result (λ found. option_map (λ t. t) found ≡ tables.where_differ (map (λ s. s.name) segments.now)) }
{
    let mut table = NameTable::new(alloc);
    for segment in segments {
        let put = table.add(alloc, segment.name.as_str())?;
        if !put {
            return Ok(None);
        }
    }
    Ok(Some(table))
}

// The names of transactions, if they differ.
fn txn_table(alloc: Global, txns: &[Txn]) -> Result<Option<NameTable>, AllocError>
    ensures { IfOk result (λ found. option_map (λ t. t) found ≡ tables.where_differ (map (λ t. t.name) txns.now)) }
{
    let mut table = NameTable::new(alloc);
    for txn in txns {
        let put = table.add(alloc, txn.name.as_str())?;
        if !put {
            return Ok(None);
        }
    }
    Ok(Some(table))
}

/// The names of segments and of transactions, by their numbers. The names of each kind differ.
/// Contracts see two lists of names, each a list of bytes.
#[derive(Drop)]
pub struct Names {
    segments: NameTable,
    txns: NameTable,
}

impl Names {
    /// No names.
    pub fn new(alloc: Global) -> Names
        ensures segments { result.segments ≡ [] }
        ensures txns { result.txns ≡ [] }
    {
        Names {
            segments: NameTable::new(alloc),
            txns: NameTable::new(alloc),
        }
    }

    /// The names that a plan holds. `None` exactly where two segments or two transactions have one
    /// name.
    pub fn of_plan(alloc: Global, plan: &Plan) -> Result<Option<Names>, AllocError>
        ensures names { IfOk result (λ found. IfSome found (AreNamesOf plan.now)) }
        ensures differ { IfOk result (λ found. is_some found ≡ tables.differ (segment_names plan.now) && tables.differ (txn_names plan.now)) }
    {
        let parts = plan.parts();
        let Some(segments) = segment_table(alloc, parts.segments.as_slice())? else {
            return Ok(None);
        };
        let Some(txns) = txn_table(alloc, parts.txns.as_slice())? else {
            return Ok(None);
        };
        Ok(Some(Names { segments, txns }))
    }

    /// The name of a segment.
    pub fn segment(&self, segment: u32) -> &str
        requires { segment < length self.now.segments }
        ensures { result.now ≡ tables.name_at self.now.segments segment }
    {
        self.segments.name_at(segment)
    }

    /// The name of a transaction.
    pub fn txn(&self, txn: u32) -> &str
        requires { txn < length self.now.txns }
        ensures { result.now ≡ tables.name_at self.now.txns txn }
    {
        self.txns.name_at(txn)
    }

    /// The names of each kind differ, so each name of the plan is found at its own place.
    pub fn facts(&self)
        ensures segments { IsTrue (tables.differ self.now.segments) }
        ensures txns { IsTrue (tables.differ self.now.txns) }
    {
        self.segments.facts();
        self.txns.facts();
    }

    /// The transaction with this name. `None` exactly where there is none.
    pub fn find_txn(&self, name: &str) -> Option<u32>
        ensures { result ≡ tables.place_of self.now.txns name.now }
    {
        self.txns.find(name)
    }

    /// The transaction with the name of these bytes. `None` exactly where there is none.
    pub fn find_txn_bytes(&self, name: &[u8]) -> Option<u32>
        ensures { result ≡ tables.place_of self.now.txns name.now }
    {
        self.txns.find_bytes(name)
    }

    /// Names the next segment, if no segment has the name. Tells whether it was named.
    pub fn add_segment(&mut self, alloc: Global, name: &str) -> Result<bool, AllocError>
        ensures new { IfOk result (λ put. put ≡ not (tables.is_among self.old.segments name.now)) }
        ensures value { OnOk result (self.new ≡ record self.old { segments = tables.with_name self.old.segments name.now }) }
        ensures unchanged { OnErr result (self.new ≡ self.old) }
    {
        self.segments.add(alloc, name)
    }

    /// Names the next transaction, if no transaction has the name. Tells whether it was named.
    pub fn add_txn(&mut self, alloc: Global, name: &str) -> Result<bool, AllocError>
        ensures new { IfOk result (λ put. put ≡ not (tables.is_among self.old.txns name.now)) }
        ensures value { OnOk result (self.new ≡ record self.old { txns = tables.with_name self.old.txns name.now }) }
        ensures unchanged { OnErr result (self.new ≡ self.old) }
    {
        self.txns.add(alloc, name)
    }
}
