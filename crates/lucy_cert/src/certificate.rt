//! Certificates.

use crate::machine::is_before;
use crate::names::PartName;
use crate::steps::Proof;
use sqlite_items::Items;
use std::alloc::{AllocError, Global};
use std::marker::Model;

/// Proofs for the parts of a plan. Their names ascend strictly: the closures by the numbers of their segments, then
/// the cover.
#[derive(Debug, Drop)]
pub struct Certificate {
    /// The parts, each with its name.
    pub parts: Items<(PartName, Proof)>,
    /// The most clauses of steps that are added and not dropped after any step of a part. `None` in the first version
    /// of the text, which has no drops.
    pub live: Option<u64>,
}

impl Model for Certificate {
    ghost use Rattle.std.specs.Prelude.{List, ℕ, IsTrue, map};
    ghost use Rattle.lucy_cert.specs.Names.{ascend};
    ghost use Rattle.lucy_cert.specs.Certificates.{Contents, part_names};

    ghost Value = { Contents };

    ghost view = { λ c. record { parts = c.parts; live = c.live } };

    ghost invariant = { λ c. IsTrue (ascend (part_names c.parts)) };
}

ghost use Rattle.std.specs.Prelude.{◌≡◌, [], IsTrue, option_map, IfOk};
ghost use Rattle.lucy_cert.specs.Names as names;
ghost use Rattle.lucy_cert.specs.Certificates as spec;

/// Whether a part with this name comes behind all these parts.
pub fn come_before(name: PartName, parts: &[(PartName, Proof)]) -> bool
    ensures { result ≡ spec.come_before name parts.now }
{
    for part in parts {
        if !is_before(part.0, name) {
            return false;
        }
    }
    true
}

impl Certificate {
    /// A certificate with no part. With `live` it is of the second version, whose steps may drop clauses.
    pub fn new(alloc: Global, live: Option<u64>) -> Certificate
        ensures { result ≡ spec.contents [] live }
    {
        Certificate {
            parts: Items::new(alloc),
            live,
        }
    }

    /// The certificate with one more part behind the others. `None` exactly where the name does not come behind those
    /// of the others.
    pub fn with_proof(self, name: PartName, proof: Proof) -> Result<Option<Certificate>, AllocError>
        ensures { IfOk result (λ c. option_map (λ d. d) c ≡ spec.with_proof name proof self) }
    {
        let Certificate { parts, live } = self;
        if !come_before(name, parts.as_slice()) {
            return Ok(None);
        }
        let mut more = parts;
        more.push((name, proof))?;
        Ok(Some(Certificate { parts: more, live }))
    }

    /// The names of its parts ascend strictly.
    pub fn facts(&self)
        ensures { IsTrue (names.ascend (spec.part_names self.now.parts)) }
    {
        let _parts = &self.parts;
    }
}
