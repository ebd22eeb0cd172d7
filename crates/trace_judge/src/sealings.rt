ghost use Rattle.std.specs.Prelude.{◌≡◌, IfOk};
ghost use Rattle.std.specs.List.{list_any};
ghost use Rattle.image_sealer.specs.Membership.{is_sealed};
ghost use Rattle.image_sealer.specs.Sealing.{sealing_of};
ghost use Rattle.journal_findings.specs.Findings.{sealed_by};

use image_sealer::OwnerSealing;
use std::alloc::Global;
use xom_base::{Key256, NoMemory, Short};
use xom_owners::OwnerList;

/// What the owners sealed for one machine, ready for being looked up.
#[derive(Drop)]
pub struct Sealings<'a> {
    /// That of each owner.
    pub items: Vec<OwnerSealing<'a>>,
}

impl<'a> Sealings<'a> {
    ghost use Rattle.trace_judge.specs.SealSearch.{all_sealings};

    /// Makes the owners' keys ready.
    pub fn new(
        alloc: Global,
        machine: &Key256,
        owners: &'a OwnerList,
    ) -> Result<Sealings<'a>, NoMemory>
        ensures { IfOk result (λ sealings. all_sealings sealings ≡ sealed_by machine.now owners.now) }
    {
        let mut items = Vec::with_capacity(alloc, owners.len())?;
        for i in 0..owners.len() {
            if let Some(owner) = owners.get(i) {
                items.push(OwnerSealing::new(machine, owner))?;
            }
        }
        Ok(Sealings { items })
    }

    /// Whether one of the owners sealed the message under the key.
    #[tactic(auto, using(crate::proofs::ForgeryLaws::sealed_by_any))]
    pub fn has(&self, key: &Short, message: &Short) -> bool
        ensures { result ≡ is_sealed key.now message.now (all_sealings self.now) }
    {
        any_has(self.items.as_slice(), key, message)
    }
}

/// Whether one of these holds the message under the key.
fn any_has(items: &[OwnerSealing], key: &Short, message: &Short) -> bool
    ensures { result ≡ list_any (λ own. is_sealed key.now message.now (sealing_of own.machine own.owner)) items.now }
{
    for own in items {
        if own.has(key, message) {
            return true;
        }
    }
    false
}
