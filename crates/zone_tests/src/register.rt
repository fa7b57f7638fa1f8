//! Homes and zone numbers that take every change of a few names, and tell where one doesn't fit them. So no test has to prove that
//! its changes fit.
ghost use Rattle.std.specs.Prelude.{◌≡◌, ◌≤◌, ◌+◌, true, OnOk, OnErr};
ghost use Rattle.conn_zones.specs.declared.numbers.TheConstants.{MAX_ZONE};
ghost use Rattle.zone_tests.specs.Register.{are_few, IsRegister};

use conn_zones::change::HomeChange;
use conn_zones::homes::Homes;
use conn_zones::numbers::{MAX_ZONE, ZoneNumbers};
use conn_zones::zones::ConnZones;
use ovn_base::memory::NoMemory;
use ovn_base::name::Name;
use std::alloc::Global;
use std::marker::Model;

#[derive(Drop)]
pub(crate) struct Register {
    zones: ConnZones,
    // no more zones than this are at home somewhere
    most: usize,
}

impl Model for Register {
    ghost use Rattle.conn_zones.specs.Zoning.{Zoned};
    ghost use Rattle.zone_tests.specs.Register.{IsRegister};

    ghost Value = { Zoned };

    ghost view = { λ r. r.zones };

    ghost invariant = { λ r. IsRegister r.zones.homes r.most };
}

// Whether there are at most two names, which differ.
fn are_few(change: &[(Name, Option<Name>)]) -> bool
    ensures { result ≡ are_few change.now }
{
    match change {
        [] | [_] => true,
        [(one, _), (other, _)] => *one != *other,
        _ => false,
    }
}

// Makes a change of few names.
#[tactic(auto, using(crate::proofs::FewNames::change_fits, crate::proofs::FewNames::patch_fits, crate::proofs::FewNames::known_after))]
fn rezone(zones: &mut ConnZones, most: usize, change: &HomeChange) -> Result<(), NoMemory>
    requires known { IsRegister zones.old.homes most }
    requires few_ports { are_few change.now.ports ≡ true }
    requires few_routers { are_few change.now.routers ≡ true }
    requires room { most + 6 ≤ MAX_ZONE }
    ensures known { OnOk result (IsRegister zones.new.homes (most + 6)) }
    ensures kept { OnErr result (zones.new ≡ zones.old) }
{
    let patch = zones.prepare(change)?;
    zones.apply(patch);
    Ok(())
}

impl Register {
    // Nobody is at home anywhere.
    pub(crate) fn new(alloc: Global) -> Result<Register, NoMemory> {
        Ok(Register {
            zones: ConnZones::new(alloc)?,
            most: 0,
        })
    }

    // Changes homes, and says whether the change is one of few names.
    pub(crate) fn turn(&mut self, change: &HomeChange) -> Result<bool, NoMemory> {
        if !are_few(change.ports.as_slice()) || !are_few(change.routers.as_slice()) {
            return Ok(false);
        }
        if self.most > usize::from(MAX_ZONE - 6) {
            return Ok(false);
        }
        rezone(&mut self.zones, self.most, change)?;
        self.most += 6;
        Ok(true)
    }

    // The homes.
    pub(crate) fn homes(&self) -> &Homes {
        self.zones.homes()
    }

    // The numbers.
    pub(crate) fn numbers(&self) -> &ZoneNumbers {
        self.zones.numbers()
    }
}
