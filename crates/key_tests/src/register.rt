//! A key store to which owners come one at a time, each younger than all before it, and from which the last port goes. So each
//! edit fits the keys, and no test has to prove that it does.
ghost use Rattle.std.specs.Prelude.{◌≡◌, ◌≤◌, OnOk, OnErr};
ghost use Rattle.ovn_base.specs.declared.limits.TheConstants.{MAX_DATAPATH_KEY, MAX_PORT_KEY};
ghost use Rattle.tunnel_keys.specs.Edits.{IsKeyEdit, IsAfter};

use ovn_base::address::Birth;
use ovn_base::memory::NoMemory;
use ovn_base::name::Name;
use std::alloc::Global;
use std::marker::Model;
use tunnel_keys::fault::KeyFault;
use tunnel_keys::owner::KeyOwner;
use tunnel_keys::store::KeyStore;

/// A key store of which each owner is younger than those that came before.
#[derive(Drop)]
pub struct Register {
    keys: KeyStore,
    last_birth: u64,
    last_port: Option<KeyOwner>,
}

impl Model for Register {
    ghost use Rattle.tunnel_keys.specs.Keys.{Keys};
    ghost use Rattle.key_tests.specs.Register.{IsRegister};

    ghost Value = { Keys };

    ghost view = { λ r. r.keys };

    ghost invariant = { λ r. IsRegister r.keys r.last_birth r.last_port };
}

impl Register {
    /// No key, live or retired.
    pub fn with_ranges(alloc: Global, datapaths: u32, ports: u16) -> Result<Register, NoMemory>
        requires some_datapaths { 1 ≤ datapaths }
        requires few_datapaths { datapaths ≤ MAX_DATAPATH_KEY }
        requires some_ports { 1 ≤ ports }
        requires few_ports { ports ≤ MAX_PORT_KEY }
    {
        Ok(Register {
            keys: KeyStore::with_ranges(alloc, datapaths, ports)?,
            last_birth: 0,
            last_port: None,
        })
    }

    /// The keys.
    pub fn keys(&self) -> &KeyStore {
        &self.keys
    }

    /// A datapath comes. Where one of its name is there, that is answered as want of memory.
    pub fn add_datapath(&mut self, name: Name) -> Result<(), KeyFault> {
        if self.keys.datapath(&name).is_some() || self.last_birth == u64::MAX {
            return Err(KeyFault::Memory);
        }
        self.keys.keys_hold();
        let birth = Birth(self.last_birth + 1);
        edit(&mut self.keys, &[KeyOwner::Datapath { name, birth }], &[])?;
        self.last_birth += 1;
        Ok(())
    }

    /// A port comes. Where one of its name is there, or its datapath is not, that is answered as want of memory.
    pub fn add_port(&mut self, datapath: Name, name: Name) -> Result<(), KeyFault> {
        if self.keys.port(&name).is_some() || self.keys.datapath(&datapath).is_none() {
            return Err(KeyFault::Memory);
        }
        if self.last_birth == u64::MAX {
            return Err(KeyFault::Memory);
        }
        self.keys.keys_hold();
        let birth = Birth(self.last_birth + 1);
        let added = [KeyOwner::Port {
            datapath,
            name,
            birth,
        }];
        edit(&mut self.keys, &added, &[])?;
        self.last_birth += 1;
        self.last_port = Some(added[0]);
        Ok(())
    }

    /// The port that came last goes. Where it did, that is answered as want of memory.
    pub fn remove_last_port(&mut self) -> Result<(), KeyFault> {
        let Some(owner) = self.last_port else {
            return Err(KeyFault::Memory);
        };
        self.keys.keys_hold();
        edit(&mut self.keys, &[], &[owner])?;
        self.last_port = None;
        Ok(())
    }

    /// Frees every retired key.
    pub fn settle(&mut self) {
        self.keys.settle();
    }
}

// Does an edit that fits the keys, if there are keys for those who come.
fn edit(keys: &mut KeyStore, added: &[KeyOwner], removed: &[KeyOwner]) -> Result<(), KeyFault>
    requires { IsKeyEdit keys.old added.now removed.now }
    ensures after { OnOk result (IsAfter keys.old added.now removed.now keys.new) }
    ensures kept { OnErr result (keys.new ≡ keys.old) }
{
    let plan = keys.plan(added, removed)?;
    keys.apply(plan);
    Ok(())
}
