//! The keys of all datapaths and ports.
ghost use Rattle.std.specs.Prelude.{◌≡◌, ◌≤◌, IfOk, IfErr};
ghost use Rattle.std.specs.Option.{option_copied, option_map};
ghost use Rattle.ovn_base.specs.declared.limits.TheConstants.{MAX_DATAPATH_KEY, MAX_PORT_KEY};
ghost use Rattle.ovn_base.specs.names.ByName.{at};
ghost use Rattle.tunnel_keys.specs.Keys.{IsKeys, no_keys, settled, ports_on};
ghost use Rattle.tunnel_keys.specs.Edits.{IsKeyEdit, IsAfter, IsPlanFor};
ghost use Rattle.tunnel_keys.specs.Causes.{IsCause, HasKeys};

use crate::fault::KeyFault;
use crate::giving::{give_datapath_keys, give_port_keys, listed_ports};
use crate::grouped::changed_by_datapath;
use crate::owner::{DatapathKey, HeldDatapath, HeldPort, KeyOwner, PortKey};
use crate::retiring::{
    in_order, put_each, retired_datapaths, retired_ports, staying_datapaths, staying_ports,
};
use ovn_base::list::List;
use ovn_base::memory::NoMemory;
use ovn_base::name::Name;
use ovn_base::ports::Ports;
use std::alloc::Global;
use std::collections::BTreeMap;
use std::marker::Model;

/// The keys of all datapaths and ports, live and retired, each with the record that has or had it.
///
/// A datapath's key is 1 up to a greatest one and no other datapath's; a port's key is 1 up to another greatest one and no
/// other port's of its datapath. A key is live while its record is there. When the record is removed the key is retired,
/// and nobody gets it until [`KeyStore::settle`] frees it.
#[derive(Drop)]
pub struct KeyStore {
    datapath_range: u32,
    port_range: u16,
    pub(crate) datapaths: BTreeMap<Name, DatapathKey>,
    pub(crate) ports: BTreeMap<Name, PortKey>,
    lists: BTreeMap<Name, Ports>,
    pub(crate) retired_datapaths: List<HeldDatapath>,
    pub(crate) retired_ports: List<HeldPort>,
}

impl Model for KeyStore {
    ghost use Rattle.std.specs.Prelude.{◌≡◌};
    ghost use Rattle.tunnel_keys.specs.Keys.{Keys, IsKeys};
    ghost use Rattle.tunnel_keys.specs.Giving.{lists_of};

    ghost Value = { Keys };

    ghost view = { λ s. record { datapath_range = s.datapath_range; port_range = s.port_range; datapaths = s.datapaths.entries; ports = s.ports.entries; retired_datapaths = s.retired_datapaths; retired_ports = s.retired_ports } };

    ghost invariant = { λ s. IsKeys (record { datapath_range = s.datapath_range; port_range = s.port_range; datapaths = s.datapaths.entries; ports = s.ports.entries; retired_datapaths = s.retired_datapaths; retired_ports = s.retired_ports }) × (s.lists.entries ≡ lists_of s.ports.entries s.datapaths.entries) };
}

/// The keys after an edit, made by [`KeyStore::plan`] and put into force by [`KeyStore::apply`].
#[derive(Drop)]
pub struct KeyPlan {
    after: KeyStore,
}

impl Model for KeyPlan {
    ghost use Rattle.tunnel_keys.specs.Keys.{Keys};

    ghost Value = { Keys };

    ghost view = { λ p. p.after };
}

impl KeyPlan {
    /// The keys as `apply` leaves them.
    pub fn after(&self) -> &KeyStore
        ensures { result.now ≡ self.now }
    {
        &self.after
    }
}

impl KeyStore {
    /// No key, live or retired. Datapaths will have keys of 1 to `datapaths`, which is at most 16,777,215, and ports of 1 to
    /// `ports`, which is at most 32,767.
    pub fn with_ranges(alloc: Global, datapaths: u32, ports: u16) -> Result<KeyStore, NoMemory>
        requires some_datapaths { 1 ≤ datapaths }
        requires few_datapaths { datapaths ≤ MAX_DATAPATH_KEY }
        requires some_ports { 1 ≤ ports }
        requires few_ports { ports ≤ MAX_PORT_KEY }
        ensures { IfOk result (λ keys. keys ≡ no_keys datapaths ports) }
    {
        Ok(KeyStore {
            datapath_range: datapaths,
            port_range: ports,
            datapaths: BTreeMap::new(alloc),
            ports: BTreeMap::new(alloc),
            lists: BTreeMap::new(alloc),
            retired_datapaths: List::new(alloc),
            retired_ports: List::new(alloc),
        })
    }

    /// The live key of the datapath of that name; `None` where there is none.
    pub fn datapath(&self, name: &Name) -> Option<u32>
        ensures { result ≡ option_map (λ d. d.key) (at self.now.datapaths name.now) }
    {
        match self.datapaths.get(name) {
            Some(datapath) => Some(datapath.key),
            None => None,
        }
    }

    /// The live key of the port of that name; `None` where there is none.
    pub fn port(&self, name: &Name) -> Option<u16>
        ensures { result ≡ option_map (λ p. p.key) (at self.now.ports name.now) }
    {
        match self.ports.get(name) {
            Some(port) => Some(port.key),
            None => None,
        }
    }

    /// The ports of the datapath of that name that have live keys, in order of name, with these; `None` where the datapath
    /// has no live key.
    pub fn ports(&self, datapath: &Name) -> Option<&Ports>
        ensures { option_copied result ≡ option_map (λ d. record { list = ports_on self.now.ports datapath.now }) (at self.now.datapaths datapath.now) }
    {
        self.lists.get(datapath)
    }

    /// What always holds of the keys: they are in range, no two owners have one key, and nobody has two. It does nothing.
    pub fn keys_hold(&self)
        ensures { IsKeys self.now }
    {
        let _range = self.datapath_range;
    }

    /// Frees every retired key.
    pub fn settle(&mut self)
        ensures { self.new ≡ settled self.old }
    {
        self.retired_datapaths.clear();
        self.retired_ports.clear();
    }

    /// The same keys in memory of their own.
    pub fn copy(&self) -> Result<KeyStore, NoMemory>
        ensures { IfOk result (λ keys. keys ≡ self.now) }
    {
        Ok(KeyStore {
            datapath_range: self.datapath_range,
            port_range: self.port_range,
            datapaths: copy_of(&self.datapaths)?,
            ports: copy_of(&self.ports)?,
            lists: copy_of(&self.lists)?,
            retired_datapaths: self.retired_datapaths.copy()?,
            retired_ports: self.retired_ports.copy()?,
        })
    }

    /// The keys after an edit: the keys of the removed owners are retired, then each added owner gets the least key that is
    /// neither live nor retired, datapaths in order of name, and then the ports of each datapath, in order of its name, in
    /// order of their names. A port that is not removed keeps its key, also where the edit removes its datapath and adds one
    /// of that name; the key is then one of the new datapath.
    ///
    /// The edit must fit the keys ([`IsKeyEdit`]): no owner stands twice in a list, the removed ones are live, no key, live or
    /// retired, is or was one of an added one, and no retired key of a port was one of an added datapath. Afterwards no two
    /// datapaths and no two ports have one name, and the datapath of each port is there.
    ///
    /// The keys stay as they are, whatever the answer. `NoDatapathKey` comes where more datapaths are added than keys of the
    /// range are neither live nor retired, and `NoPortKey` of the first datapath, in order of name, to which more ports are
    /// added than keys of the range are neither live nor retired on it.
    pub fn plan(&mut self, added: &[KeyOwner], removed: &[KeyOwner]) -> Result<KeyPlan, KeyFault>
        requires { IsKeyEdit self.old added.now removed.now }
        ensures kept { self.new ≡ self.old }
        ensures after { IfOk result (IsAfter self.old added.now removed.now) }
        ensures enough { IfOk result (λ plan. HasKeys self.old added.now removed.now) }
        ensures fault { IfErr result (IsCause self.old added.now removed.now) }
    {
        Ok(KeyPlan {
            after: self.after(added, removed)?,
        })
    }

    /// Puts the keys of a plan into force, which was made on these keys and nothing was changed since.
    pub fn apply(&mut self, plan: KeyPlan)
        requires { IsPlanFor self.old plan }
        ensures { self.new ≡ plan }
    {
        let KeyPlan { after } = plan;
        *self = after;
    }

    // The keys after an edit.
    fn after(&self, added: &[KeyOwner], removed: &[KeyOwner]) -> Result<KeyStore, KeyFault>
        requires { IsKeyEdit self.now added.now removed.now }
        ensures after { IfOk result (IsAfter self.now added.now removed.now) }
        ensures enough { IfOk result (λ keys. HasKeys self.now added.now removed.now) }
        ensures fault { IfErr result (IsCause self.now added.now removed.now) }
    {
        let alloc = self.retired_ports.allocator();
        let staying = staying_datapaths(&self.datapaths, removed)?;
        let ports = staying_ports(&self.ports, removed)?;
        let gone = retired_datapaths(&self.retired_datapaths, &self.datapaths, removed)?;
        let gone_ports = retired_ports(&self.retired_ports, &self.datapaths, &self.ports, removed)?;
        let more = give_datapath_keys(self.datapath_range, &staying, &gone, added)?;
        let datapaths = put_each(staying, more)?;
        let more = give_port_keys(self.port_range, &ports, &gone_ports, added, &datapaths)?;
        let ports = put_each(ports, more)?;
        let changed = changed_by_datapath(alloc, added, removed)?;
        let lists = listed_ports(alloc, &self.lists, &changed, &datapaths, &ports)?;
        let retired_datapaths = in_order(alloc, gone.as_slice())?;
        let retired_ports = in_order(alloc, gone_ports.as_slice())?;
        Ok(KeyStore {
            datapath_range: self.datapath_range,
            port_range: self.port_range,
            datapaths,
            ports,
            lists,
            retired_datapaths,
            retired_ports,
        })
    }
}

// The same entries in memory of their own.
pub(crate) fn copy_of<V: Clone>(entries: &BTreeMap<Name, V>) -> Result<BTreeMap<Name, V>, NoMemory>
    requires clones { (x y : V) → V.is_clone x y → y ≡ x }
    ensures { IfOk result (λ m. m.entries ≡ entries.now.entries) }
{
    Ok(entries.clone()?)
}
