//! The records, ordered by name, and the backends that are marked offline.
ghost use Rattle.std.specs.Prelude.{◌≡◌, ◌++◌, IfOk, OnOk, OnErr};
ghost use Rattle.std.specs.Option.{option_copied};
ghost use Rattle.std.specs.List.Sorted.{IsStrictlySortedBy};
ghost use Rattle.ovn_base.specs.names.ByName.{at, IsByName};
ghost use Rattle.nb_records.specs.Network as net;
ghost use Rattle.nb_records.specs.Network.{AreInOrder};

use crate::balancer::{LoadBalancer, OfflineMark};
use crate::kinds::Kind;
use crate::record::Record;
use crate::router::{Nat, Route, Router, RouterPort, StaticMac};
use crate::rule::{Acl, AddressSet, PortGroup};
use crate::switch::{Switch, SwitchPort};
use ovn_base::address::Backend;
use ovn_base::memory::NoMemory;
use ovn_base::name::Name;
use std::alloc::Global;
use std::collections::{BTreeMap, BTreeSet};
use std::marker::Model;

/// All records, each kind in order of name, and the backends that are marked offline.
#[derive(Drop)]
pub struct Records {
    switches: BTreeMap<Name, Switch>,
    routers: BTreeMap<Name, Router>,
    router_ports: BTreeMap<Name, RouterPort>,
    switch_ports: BTreeMap<Name, SwitchPort>,
    address_sets: BTreeMap<Name, AddressSet>,
    port_groups: BTreeMap<Name, PortGroup>,
    acls: BTreeMap<Name, Acl>,
    routes: BTreeMap<Name, Route>,
    nats: BTreeMap<Name, Nat>,
    load_balancers: BTreeMap<Name, LoadBalancer>,
    static_macs: BTreeMap<Name, StaticMac>,
    offline: BTreeSet<OfflineMark>,
}

impl Model for Records {
    ghost use Rattle.nb_records.specs.Network.{Network, AreInOrder};
    ghost use Rattle.match_language.specs.contracts.expr.Expr as expr;
    ghost use Rattle.std.specs.Coded.{codes};

    ghost Value = { Network };

    ghost coded = { Prim.hlevel (codes, expr.the_row.coded) };

    ghost view = { λ r. record { switches = r.switches.entries; routers = r.routers.entries; router_ports = r.router_ports.entries; switch_ports = r.switch_ports.entries; address_sets = r.address_sets.entries; port_groups = r.port_groups.entries; acls = r.acls.entries; routes = r.routes.entries; nats = r.nats.entries; load_balancers = r.load_balancers.entries; static_macs = r.static_macs.entries; offline = r.offline.keys } };

    ghost invariant = { λ r. AreInOrder (record { switches = r.switches.entries; routers = r.routers.entries; router_ports = r.router_ports.entries; switch_ports = r.switch_ports.entries; address_sets = r.address_sets.entries; port_groups = r.port_groups.entries; acls = r.acls.entries; routes = r.routes.entries; nats = r.nats.entries; load_balancers = r.load_balancers.entries; static_macs = r.static_macs.entries; offline = r.offline.keys }) };
}

impl Records {
    /// No record.
    pub fn new(alloc: Global) -> Result<Records, NoMemory>
        ensures { IfOk result (λ r. r ≡ net.empty_network) }
    {
        Ok(Records {
            switches: BTreeMap::new(alloc),
            routers: BTreeMap::new(alloc),
            router_ports: BTreeMap::new(alloc),
            switch_ports: BTreeMap::new(alloc),
            address_sets: BTreeMap::new(alloc),
            port_groups: BTreeMap::new(alloc),
            acls: BTreeMap::new(alloc),
            routes: BTreeMap::new(alloc),
            nats: BTreeMap::new(alloc),
            load_balancers: BTreeMap::new(alloc),
            static_macs: BTreeMap::new(alloc),
            offline: BTreeSet::new(alloc),
        })
    }

    /// The logical switch of that name.
    pub fn switch(&self, name: &Name) -> Option<&Switch>
        ensures { option_copied result ≡ at self.now.switches name.now }
    {
        self.switches.get(name)
    }

    /// The logical router of that name.
    pub fn router(&self, name: &Name) -> Option<&Router>
        ensures { option_copied result ≡ at self.now.routers name.now }
    {
        self.routers.get(name)
    }

    /// The router port of that name.
    pub fn router_port(&self, name: &Name) -> Option<&RouterPort>
        ensures { option_copied result ≡ at self.now.router_ports name.now }
    {
        self.router_ports.get(name)
    }

    /// The switch port of that name.
    pub fn switch_port(&self, name: &Name) -> Option<&SwitchPort>
        ensures { option_copied result ≡ at self.now.switch_ports name.now }
    {
        self.switch_ports.get(name)
    }

    /// The address set of that name.
    pub fn address_set(&self, name: &Name) -> Option<&AddressSet>
        ensures { option_copied result ≡ at self.now.address_sets name.now }
    {
        self.address_sets.get(name)
    }

    /// The port group of that name.
    pub fn port_group(&self, name: &Name) -> Option<&PortGroup>
        ensures { option_copied result ≡ at self.now.port_groups name.now }
    {
        self.port_groups.get(name)
    }

    /// The rule of that name.
    pub fn acl(&self, name: &Name) -> Option<&Acl>
        ensures { option_copied result ≡ at self.now.acls name.now }
    {
        self.acls.get(name)
    }

    /// The route of that name.
    pub fn route(&self, name: &Name) -> Option<&Route>
        ensures { option_copied result ≡ at self.now.routes name.now }
    {
        self.routes.get(name)
    }

    /// The NAT row of that name.
    pub fn nat(&self, name: &Name) -> Option<&Nat>
        ensures { option_copied result ≡ at self.now.nats name.now }
    {
        self.nats.get(name)
    }

    /// The load balancer of that name.
    pub fn load_balancer(&self, name: &Name) -> Option<&LoadBalancer>
        ensures { option_copied result ≡ at self.now.load_balancers name.now }
    {
        self.load_balancers.get(name)
    }

    /// The static binding of that name.
    pub fn static_mac(&self, name: &Name) -> Option<&StaticMac>
        ensures { option_copied result ≡ at self.now.static_macs name.now }
    {
        self.static_macs.get(name)
    }

    /// Each kind is in order of name, and the marks in theirs: a fact of the call, which does nothing.
    pub fn hold(&self)
        ensures { AreInOrder self.now }
    {
        let _many = self.switches.len();
    }

    /// All switches, in order of name.
    pub fn switches(&self) -> &BTreeMap<Name, Switch>
        ensures entries { result.now.entries ≡ self.now.switches }
        ensures sorted { IsByName self.now.switches }
    {
        &self.switches
    }

    /// All routers, in order of name.
    pub fn routers(&self) -> &BTreeMap<Name, Router>
        ensures entries { result.now.entries ≡ self.now.routers }
        ensures sorted { IsByName self.now.routers }
    {
        &self.routers
    }

    /// All router ports, in order of name.
    pub fn router_ports(&self) -> &BTreeMap<Name, RouterPort>
        ensures entries { result.now.entries ≡ self.now.router_ports }
        ensures sorted { IsByName self.now.router_ports }
    {
        &self.router_ports
    }

    /// All switch ports, in order of name.
    pub fn switch_ports(&self) -> &BTreeMap<Name, SwitchPort>
        ensures entries { result.now.entries ≡ self.now.switch_ports }
        ensures sorted { IsByName self.now.switch_ports }
    {
        &self.switch_ports
    }

    /// All address sets, in order of name.
    pub fn address_sets(&self) -> &BTreeMap<Name, AddressSet>
        ensures entries { result.now.entries ≡ self.now.address_sets }
        ensures sorted { IsByName self.now.address_sets }
    {
        &self.address_sets
    }

    /// All port groups, in order of name.
    pub fn port_groups(&self) -> &BTreeMap<Name, PortGroup>
        ensures entries { result.now.entries ≡ self.now.port_groups }
        ensures sorted { IsByName self.now.port_groups }
    {
        &self.port_groups
    }

    /// All rules, in order of name.
    pub fn acls(&self) -> &BTreeMap<Name, Acl>
        ensures entries { result.now.entries ≡ self.now.acls }
        ensures sorted { IsByName self.now.acls }
    {
        &self.acls
    }

    /// All routes, in order of name.
    pub fn routes(&self) -> &BTreeMap<Name, Route>
        ensures entries { result.now.entries ≡ self.now.routes }
        ensures sorted { IsByName self.now.routes }
    {
        &self.routes
    }

    /// All NAT rows, in order of name.
    pub fn nats(&self) -> &BTreeMap<Name, Nat>
        ensures entries { result.now.entries ≡ self.now.nats }
        ensures sorted { IsByName self.now.nats }
    {
        &self.nats
    }

    /// All load balancers, in order of name.
    pub fn load_balancers(&self) -> &BTreeMap<Name, LoadBalancer>
        ensures entries { result.now.entries ≡ self.now.load_balancers }
        ensures sorted { IsByName self.now.load_balancers }
    {
        &self.load_balancers
    }

    /// All static bindings, in order of name.
    pub fn static_macs(&self) -> &BTreeMap<Name, StaticMac>
        ensures entries { result.now.entries ≡ self.now.static_macs }
        ensures sorted { IsByName self.now.static_macs }
    {
        &self.static_macs
    }

    /// Whether a record of the kind has the name.
    pub fn is_there(&self, kind: Kind, name: &Name) -> bool
        ensures { result ≡ net.is_there self.now kind name.now }
    {
        match kind {
            Kind::Switch => self.switches.contains_key(name),
            Kind::Router => self.routers.contains_key(name),
            Kind::RouterPort => self.router_ports.contains_key(name),
            Kind::SwitchPort => self.switch_ports.contains_key(name),
            Kind::AddressSet => self.address_sets.contains_key(name),
            Kind::PortGroup => self.port_groups.contains_key(name),
            Kind::Acl => self.acls.contains_key(name),
            Kind::Route => self.routes.contains_key(name),
            Kind::Nat => self.nats.contains_key(name),
            Kind::LoadBalancer => self.load_balancers.contains_key(name),
            Kind::StaticMac => self.static_macs.contains_key(name),
        }
    }

    /// Whether the balancer's backend isn't marked offline.
    pub fn is_online(&self, balancer: &Name, backend: Backend) -> bool
        ensures { result ≡ net.is_online self.now balancer.now backend }
    {
        !self.offline.contains(&OfflineMark {
            balancer: *balancer,
            backend,
        })
    }

    /// The backends that are marked offline, in order of balancer, address and port.
    pub fn offline(&self) -> &BTreeSet<OfflineMark>
        ensures keys { result.now.keys ≡ self.now.offline }
        ensures sorted { IsStrictlySortedBy net.mark_cmp self.now.offline }
    {
        &self.offline
    }

    /// Puts the record at its name, in place of the one of its kind that is there. Without memory all stay as they were.
    pub fn put(&mut self, row: Record) -> Result<(), NoMemory>
        ensures ok { OnOk result (self.new ≡ net.with_record self.old row) }
        ensures err { OnErr result (self.new ≡ self.old) }
    {
        match row {
            Record::Switch(switch) => {
                self.switches.insert(switch.name, switch)?;
            }
            Record::Router(router) => {
                self.routers.insert(router.name, router)?;
            }
            Record::RouterPort(port) => {
                self.router_ports.insert(port.name, port)?;
            }
            Record::SwitchPort(port) => {
                self.switch_ports.insert(port.name, port)?;
            }
            Record::AddressSet(set) => {
                self.address_sets.insert(set.name, set)?;
            }
            Record::PortGroup(group) => {
                self.port_groups.insert(group.name, group)?;
            }
            Record::Acl(rule) => {
                self.acls.insert(rule.name, rule)?;
            }
            Record::Route(route) => {
                self.routes.insert(route.name, route)?;
            }
            Record::Nat(nat) => {
                self.nats.insert(nat.name, nat)?;
            }
            Record::LoadBalancer(balancer) => {
                self.load_balancers.insert(balancer.name, balancer)?;
            }
            Record::StaticMac(binding) => {
                self.static_macs.insert(binding.name, binding)?;
            }
        }
        Ok(())
    }

    /// Marks the balancer's backend online or offline. Without memory all stay as they were.
    pub fn mark(&mut self, balancer: &Name, backend: Backend, online: bool) -> Result<(), NoMemory>
        ensures ok { OnOk result (self.new ≡ net.marked self.old balancer.now backend online) }
        ensures err { OnErr result (self.new ≡ self.old) }
    {
        let mark = OfflineMark {
            balancer: *balancer,
            backend,
        };
        if online {
            self.offline.remove(&mark);
        } else {
            self.offline.insert(mark)?;
        }
        Ok(())
    }

    /// Takes the record of the kind and name out, and answers whether it was there. It takes no memory.
    pub fn remove(&mut self, kind: Kind, name: &Name) -> bool
        ensures there { result ≡ net.is_there self.old kind name.now }
        ensures gone { self.new ≡ net.without_record self.old kind name.now }
    {
        match kind {
            Kind::Switch => self.switches.remove(name).is_some(),
            Kind::Router => self.routers.remove(name).is_some(),
            Kind::RouterPort => self.router_ports.remove(name).is_some(),
            Kind::SwitchPort => self.switch_ports.remove(name).is_some(),
            Kind::AddressSet => self.address_sets.remove(name).is_some(),
            Kind::PortGroup => self.port_groups.remove(name).is_some(),
            Kind::Acl => self.acls.remove(name).is_some(),
            Kind::Route => self.routes.remove(name).is_some(),
            Kind::Nat => self.nats.remove(name).is_some(),
            Kind::LoadBalancer => self.load_balancers.remove(name).is_some(),
            Kind::StaticMac => self.static_macs.remove(name).is_some(),
        }
    }

    /// Equal records in memory of their own.
    pub fn copy(&self) -> Result<Records, NoMemory>
        ensures { IfOk result (λ r. r ≡ self.now) }
    {
        Ok(Records {
            switches: copy_of(&self.switches)?,
            routers: copy_of(&self.routers)?,
            router_ports: copy_of(&self.router_ports)?,
            switch_ports: copy_of(&self.switch_ports)?,
            address_sets: copy_of(&self.address_sets)?,
            port_groups: copy_of(&self.port_groups)?,
            acls: copy_of(&self.acls)?,
            routes: copy_of(&self.routes)?,
            nats: copy_of(&self.nats)?,
            load_balancers: copy_of(&self.load_balancers)?,
            static_macs: copy_of(&self.static_macs)?,
            offline: self.offline.clone()?,
        })
    }
}

// The same entries in memory of their own.
fn copy_of<V: Clone>(entries: &BTreeMap<Name, V>) -> Result<BTreeMap<Name, V>, NoMemory>
    requires clones { (x y : V) → V.is_clone x y → y ≡ x }
    ensures { IfOk result (λ m. m.entries ≡ entries.now.entries) }
{
    Ok(entries.clone()?)
}
