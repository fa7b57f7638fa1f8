ghost use Rattle.std.specs.Prelude.{◌≡◌, IfOk};

use crate::exact::exact_fact_clone;
use ovn_base::address::Ip4;
use ovn_base::list::List;
use ovn_base::memory::NoMemory;
use ovn_base::name::Name;

/// The name of a fact of the network that units read; it holds no value.
#[derive(Clone, Copy, PartialEq, Eq, PartialOrd, Ord, Hash, Debug)]
pub enum Fact {
    /// The record of a switch's port, its birth among it.
    SwitchPort(Name),
    /// The record of a router's port.
    RouterPort(Name),
    /// The addresses that a router's port answers.
    Answered(Name),
    /// Whether the switch is stateful.
    Stateful(Name),
    /// Whether the switch has a balancer.
    Balanced(Name),
    /// Whether the switch has an enabled port with the address `unknown`.
    TakesUnknown(Name),
    /// The record of a rule.
    Rule(Name),
    /// The record of a route.
    Route(Name),
    /// The records of the router's ports.
    PortsOf(Name),
    /// The Ethernet address at which a router's port reaches an IPv4 address.
    Neighbour { port: Name, ip: Ip4 },
    /// The Ethernet address of a router's port.
    PortMac(Name),
    /// The name of the router of a router's port.
    RouterOf(Name),
    /// The record of a row of NAT.
    Nat(Name),
    /// The record of a balancer.
    Balancer(Name),
    /// The offline marks of a balancer.
    Marks(Name),
    /// Whether the router is a gateway with a row of NAT or a balancer.
    Translates(Name),
}

/// Facts in order.
#[derive(PartialEq, Eq, Hash, Clone, Debug, Drop)]
pub struct FactSet {
    pub facts: List<Fact>,
}

impl FactSet {
    /// Equal facts in memory of their own.
    pub fn copy(&self) -> Result<FactSet, NoMemory>
        ensures { IfOk result (λ s. s ≡ self.now) }
    {
        exact_fact_clone();
        Ok(FactSet {
            facts: self.facts.copy()?,
        })
    }
}
