//! Rules on the packets of switches, and the names that their matches use.
ghost use Rattle.std.specs.Prelude.{◌≡◌, IfOk};

use match_language::expr::Expr;
use match_language::field::Direction;
use ovn_base::address::Birth;
pub use ovn_base::address::SetEntry;
use ovn_base::list::List;
use ovn_base::memory::NoMemory;
use ovn_base::name::Name;

/// Addresses that matches name by `$NAME`.
#[derive(Clone, PartialEq, Eq, Debug, Drop)]
pub struct AddressSet {
    pub name: Name,
    pub birth: Birth,
    pub addresses: List<SetEntry>,
}

/// Switch ports that matches name by `@NAME`, and to whose switches the group's rules apply.
#[derive(Clone, PartialEq, Eq, Debug, Drop)]
pub struct PortGroup {
    pub name: Name,
    pub birth: Birth,
    /// The names of its switch ports.
    pub ports: List<Name>,
}

/// What a rule does with the packets that it matches.
#[derive(Clone, Copy, PartialEq, Eq, Debug)]
pub enum RuleAction {
    Allow,
    AllowRelated,
    AllowStateless,
    Drop,
    Reject,
}

/// A rule on the packets of a switch, or of the switches of a port group (ovn-nb(5), ACL): one of the two is given.
#[derive(Clone, PartialEq, Eq, Debug, Drop)]
pub struct Acl {
    pub name: Name,
    pub birth: Birth,
    pub switch: Option<Name>,
    pub port_group: Option<Name>,
    pub direction: Direction,
    /// 0 to `MAX_ACL_PRIORITY`; the greater one wins.
    pub priority: u16,
    pub matching: Expr,
    pub action: RuleAction,
}

impl AddressSet {
    /// An equal set in memory of its own.
    pub fn copy(&self) -> Result<AddressSet, NoMemory>
        ensures { IfOk result (λ s. s ≡ self.now) }
    {
        Ok(AddressSet {
            name: self.name,
            birth: self.birth,
            addresses: self.addresses.copy()?,
        })
    }
}

impl PortGroup {
    /// An equal group in memory of its own.
    pub fn copy(&self) -> Result<PortGroup, NoMemory>
        ensures { IfOk result (λ g. g ≡ self.now) }
    {
        Ok(PortGroup {
            name: self.name,
            birth: self.birth,
            ports: self.ports.copy()?,
        })
    }
}

impl Acl {
    /// An equal rule in memory of its own.
    pub fn copy(&self) -> Result<Acl, NoMemory>
        ensures { IfOk result (λ r. r ≡ self.now) }
    {
        Ok(Acl {
            name: self.name,
            birth: self.birth,
            switch: self.switch,
            port_group: self.port_group,
            direction: self.direction,
            priority: self.priority,
            matching: self.matching.copy()?,
            action: self.action,
        })
    }
}
