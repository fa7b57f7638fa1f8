//! The numbers of the tables that a packet goes through.

/// The first table: what came in at a port or out of a tunnel.
pub const ENTRY_TABLE: u8 = 0;

/// The first table of the ingress pipeline: which packets are admitted.
pub const ADMIT_TABLE: u8 = 8;

/// Ingress of a switch: which senders a port takes.
pub const PORT_SECURITY_TABLE: u8 = 9;

/// Ingress of a switch: connections are found.
pub const TRACK_TABLE: u8 = 10;

/// Ingress of a switch: the from-lport rules.
pub const ACL_TABLE: u8 = 11;

/// Ingress of a switch: what the rules and the connection's state decide.
pub const STATE_TABLE: u8 = 12;

/// Ingress of a switch: answers to ARP.
pub const ARP_TABLE: u8 = 13;

/// Ingress of a router: answers to ARP and echo requests, and what no router passes on.
pub const ROUTER_INPUT_TABLE: u8 = 9;

/// Ingress of a router: source NAT is undone.
pub const ROUTER_UNDO_TABLE: u8 = 10;

/// Ingress of a router: destination NAT and balancers.
pub const ROUTER_DNAT_TABLE: u8 = 11;

/// Ingress of a router: what is for the router itself.
pub const ROUTER_OWN_TABLE: u8 = 12;

/// Ingress of a router: networks and routes.
pub const ROUTER_ROUTE_TABLE: u8 = 13;

/// The last table of the ingress pipeline: the port that an address stands for, or in a router the Ethernet address of the next hop.
pub const LOOKUP_TABLE: u8 = 14;

/// Frames to other chassis.
pub const REMOTE_TABLE: u8 = 32;

/// Ports on this chassis.
pub const LOCAL_TABLE: u8 = 33;

/// Packets that would leave by the port that they came in at.
pub const LOOPBACK_TABLE: u8 = 34;

/// The first table of the egress pipeline: connections are found.
pub const EGRESS_TRACK_TABLE: u8 = 40;

/// Egress of a switch: the to-lport rules.
pub const EGRESS_ACL_TABLE: u8 = 41;

/// Egress of a switch: what the rules and the connection's state decide.
pub const EGRESS_STATE_TABLE: u8 = 42;

/// The last table of the egress pipeline of a switch: which packets a port is given.
pub const EGRESS_SECURITY_TABLE: u8 = 43;

/// The last table of the egress pipeline of a router: source NAT.
pub const ROUTER_SNAT_TABLE: u8 = 41;

/// Output at a port.
pub const OUTPUT_TABLE: u8 = 64;
