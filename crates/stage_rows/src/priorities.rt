//! The priorities of the rows in each stage. Of the rows that hold of a packet, the one of the greatest is taken. Rows of 0 hold of
//! every packet, so that each has one.

// ---- switches: s_admit

/// s_admit and s_track_out: drops what comes or leaves by a disabled port.
pub const DISABLED_PRIORITY: u16 = 120;

/// s_admit: drops what has the Ethernet address of a group as its source.
pub const GROUP_SOURCE_PRIORITY: u16 = 110;

/// s_admit: drops what has a tag of a VLAN (802.1Q).
pub const VLAN_PRIORITY: u16 = 100;

// ---- switches: s_port_sec

/// s_port_sec: passes what an entry of port security lets its Ethernet address send.
pub const MAY_SEND_PRIORITY: u16 = 90;

/// s_port_sec: drops other IPv4 and ARP from the Ethernet address of an entry.
pub const OTHER_SOURCE_PRIORITY: u16 = 85;

/// s_port_sec: passes what else comes from the Ethernet address of an entry.
pub const SENT_BY_PRIORITY: u16 = 80;

/// s_port_sec: drops what else comes by a port with port security.
pub const NOT_SENT_PRIORITY: u16 = 70;

// ---- switches: s_track and s_track_out

/// s_track and s_track_out: looks for the connections of what comes or leaves by a port.
pub const TRACKS_PRIORITY: u16 = 100;

// ---- switches: s_acl_in and s_acl_out

/// s_acl_in and s_acl_out: a rule of priority 0; each other stands as much higher as its own says.
pub const RULE_PRIORITY: u16 = 1_000;

// ---- switches: s_state_in and s_state_out

/// s_state_in and s_state_out: drops what isn't tracked and a rule drops or rejects.
pub const UNTRACKED_REFUSED_PRIORITY: u16 = 100;

/// s_state_in and s_state_out: passes what else isn't tracked, and what is and a rule lets through without a connection.
pub const UNTRACKED_PRIORITY: u16 = 90;

/// s_state_in and s_state_out: drops what belongs to no connection and can begin none; where the switch isn't stateful, only what a
/// rule drops or rejects.
pub const INVALID_PRIORITY: u16 = 80;

/// s_state_in and s_state_out: replies, which pass unless their connection is blocked.
pub const REPLY_PRIORITY: u16 = 70;

/// s_state_in and s_state_out: drops what begins a connection, or goes its way, and a rule drops or rejects.
pub const REFUSED_PRIORITY: u16 = 60;

/// s_state_in: spreads new connections to a virtual address over its backends.
pub const SWITCH_VIP_PRIORITY: u16 = 55;

/// s_state_in and s_state_out: passes what else begins a connection or goes its way.
pub const ALLOWED_PRIORITY: u16 = 50;

// ---- switches: s_arp

/// s_arp: passes requests for an address by the port that has it.
pub const OWN_REQUEST_PRIORITY: u16 = 100;

/// s_arp: answers other requests for an address of a port.
pub const REQUEST_PRIORITY: u16 = 50;

// ---- switches: s_lookup

/// s_lookup: sends requests for an address that a router port answers to the port before it.
pub const ANSWERED_PRIORITY: u16 = 80;

/// s_lookup: sends what else goes to a group's Ethernet address to all ports.
pub const FLOOD_PRIORITY: u16 = 70;

/// s_lookup: sends what goes to the Ethernet address of a port to it.
pub const ADDRESS_PRIORITY: u16 = 50;

// ---- switches: s_sec_out

/// s_sec_out: passes what goes to a group's Ethernet address by a port with port security.
pub const MULTICAST_PRIORITY: u16 = 90;

/// s_sec_out: passes what an entry of port security lets its Ethernet address get.
pub const MAY_GET_PRIORITY: u16 = 80;

/// s_sec_out: drops other IPv4 to the Ethernet address of an entry.
pub const OTHER_TARGET_PRIORITY: u16 = 75;

/// s_sec_out: passes what else goes to the Ethernet address of an entry.
pub const GOT_BY_PRIORITY: u16 = 70;

/// s_sec_out: drops what else leaves by a port with port security.
pub const NOT_GOT_PRIORITY: u16 = 60;

// ---- routers: r_admit

/// r_admit: passes what goes to the Ethernet address of the port by which it came, and ARP to a group.
pub const ROUTER_ADMIT_PRIORITY: u16 = 50;

// ---- routers: r_input

/// r_input: answers requests for an address that the port answers.
pub const ROUTER_REQUEST_PRIORITY: u16 = 100;

/// r_input: drops other ARP.
pub const OTHER_ARP_PRIORITY: u16 = 90;

/// r_input: drops what comes from or goes to an address that no router passes on.
pub const UNROUTABLE_PRIORITY: u16 = 80;

/// r_input: answers echo requests for an address of the router's own.
pub const ECHO_PRIORITY: u16 = 70;

/// r_input: drops what has a time to live of 0 or 1.
pub const SPENT_PRIORITY: u16 = 60;

/// r_input: passes what else is of IPv4.
pub const ROUTED_PRIORITY: u16 = 50;

// ---- routers: r_undo

/// r_undo: undoes the translation of sources, and looks for the connections of destinations.
pub const UNDO_PRIORITY: u16 = 100;

// ---- routers: r_dnat

/// r_dnat: translates by a connection that is known.
pub const KNOWN_DNAT_PRIORITY: u16 = 100;

/// r_dnat: spreads new connections to a virtual address over its backends.
pub const ROUTER_VIP_PRIORITY: u16 = 90;

/// r_dnat: translates the destination of new connections by a row of NAT.
pub const DNAT_PRIORITY: u16 = 80;

// ---- routers: r_own

/// r_own: drops what is for an address of the router's own.
pub const ROUTER_OWN_PRIORITY: u16 = 100;

// ---- routers: r_route

/// r_route: a route of length 0. Each bit of length is worth two more, and a network stands one above a route of its length.
pub const ROUTE_PRIORITY: u16 = 100;

// ---- routers: r_neighbour

/// r_neighbour: sends to a next hop whose Ethernet address is known.
pub const NEIGHBOUR_PRIORITY: u16 = 100;

// ---- routers: r_find

/// r_find: looks for the connections of sources, but for the router's own answers.
pub const FIND_PRIORITY: u16 = 100;

// ---- routers: r_snat

/// r_snat: translates by a connection that is known, for what goes its way.
pub const KNOWN_SNAT_PRIORITY: u16 = 200;

/// r_snat: a row of NAT for sources of a prefix of length 0. Each bit of length is worth one more.
pub const SNAT_PRIORITY: u16 = 100;
