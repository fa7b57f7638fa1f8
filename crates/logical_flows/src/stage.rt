//! The pipelines of a switch or router, and the stages of which they consist.
ghost use Rattle.std.specs.Prelude.{◌≡◌};
ghost use Rattle.logical_flows.specs.Stages as spec;

use ovn_base::stages::{
    ACL_TABLE, ADMIT_TABLE, ARP_TABLE, EGRESS_ACL_TABLE, EGRESS_SECURITY_TABLE, EGRESS_STATE_TABLE,
    EGRESS_TRACK_TABLE, LOOKUP_TABLE, PORT_SECURITY_TABLE, REMOTE_TABLE, ROUTER_DNAT_TABLE,
    ROUTER_INPUT_TABLE, ROUTER_OWN_TABLE, ROUTER_ROUTE_TABLE, ROUTER_SNAT_TABLE, ROUTER_UNDO_TABLE,
    STATE_TABLE, TRACK_TABLE,
};

/// The way through a switch or router on which a stage lies.
#[derive(Clone, Copy, PartialEq, Eq, Hash, Debug)]
pub enum Pipeline {
    /// From the port of entry to the port or group to which the packet goes.
    Ingress,
    /// From there to the port by which it leaves.
    Egress,
}

/// A stage: one table of a pipeline of switches, or of one of routers.
#[derive(Clone, Copy, PartialEq, Eq, Hash, Debug)]
pub enum Stage {
    /// Switch, ingress: which packets are admitted at all.
    SwitchAdmit,
    /// Switch, ingress: which senders a port takes.
    SwitchPortSecurity,
    /// Switch, ingress: connections are found.
    SwitchTrack,
    /// Switch, ingress: what the from-lport rules say.
    SwitchAclIn,
    /// Switch, ingress: what the rules and the connection's state decide.
    SwitchStateIn,
    /// Switch, ingress: answers to ARP.
    SwitchArp,
    /// Switch, ingress: the port or group that an address stands for.
    SwitchLookup,
    /// Switch, egress: connections are found.
    SwitchTrackOut,
    /// Switch, egress: what the to-lport rules say.
    SwitchAclOut,
    /// Switch, egress: what the rules and the connection's state decide.
    SwitchStateOut,
    /// Switch, egress: which packets a port is given.
    SwitchSecurityOut,
    /// Router, ingress: which packets are for the router.
    RouterAdmit,
    /// Router, ingress: answers to ARP and echo requests, and what no router passes on.
    RouterInput,
    /// Router, ingress: source NAT is undone.
    RouterUndo,
    /// Router, ingress: destination NAT and balancers.
    RouterDnat,
    /// Router, ingress: what is for the router itself.
    RouterOwn,
    /// Router, ingress: networks and routes.
    RouterRoute,
    /// Router, ingress: the Ethernet address of the next hop.
    RouterNeighbour,
    /// Router, egress: the connection of source NAT is found.
    RouterFind,
    /// Router, egress: source NAT.
    RouterSnat,
}

impl Pipeline {
    /// The pipeline's name in a text.
    pub fn name(self) -> &'static [u8]
        ensures { result.now ≡ spec.pipeline_name self }
    {
        match self {
            Pipeline::Ingress => b"ingress",
            Pipeline::Egress => b"egress",
        }
    }
}

impl Stage {
    /// The stage's name in a text.
    pub fn name(self) -> &'static [u8]
        ensures { result.now ≡ spec.stage_name self }
    {
        match self {
            Stage::SwitchAdmit => b"s_admit",
            Stage::SwitchPortSecurity => b"s_port_sec",
            Stage::SwitchTrack => b"s_track",
            Stage::SwitchAclIn => b"s_acl_in",
            Stage::SwitchStateIn => b"s_state_in",
            Stage::SwitchArp => b"s_arp",
            Stage::SwitchLookup => b"s_lookup",
            Stage::SwitchTrackOut => b"s_track_out",
            Stage::SwitchAclOut => b"s_acl_out",
            Stage::SwitchStateOut => b"s_state_out",
            Stage::SwitchSecurityOut => b"s_sec_out",
            Stage::RouterAdmit => b"r_admit",
            Stage::RouterInput => b"r_input",
            Stage::RouterUndo => b"r_undo",
            Stage::RouterDnat => b"r_dnat",
            Stage::RouterOwn => b"r_own",
            Stage::RouterRoute => b"r_route",
            Stage::RouterNeighbour => b"r_neighbour",
            Stage::RouterFind => b"r_find",
            Stage::RouterSnat => b"r_snat",
        }
    }

    /// The number of the stage's table.
    pub fn table(self) -> u8
        ensures { result ≡ spec.stage_table self }
    {
        match self {
            Stage::SwitchAdmit | Stage::RouterAdmit => ADMIT_TABLE,
            Stage::SwitchPortSecurity => PORT_SECURITY_TABLE,
            Stage::SwitchTrack => TRACK_TABLE,
            Stage::SwitchAclIn => ACL_TABLE,
            Stage::SwitchStateIn => STATE_TABLE,
            Stage::SwitchArp => ARP_TABLE,
            Stage::RouterInput => ROUTER_INPUT_TABLE,
            Stage::RouterUndo => ROUTER_UNDO_TABLE,
            Stage::RouterDnat => ROUTER_DNAT_TABLE,
            Stage::RouterOwn => ROUTER_OWN_TABLE,
            Stage::RouterRoute => ROUTER_ROUTE_TABLE,
            Stage::SwitchLookup | Stage::RouterNeighbour => LOOKUP_TABLE,
            Stage::SwitchTrackOut | Stage::RouterFind => EGRESS_TRACK_TABLE,
            Stage::SwitchAclOut => EGRESS_ACL_TABLE,
            Stage::SwitchStateOut => EGRESS_STATE_TABLE,
            Stage::SwitchSecurityOut => EGRESS_SECURITY_TABLE,
            Stage::RouterSnat => ROUTER_SNAT_TABLE,
        }
    }

    /// The pipeline on which the stage lies.
    pub fn pipeline(self) -> Pipeline
        ensures { result ≡ spec.stage_pipeline self }
    {
        if self.table() < REMOTE_TABLE {
            Pipeline::Ingress
        } else {
            Pipeline::Egress
        }
    }
}
