//! Where packets go on that pass into another datapath.

/// Where a packet comes in that passes into another datapath: the keys of the datapath and of its port there, and the numbers of the
/// zones of a gateway router, 0 where it has none on the chassis.
#[derive(Clone, Copy, PartialEq, Eq, Debug)]
pub struct Beyond {
    pub dp: u32,
    pub in_port: u16,
    pub z_dnat: u16,
    pub z_snat: u16,
}
