//! Tuples by their ends.
use conn_table::tuple::{Protocol, Tuple};
use ovn_base::address::Ip4;

pub(crate) const ONE: Ip4 = Ip4(0x0a00_0001);

pub(crate) const TWO: Ip4 = Ip4(0x0a00_0002);

pub(crate) const THREE: Ip4 = Ip4(0x0a00_0003);

// The protocol, and the address and port of the source and of the destination.
pub(crate) type Ends = (Protocol, Ip4, u16, Ip4, u16);

pub(crate) fn tuple(ends: Ends) -> Tuple {
    let (protocol, src, src_port, dst, dst_port) = ends;
    Tuple {
        protocol,
        src,
        src_port,
        dst,
        dst_port,
    }
}
