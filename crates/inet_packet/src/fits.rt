//! Whether a cube holds a packet with its registers.
ghost use Rattle.std.specs.Prelude.{◌≡◌, ◌↔◌, IsTrue};
ghost use Rattle.inet_packet.specs.Fits.{BitsFit, EntryFits, FitsPlace, FitsZones, FitsState, FitsEther, FitsIp, FitsPorts, FitsIcmp, FitsArp, CubeFits};

use crate::cube::{Bits, Cube};
use crate::packet::{Body, Packet};
use crate::regs::{At, Regs};

impl Bits {
    /// Whether the bits that count have the value in `n`.
    pub fn fits(&self, n: u64) -> bool
        ensures { IsTrue result ↔ BitsFit self.now n }
    {
        n & self.mask == self.value
    }
}

fn entry_fits(wanted: &Option<At>, at: &At) -> bool
    ensures { IsTrue result ↔ EntryFits wanted.now at.now }
{
    match wanted {
        None => true,
        Some(wanted) => at == wanted,
    }
}

impl Cube {
    /// Whether the cube holds the packet with its registers.
    pub fn fits(&self, regs: &Regs, packet: &Packet) -> bool
        ensures { IsTrue result ↔ CubeFits self.now regs.now packet.now }
    {
        entry_fits(&self.at, &regs.at)
            && fits_place(self, regs)
            && fits_zones(self, regs)
            && fits_state(self, regs)
            && fits_ether(self, packet)
            && fits_ip(self, &packet.body)
            && fits_ports(self, &packet.body)
            && fits_icmp(self, &packet.body)
            && fits_arp(self, &packet.body)
    }
}

fn fits_place(cube: &Cube, regs: &Regs) -> bool
    ensures { IsTrue result ↔ FitsPlace cube.now regs.now }
{
    cube.dp.fits(u64::from(regs.dp))
        && cube.in_port.fits(u64::from(regs.in_port))
        && cube.out_port.fits(u64::from(regs.out_port))
        && cube.next.fits(u64::from(regs.next))
}

fn fits_zones(cube: &Cube, regs: &Regs) -> bool
    ensures { IsTrue result ↔ FitsZones cube.now regs.now }
{
    cube.z_in.fits(u64::from(regs.z_in))
        && cube.z_out.fits(u64::from(regs.z_out))
        && cube.z_dnat.fits(u64::from(regs.z_dnat))
        && cube.z_snat.fits(u64::from(regs.z_snat))
}

fn fits_state(cube: &Cube, regs: &Regs) -> bool
    ensures { IsTrue result ↔ FitsState cube.now regs.now }
{
    cube.state.fits(u64::from(regs.state))
        && cube.verdict.fits(u64::from(regs.verdict))
        && cube.tier.fits(u64::from(regs.tier))
        && cube.flags.fits(u64::from(regs.flags.0))
}

fn fits_ether(cube: &Cube, packet: &Packet) -> bool
    ensures { IsTrue result ↔ FitsEther cube.now packet.now }
{
    cube.eth_src.fits(packet.src.number())
        && cube.eth_dst.fits(packet.dst.number())
        && cube.eth_type.fits(u64::from(packet.body.ether_type()))
}

fn fits_ip(cube: &Cube, body: &Body) -> bool
    ensures { IsTrue result ↔ FitsIp cube.now body.now }
{
    cube.ip4_src.fits(u64::from(body.ip4_src()))
        && cube.ip4_dst.fits(u64::from(body.ip4_dst()))
        && cube.ip_proto.fits(u64::from(body.ip_proto()))
        && cube.ip_ttl.fits(u64::from(body.ip_ttl()))
}

fn fits_ports(cube: &Cube, body: &Body) -> bool
    ensures { IsTrue result ↔ FitsPorts cube.now body.now }
{
    cube.tcp_src.fits(u64::from(body.tcp_src()))
        && cube.tcp_dst.fits(u64::from(body.tcp_dst()))
        && cube.udp_src.fits(u64::from(body.udp_src()))
        && cube.udp_dst.fits(u64::from(body.udp_dst()))
}

fn fits_icmp(cube: &Cube, body: &Body) -> bool
    ensures { IsTrue result ↔ FitsIcmp cube.now body.now }
{
    cube.icmp4_type.fits(u64::from(body.icmp4_type()))
        && cube.icmp4_code.fits(u64::from(body.icmp4_code()))
}

fn fits_arp(cube: &Cube, body: &Body) -> bool
    ensures { IsTrue result ↔ FitsArp cube.now body.now }
{
    cube.arp_op.fits(u64::from(body.arp_op()))
        && cube.arp_spa.fits(u64::from(body.arp_spa()))
        && cube.arp_tpa.fits(u64::from(body.arp_tpa()))
        && cube.arp_sha.fits(body.arp_sha())
        && cube.arp_tha.fits(body.arp_tha())
}
