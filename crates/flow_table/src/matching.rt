//! Whether a flow matches a packet with its registers, and which of two flows comes before the other.
ghost use Rattle.std.specs.Prelude.{◌↔◌, IsTrue};
ghost use Rattle.flow_table.specs.Matching.{Matches, Beats};

use crate::flow::SharedFlow;
use inet_packet::packet::Packet;
use inet_packet::regs::Regs;

/// Whether the flow is of the table and its cube holds the packet with its registers.
pub fn matches(flow: &SharedFlow, table: u8, regs: &Regs, packet: &Packet) -> bool
    ensures { IsTrue result ↔ Matches flow.now table regs.now packet.now }
{
    let flow = flow.get();
    flow.table == table && flow.cube.get().fits(regs, packet)
}

/// Whether the first flow comes before the second: by a greater priority, or by a greater rank at an equal one.
pub fn beats(f: &SharedFlow, g: &SharedFlow) -> bool
    ensures { IsTrue result ↔ Beats f.now g.now }
{
    let f = f.get();
    let g = g.get();
    f.priority > g.priority || f.priority == g.priority && f.rank > g.rank
}
