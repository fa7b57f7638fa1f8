ghost use Rattle.std.specs.Prelude.{◌≡◌, List, IfSome, IfNone, OnOk, slice_get};
ghost use Rattle.std.specs.Option.{option_copied};
ghost use Rattle.ovn_base.specs.declared.delta.Delta.{Delta};
ghost use Rattle.flow_table.specs.declared.flow.Flow.{Flow};
ghost use Rattle.flow_table.specs.Matching.{IsBest, NoneMatches};
ghost use Rattle.ovn_base.specs.lists.Once.{EachOnce};
ghost use Rattle.flow_table.specs.Change.{IsDeltaOf, IsReplaced};

use crate::flow::SharedFlow;
use inet_packet::packet::Packet;
use inet_packet::regs::Regs;
use ovn_base::delta::Delta;
use ovn_base::memory::NoMemory;

/// Holds flows, each once, and finds the one that a packet takes.
pub trait Lookup {
    /// The flows that are held.
    ghost flows: { Self → List Flow };

    /// The delta is one of the flows that are held, and can be made without memory.
    ghost ready: { Self → Delta Flow → Type 0 };

    /// An unbeaten flow of the table that matches; `None` exactly where none matches. No memory is taken.
    fn lookup(&self, table: u8, regs: &Regs, packet: &Packet) -> Option<&SharedFlow>
        ensures found { IfSome result (λ f. IsBest (flows self.now) table regs.now packet.now f.now) }
        ensures none { IfNone result (NoneMatches (flows self.now) table regs.now packet.now) };

    /// Makes ready for the delta. The flows that are held stay, also without memory.
    fn prepare(&mut self, delta: &Delta<SharedFlow>) -> Result<(), NoMemory>
        requires { IsDeltaOf (flows self.old) delta.now }
        ensures same { flows self.new ≡ flows self.old }
        ensures ready { OnOk result (ready self.new delta.now) };

    /// Takes flows out and puts others in. No memory is taken.
    fn replace(&mut self, delta: Delta<SharedFlow>)
        requires { ready self.old delta }
        ensures { IsReplaced (flows self.old) delta (flows self.new) };

    /// Each held flow at exactly one index below their number; `None` past the last. No memory is taken.
    fn flow(&self, index: usize) -> Option<&SharedFlow>
        ensures flow { option_copied result ≡ slice_get (flows self.now) index }
        ensures once { EachOnce (flows self.now) };
}
