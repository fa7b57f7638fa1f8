//! Flows in a list: taking some out, and finding the best.
ghost use Rattle.std.specs.Prelude.{◌≡◌, ◌≤◌, ◌↔◌, IfSome, IfNone, vec_len};
ghost use Rattle.std.specs.Vec.{vec_capacity};
ghost use Rattle.ovn_base.specs.lists.Among.{Among};
ghost use Rattle.ovn_base.specs.lists.Once.{EachOnce};
ghost use Rattle.flow_table.specs.declared.flow.Flow.{Flow};
ghost use Rattle.flow_table.specs.Matching.{IsBest, NoneMatches};

use crate::exact::exact_flow;
use crate::flow::SharedFlow;
use crate::matching::{beats, matches};
use inet_packet::packet::Packet;
use inet_packet::regs::Regs;
use ovn_base::list::List;

// Takes the flows that go out of the flows.
pub(crate) fn take_out(flows: &mut Vec<SharedFlow>, gone: &List<SharedFlow>)
    ensures kept { (f : Flow) → Among f flows.new.items ↔ (Among f flows.old.items × ¬ Among f gone.now) }
    ensures once { EachOnce flows.old.items → EachOnce flows.new.items }
    ensures len { vec_len flows.new ≤ vec_len flows.old }
    ensures capacity { vec_capacity flows.new ≡ vec_capacity flows.old }
{
    exact_flow();
    if gone.is_empty() {
        return;
    }
    flows.retain(|flow| !gone.as_slice().contains(flow));
}

// The first of the flows that match and are beaten by no other.
pub(crate) fn best_of<'a>(
    flows: &'a [SharedFlow],
    table: u8,
    regs: &Regs,
    packet: &Packet,
) -> Option<&'a SharedFlow>
    ensures found { IfSome result (λ f. IsBest flows.now table regs.now packet.now f.now) }
    ensures none { IfNone result (NoneMatches flows.now table regs.now packet.now) }
{
    let mut best: Option<&'a SharedFlow> = None;
    for flow in flows {
        if matches(flow, table, regs, packet) {
            best = match best {
                Some(held) if !beats(flow, held) => Some(held),
                _ => Some(flow),
            };
        }
    }
    best
}
