//! Rows of rules are as the table of stages writes them.
ghost use Rattle.std.specs.Prelude.{◌≤◌};
ghost use Rattle.ovn_base.specs.declared.limits.TheConstants.{MAX_ACL_PRIORITY};

use crate::rule_unit::rule_row;
use logical_flows::print_flow::print_flow;
use match_language::field::Direction;
use match_language::reader::parse;
use nb_records::rule::{Acl, RuleAction};
use ovn_base::address::Birth;
use ovn_base::limits::MAX_ACL_PRIORITY;
use ovn_base::list::List;
use ovn_base::name::Name;
use std::alloc::Global;
use std::test::Fail;

// Whether the row of a rule of the switch s0 is the line.
fn prints(
    alloc: Global,
    direction: Direction,
    priority: u16,
    action: RuleAction,
    line: &str,
) -> Result<bool, Fail>
    requires { priority ≤ MAX_ACL_PRIORITY }
{
    let (Some(name), Some(switch)) = (Name::read(b"a1"), Name::read(b"s0")) else {
        return Ok(false);
    };
    let rule = Acl {
        name,
        birth: Birth(8),
        switch: Some(switch),
        port_group: None,
        direction,
        priority,
        matching: parse(alloc, b"inport == \"p1\" && udp", direction)?,
        action,
    };
    let row = rule_row(alloc, &rule)?;
    let mut out = Vec::new(alloc);
    let datapaths = List::from_slice(alloc, &[switch])?;
    print_flow(&row, datapaths.as_slice(), &mut out)?;
    Ok(out.as_slice() == line.as_bytes())
}

#[test]
fn rows_set_the_verdict(rt: HostRuntime) -> Result<(), Fail> {
    let alloc = rt.alloc();
    let line =
        "ingress s_acl_in priority=2000 rank=3 datapaths=s0 match=inport == \"p1\" && udp actions=set verdict=2;go 12\n";
    assert!(rt;
        prints(
            alloc,
            Direction::FromLport,
            1000,
            RuleAction::AllowRelated,
            line
        )?
    );
    let line =
        "ingress s_acl_in priority=33767 rank=6 datapaths=s0 match=inport == \"p1\" && udp actions=set verdict=5;go 12\n";
    assert!(rt;
        prints(
            alloc,
            Direction::FromLport,
            MAX_ACL_PRIORITY,
            RuleAction::Drop,
            line
        )?
    );
    let line =
        "egress s_acl_out priority=1000 rank=5 datapaths=s0 match=inport == \"p1\" && udp actions=set verdict=4;go 42\n";
    assert!(rt; prints(alloc, Direction::ToLport, 0, RuleAction::Reject, line)?);
    let line =
        "egress s_acl_out priority=1001 rank=4 datapaths=s0 match=inport == \"p1\" && udp actions=set verdict=3;go 42\n";
    assert!(rt;
        prints(
            alloc,
            Direction::ToLport,
            1,
            RuleAction::AllowStateless,
            line
        )?
    );
    let line =
        "egress s_acl_out priority=1001 rank=2 datapaths=s0 match=inport == \"p1\" && udp actions=set verdict=1;go 42\n";
    assert!(rt; prints(alloc, Direction::ToLport, 1, RuleAction::Allow, line)?);
    Ok(())
}
