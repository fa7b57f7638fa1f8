//! Texts of matches and of actions, as the formats of the tables write them.
use inet_packet::regs::Reg;
use logical_flows::action::{Action, ZoneOf};
use logical_flows::flow::RegIs;
use logical_flows::print_action::print_actions;
use logical_flows::print_match::print_match;
use match_language::field::Direction;
use match_language::reader::parse;
use std::test::Fail;

const ASKED: [RegIs; 2] = [
    RegIs {
        reg: Reg::Tracked,
        value: 1,
    },
    RegIs {
        reg: Reg::State,
        value: 1,
    },
];

// Registers stand in their order, and alternatives in parentheses.
#[test]
fn a_match_has_a_text(rt: HostRuntime) -> Result<(), Fail> {
    let alloc = rt.alloc();
    let matching = parse(alloc, b"ip4||arp", Direction::ToLport)?;
    let mut out = Vec::from_slice(alloc, b"match=")?;
    print_match(&ASKED, &matching, &mut out)?;
    assert_eq!(rt;
        out.as_slice(),
        b"match=state == 1 && tracked == 1 && (ip4 || arp)".as_slice()
    );
    Ok(())
}

// A row of s_track finds the connection and passes.
#[test]
fn actions_have_a_text(rt: HostRuntime) -> Result<(), Fail> {
    let alloc = rt.alloc();
    let set = Action::Set {
        reg: Reg::Tracked,
        value: 1,
    };
    let actions = vec![in alloc; Action::Find(ZoneOf::In), set, Action::Go(11)]?;
    let mut out = Vec::from_slice(alloc, b"actions=")?;
    print_actions(actions.as_slice(), &mut out)?;
    assert_eq!(rt;
        out.as_slice(),
        b"actions=find in;set tracked=1;go 11".as_slice()
    );
    Ok(())
}
