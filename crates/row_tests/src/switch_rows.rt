//! Rows of a switch and of its port.
ghost use Rattle.row_tests.specs.Lines as line;

/// Port security: none, an Ethernet address alone, and one with an address and a prefix.
#[tactic(auto, using(crate::proofs::SwitchLines::no_security, crate::proofs::SwitchLines::address_alone, crate::proofs::SwitchLines::address_with_prefixes, crate::proofs::SwitchLines::leaving_by_prefixes))]
pub fn port_security()
    ensures none { line.no_security }
    ensures address { line.address_alone }
    ensures prefixes { line.address_with_prefixes }
    ensures leaving { line.leaving_by_prefixes }
{}

/// ARP, known addresses, and unknown ones.
#[tactic(auto, using(crate::proofs::SwitchLines::answers, crate::proofs::SwitchLines::looked_up, crate::proofs::SwitchLines::none_takes_unknown, crate::proofs::SwitchLines::one_takes_unknown))]
pub fn addresses()
    ensures answers { line.answers }
    ensures looked_up { line.looked_up }
    ensures none { line.none_takes_unknown }
    ensures one { line.one_takes_unknown }
{}

/// A stateful rule, one that is not, and a balancer.
#[tactic(auto, using(crate::proofs::SwitchLines::stateful_rule, crate::proofs::SwitchLines::tracked_port, crate::proofs::SwitchLines::untracked_port, crate::proofs::SwitchLines::stateful_switch, crate::proofs::SwitchLines::vip))]
pub fn rules_and_connections()
    ensures rule { line.stateful_rule }
    ensures tracked { line.tracked_port }
    ensures untracked { line.untracked_port }
    ensures switch_rows { line.stateful_switch }
    ensures vip { line.vip }
{}
