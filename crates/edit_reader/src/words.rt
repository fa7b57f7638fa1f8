// Texts that are one of a few words, and names.
ghost use Rattle.std.specs.Prelude.{◌≡◌, IfOk, IfSome};
ghost use Rattle.ovn_base.specs.names.NameText.{IsName, spelled_name};
ghost use Rattle.edit_reader.specs.Grammars as spec;

use crate::field::Grammar;
use match_language::field::Direction;
use nb_records::balancer::BalancerProtocol;
use nb_records::kinds::Kind;
use nb_records::router::NatKind;
use nb_records::rule::RuleAction;
use nb_records::switch::PortKind;
use ovn_base::memory::NoMemory;
use ovn_base::name::Name;
use std::alloc::Global;

/// Names.
#[derive(Drop)]
pub struct NameText;

impl Grammar for NameText {
    type Of = Name;

    ghost spelled = { λ _. spelled_name };

    ghost suits = { λ _ n. IsName n };

    fn spelled(&self, _alloc: Global, text: &[u8]) -> Result<Option<Name>, NoMemory> {
        Ok(Name::read(text))
    }
}

/// The kind of records of that name.
#[tactic(auto, unfolding(crate::specs::Grammars::spelled_kind))]
pub fn kind_of(text: &[u8]) -> Option<Kind>
    ensures { result ≡ spec.spelled_kind text.now }
{
    if b"switch".as_slice() == text {
        Some(Kind::Switch)
    } else if b"router".as_slice() == text {
        Some(Kind::Router)
    } else if b"router_port".as_slice() == text {
        Some(Kind::RouterPort)
    } else if b"switch_port".as_slice() == text {
        Some(Kind::SwitchPort)
    } else if b"address_set".as_slice() == text {
        Some(Kind::AddressSet)
    } else if b"port_group".as_slice() == text {
        Some(Kind::PortGroup)
    } else if b"acl".as_slice() == text {
        Some(Kind::Acl)
    } else if b"route".as_slice() == text {
        Some(Kind::Route)
    } else if b"nat".as_slice() == text {
        Some(Kind::Nat)
    } else if b"load_balancer".as_slice() == text {
        Some(Kind::LoadBalancer)
    } else if b"static_mac".as_slice() == text {
        Some(Kind::StaticMac)
    } else {
        None
    }
}

#[tactic(auto, unfolding(crate::specs::Grammars::spelled_port_kind))]
fn port_kind_of(text: &[u8]) -> Option<PortKind>
    ensures { result ≡ spec.spelled_port_kind text.now }
{
    if b"".as_slice() == text {
        Some(PortKind::Virtual)
    } else if b"router".as_slice() == text {
        Some(PortKind::Router)
    } else {
        None
    }
}

#[tactic(auto, unfolding(crate::specs::Grammars::spelled_nat_kind))]
fn nat_kind_of(text: &[u8]) -> Option<NatKind>
    ensures { result ≡ spec.spelled_nat_kind text.now }
{
    if b"snat".as_slice() == text {
        Some(NatKind::Snat)
    } else if b"dnat".as_slice() == text {
        Some(NatKind::Dnat)
    } else if b"dnat_and_snat".as_slice() == text {
        Some(NatKind::DnatAndSnat)
    } else {
        None
    }
}

#[tactic(auto, unfolding(crate::specs::Grammars::spelled_direction))]
fn direction_of(text: &[u8]) -> Option<Direction>
    ensures { result ≡ spec.spelled_direction text.now }
{
    if b"from-lport".as_slice() == text {
        Some(Direction::FromLport)
    } else if b"to-lport".as_slice() == text {
        Some(Direction::ToLport)
    } else {
        None
    }
}

#[tactic(auto, unfolding(crate::specs::Grammars::spelled_action))]
fn action_of(text: &[u8]) -> Option<RuleAction>
    ensures { result ≡ spec.spelled_action text.now }
{
    if b"allow".as_slice() == text {
        Some(RuleAction::Allow)
    } else if b"allow-related".as_slice() == text {
        Some(RuleAction::AllowRelated)
    } else if b"allow-stateless".as_slice() == text {
        Some(RuleAction::AllowStateless)
    } else if b"drop".as_slice() == text {
        Some(RuleAction::Drop)
    } else if b"reject".as_slice() == text {
        Some(RuleAction::Reject)
    } else {
        None
    }
}

#[tactic(auto, unfolding(crate::specs::Grammars::spelled_protocol))]
fn protocol_of(text: &[u8]) -> Option<BalancerProtocol>
    ensures { result ≡ spec.spelled_protocol text.now }
{
    if b"tcp".as_slice() == text {
        Some(BalancerProtocol::Tcp)
    } else if b"udp".as_slice() == text {
        Some(BalancerProtocol::Udp)
    } else {
        None
    }
}

/// What is behind a switch port: nothing in the text, or `router`.
#[derive(Drop)]
pub struct PortKindText;

impl Grammar for PortKindText {
    type Of = PortKind;

    ghost spelled = { λ _. spec.spelled_port_kind };

    ghost suits = { λ _ _. Unit {0} };

    fn spelled(&self, _alloc: Global, text: &[u8]) -> Result<Option<PortKind>, NoMemory> {
        Ok(port_kind_of(text))
    }
}

/// Which way a NAT row translates.
#[derive(Drop)]
pub struct NatKindText;

impl Grammar for NatKindText {
    type Of = NatKind;

    ghost spelled = { λ _. spec.spelled_nat_kind };

    ghost suits = { λ _ _. Unit {0} };

    fn spelled(&self, _alloc: Global, text: &[u8]) -> Result<Option<NatKind>, NoMemory> {
        Ok(nat_kind_of(text))
    }
}

/// The direction of a rule.
#[derive(Drop)]
pub struct DirectionText;

impl Grammar for DirectionText {
    type Of = Direction;

    ghost spelled = { λ _. spec.spelled_direction };

    ghost suits = { λ _ _. Unit {0} };

    fn spelled(&self, _alloc: Global, text: &[u8]) -> Result<Option<Direction>, NoMemory> {
        Ok(direction_of(text))
    }
}

/// What a rule does.
#[derive(Drop)]
pub struct ActionText;

impl Grammar for ActionText {
    type Of = RuleAction;

    ghost spelled = { λ _. spec.spelled_action };

    ghost suits = { λ _ _. Unit {0} };

    fn spelled(&self, _alloc: Global, text: &[u8]) -> Result<Option<RuleAction>, NoMemory> {
        Ok(action_of(text))
    }
}

/// The protocol of a balancer.
#[derive(Drop)]
pub struct ProtocolText;

impl Grammar for ProtocolText {
    type Of = BalancerProtocol;

    ghost spelled = { λ _. spec.spelled_protocol };

    ghost suits = { λ _ _. Unit {0} };

    fn spelled(&self, _alloc: Global, text: &[u8]) -> Result<Option<BalancerProtocol>, NoMemory> {
        Ok(protocol_of(text))
    }
}
