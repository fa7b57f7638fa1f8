//! Lines of flows are as the formats of the tables write them.
use flow_table::flow::Cause;
use inet_packet::regs::Reg;
use logical_flows::action::{Action, ZoneOf};
use logical_flows::flow::{LFlow, RegIs};
use logical_flows::print_flow::print_flow;
use logical_flows::stage::Stage;
use match_language::field::Direction;
use match_language::reader::parse;
use ovn_base::address::{Backend, Ip4, Mac};
use ovn_base::list::List;
use ovn_base::memory::NoMemory;
use ovn_base::name::Name;
use std::alloc::Global;
use std::test::Fail;

const M: Mac = Mac([0x0a, 0, 0, 0, 0, 1]);

const I: Ip4 = Ip4(0x0a00_0001);

const VIP: Backend = Backend {
    ip: Ip4(0x0a00_0064),
    port: 80,
};

const BACKENDS: [Backend; 2] = [
    Backend {
        ip: Ip4(0x0a00_0002),
        port: 8080,
    },
    Backend {
        ip: Ip4(0x0a00_0003),
        port: 8080,
    },
];

// A flow but for what it does, and its line on the switches s0 and s1.
#[derive(Clone, Copy)]
struct Row {
    stage: Stage,
    priority: u16,
    regs: &'static [RegIs],
    matching: &'static [u8],
    line: &'static str,
}

fn name(text: &str) -> Result<Name, NoMemory> {
    Name::read(text.as_bytes()).ok_or(NoMemory)
}

// The flow of the row that does the actions.
fn flow(alloc: Global, row: &Row, actions: Vec<Action>) -> Result<LFlow, NoMemory> {
    let regs = List::from_slice(alloc, row.regs)?;
    match parse(alloc, row.matching, Direction::ToLport) {
        Ok(matching) => {
            Ok(LFlow {
                pipeline: row.stage.pipeline(),
                stage: row.stage,
                priority: row.priority,
                rank: 0,
                regs,
                matching,
                actions: List::from_vec(actions),
            })
        }
        Err(_) => Err(NoMemory),
    }
}

// The line of the flow on the switches s0 and s1.
fn line(alloc: Global, flow: &LFlow) -> Result<Vec<u8>, NoMemory> {
    let datapaths = [name("s0")?, name("s1")?];
    let mut out = Vec::new(alloc);
    print_flow(flow, &datapaths, &mut out)?;
    Ok(out)
}

// Whether the line of a copy of the flow that does the actions is that of the row.
fn prints(alloc: Global, row: &Row, actions: Vec<Action>) -> Result<bool, NoMemory> {
    let flow = flow(alloc, row, actions)?;
    let copy = flow.copy()?;
    let line = line(alloc, &copy)?;
    Ok(line.as_slice() == row.line.as_bytes())
}

const ADMITS: Row = Row {
    stage: Stage::SwitchAdmit,
    priority: 0,
    regs: &[],
    matching: b"1",
    line: "ingress s_admit priority=0 rank=0 datapaths=s0,s1 match=1 actions=go 9\n",
};

const PASSES_REPLIES: Row = Row {
    stage: Stage::SwitchStateIn,
    priority: 70,
    regs: &[
        RegIs {
            reg: Reg::Blocked,
            value: 0,
        },
        RegIs {
            reg: Reg::State,
            value: 3,
        },
    ],
    matching: b"1",
    line: "ingress s_state_in priority=70 rank=0 datapaths=s0,s1 match=state == 3 && blocked == 0 actions=touch;translate;go 13\n",
};

const FINDS: Row = Row {
    stage: Stage::RouterFind,
    priority: 100,
    regs: &[RegIs {
        reg: Reg::Own,
        value: 0,
    }],
    matching: b"ip4",
    line: "egress r_find priority=100 rank=0 datapaths=s0,s1 match=own == 0 && ip4 actions=find snat;go 41\n",
};

#[test]
fn a_match_is_printed_behind_its_registers(rt: HostRuntime) -> Result<(), Fail> {
    let alloc = rt.alloc();
    let go = vec![in alloc; Action::Go(9)]?;
    assert!(rt; prints(alloc, &ADMITS, go)?);
    let pass = vec![in alloc; Action::Touch, Action::Translate, Action::Go(13)]?;
    assert!(rt; prints(alloc, &PASSES_REPLIES, pass)?);
    let find = vec![in alloc; Action::Find(ZoneOf::Snat), Action::Go(41)]?;
    assert!(rt; prints(alloc, &FINDS, find)?);
    Ok(())
}

const DROPS_LOOPBACK: Row = Row {
    stage: Stage::RouterInput,
    priority: 80,
    regs: &[],
    matching: b"ip4.src == 127.0.0.0/8 || ip4.dst == 127.0.0.0/8",
    line: "ingress r_input priority=80 rank=0 datapaths=s0,s1 match=(ip4.src == 127.0.0.0/8 || ip4.dst == 127.0.0.0/8) actions=drop bad-ip\n",
};

const DROPS_OTHER_IPS: Row = Row {
    stage: Stage::SwitchPortSecurity,
    priority: 85,
    regs: &[],
    matching: b"inport == \"p1\" && eth.src == 0a:00:00:00:00:01 && (ip4 || arp)",
    line: "ingress s_port_sec priority=85 rank=0 datapaths=s0,s1 match=inport == \"p1\" && eth.src == 0a:00:00:00:00:01 && (ip4 || arp) actions=drop port-security\n",
};

#[test]
fn alternatives_stand_in_parentheses(rt: HostRuntime) -> Result<(), Fail> {
    let alloc = rt.alloc();
    let drop = vec![in alloc; Action::Drop(Cause::BadIp)]?;
    assert!(rt; prints(alloc, &DROPS_LOOPBACK, drop)?);
    let drop = vec![in alloc; Action::Drop(Cause::PortSecurity)]?;
    assert!(rt; prints(alloc, &DROPS_OTHER_IPS, drop)?);
    Ok(())
}

const ANSWERS_ARP: Row = Row {
    stage: Stage::SwitchArp,
    priority: 50,
    regs: &[],
    matching: b"arp.op == 1 && arp.tpa == 10.0.0.1",
    line: "ingress s_arp priority=50 rank=0 datapaths=s0,s1 match=arp.op == 1 && arp.tpa == 10.0.0.1 actions=arp_reply 0a:00:00:00:00:01 10.0.0.1;set out=in;set loopback=1;go 32\n",
};

const BALANCES: Row = Row {
    stage: Stage::SwitchStateIn,
    priority: 55,
    regs: &[
        RegIs {
            reg: Reg::Tracked,
            value: 1,
        },
        RegIs {
            reg: Reg::State,
            value: 1,
        },
    ],
    matching: b"tcp && ip4.dst == 10.0.0.100 && tcp.dst == 80",
    line: "ingress s_state_in priority=55 rank=0 datapaths=s0,s1 match=state == 1 && tracked == 1 && tcp && ip4.dst == 10.0.0.100 && tcp.dst == 80 actions=balance in 10.0.0.100:80 [10.0.0.2:8080,10.0.0.3:8080];go 13\n",
};

// A new connection goes to one of the backends.
fn balance(alloc: Global) -> Result<Vec<Action>, NoMemory> {
    let backends = List::from_slice(alloc, &BACKENDS)?;
    let balance = Action::Balance {
        zone: ZoneOf::In,
        vip: VIP,
        backends,
    };
    Ok(vec![in alloc; balance, Action::Go(13)]?)
}

#[test]
fn actions_are_printed_as_they_are_written(rt: HostRuntime) -> Result<(), Fail> {
    let alloc = rt.alloc();
    let loopback = Action::Set {
        reg: Reg::Loopback,
        value: 1,
    };
    let reply = Action::ArpReply { mac: M, ip: I };
    let answer = vec![in alloc; reply, Action::OutIsIn, loopback, Action::Go(32)]?;
    assert!(rt; prints(alloc, &ANSWERS_ARP, answer)?);
    assert!(rt; prints(alloc, &BALANCES, balance(alloc)?)?);
    Ok(())
}

const ROUTES: Row = Row {
    stage: Stage::RouterRoute,
    priority: 149,
    regs: &[],
    matching: b"ip4.dst == 10.0.0.0/24",
    line: "ingress r_route priority=149 rank=0 datapaths=s0,s1 match=ip4.dst == 10.0.0.0/24 actions=dec_ttl;next_dst;set out=ge;eth_src 0a:00:00:00:00:01;eth_dst 0a:00:00:00:00:01;echo_reply\n",
};

const TRANSLATES: Row = Row {
    stage: Stage::SwitchStateOut,
    priority: 1,
    regs: &[RegIs {
        reg: Reg::Next,
        value: 167_772_161,
    }],
    matching: b"1",
    line: "egress s_state_out priority=1 rank=0 datapaths=s0,s1 match=next == 167772161 actions=undo;block;unblock;commit out;dnat dnat 10.0.0.1;snat snat 10.0.0.1\n",
};

#[test]
fn every_action_has_a_text(rt: HostRuntime) -> Result<(), Fail> {
    let alloc = rt.alloc();
    let port = name("ge")?;
    let routed = vec![in alloc;
        Action::DecTtl,
        Action::NextDst,
        Action::SetOut(port),
        Action::EthSrc(M),
        Action::EthDst(M),
        Action::EchoReply,
    ]?;
    assert!(rt; prints(alloc, &ROUTES, routed)?);
    let dnat = Action::Dnat {
        zone: ZoneOf::Dnat,
        ip: I,
    };
    let snat = Action::Snat {
        zone: ZoneOf::Snat,
        ip: I,
    };
    let listed = vec![in alloc;
        Action::Undo,
        Action::Block,
        Action::Unblock,
        Action::Commit(ZoneOf::Out),
        dnat,
        snat,
    ]?;
    assert!(rt; prints(alloc, &TRANSLATES, listed)?);
    Ok(())
}
