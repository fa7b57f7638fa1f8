//! A port of a switch.
ghost use Rattle.std.specs.Prelude.{◌≡◌, ◌++◌, IfOk, OnOk, OnErr};
ghost use Rattle.ovn_base.specs.numbers.Steps.{after_steps};
ghost use Rattle.logical_flows.specs.declared.unit.UnitId.TheVariants.{Port};
ghost use Rattle.stage_rows.specs.Reads as reads;
ghost use Rattle.stage_rows.specs.Units.{rows_of};
ghost use Rattle.switch_stages.specs.PortRows.{ingress_rows, egress_rows, listed_rows};
ghost use Rattle.switch_stages.specs.UnitLaws.{AdmitsSwitchPort, port_law};

use crate::facts::switches::tracks_port;
use crate::stages::admit::push_port_admit;
use crate::stages::arp::push_port_arp;
use crate::stages::lookup::push_port_lookup;
use crate::stages::port_security::push_port_security;
use crate::stages::security_out::push_port_security_out;
use crate::stages::track::{push_disabled_out, push_port_track, push_port_track_out};
use logical_flows::flow::LFlow;
use logical_flows::stage_unit::StageUnit;
use nb_records::records::Records;
use nb_records::switch::SwitchPort;
use ovn_base::list::List;
use ovn_base::memory::NoMemory;
use ovn_base::name::Name;
use ovn_base::steps::Steps;
use std::alloc::Global;

/// A port of a switch.
#[derive(Clone, Copy, PartialEq, Eq, Debug)]
pub struct PortUnit {
    pub port: Name,
}

// Adds the rows of ingress, of a port that is tracked or isn't.
fn push_ingress(
    alloc: Global,
    records: &Records,
    tracked: bool,
    port: &SwitchPort,
    out: &mut List<LFlow>,
) -> Result<(), NoMemory>
    ensures { OnOk result (out.new ≡ out.old ++ ingress_rows records.now tracked port.now) }
{
    push_port_admit(alloc, port, out)?;
    push_port_security(alloc, port, out)?;
    push_port_track(alloc, tracked, port, out)?;
    push_port_arp(alloc, port, out)?;
    push_port_lookup(alloc, records, port, out)?;
    Ok(())
}

// Adds the rows of egress, of a port that is tracked or isn't.
fn push_egress(
    alloc: Global,
    tracked: bool,
    port: &SwitchPort,
    out: &mut List<LFlow>,
) -> Result<(), NoMemory>
    ensures { OnOk result (out.new ≡ out.old ++ egress_rows tracked port.now) }
{
    push_disabled_out(alloc, port, out)?;
    push_port_track_out(alloc, tracked, port, out)?;
    push_port_security_out(alloc, port, out)?;
    Ok(())
}

/// The rows of the port, in the order of the stages.
pub fn port_rows(
    alloc: Global,
    records: &Records,
    port: &SwitchPort,
) -> Result<List<LFlow>, NoMemory>
    ensures { IfOk result (λ l. l ≡ listed_rows records.now port.now) }
{
    let tracked = tracks_port(records, port);
    let mut rows = List::new(alloc);
    push_ingress(alloc, records, tracked, port, &mut rows)?;
    push_egress(alloc, tracked, port, &mut rows)?;
    Ok(rows)
}

impl StageUnit for PortUnit {
    type Facts = Records;

    ghost flows_of = { λ u net. rows_of net (Port u.port) };

    ghost reads_of = { λ u net. reads.reads_of net (Port u.port) };

    ghost Agree = { reads.Agree };

    ghost fits = { λ u net. AdmitsSwitchPort net u.port };

    #[tactic(auto, using(crate::proofs::PortUnits::is_found))]
    fn translate<L>(
        &self,
        alloc: Global,
        facts: &Records,
        out: &mut List<LFlow>,
        steps: &mut Steps<L>,
    ) -> Result<(), NoMemory> {
        steps.tick();
        match facts.switch_port(&self.port) {
            Some(port) => out.append(port_rows(alloc, facts, port)?),
            None => Ok(()),
        }
    }

    ghost law = { λ u f g a b same. port_law f g u.port a b same };
}
