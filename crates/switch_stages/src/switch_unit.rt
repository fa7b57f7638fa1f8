//! What a switch has beside its ports.
ghost use Rattle.std.specs.Prelude.{◌≡◌, ◌++◌, IfOk, OnOk, OnErr};
ghost use Rattle.ovn_base.specs.numbers.Steps.{after_steps};
ghost use Rattle.logical_flows.specs.declared.unit.UnitId.TheVariants.{Switch};
ghost use Rattle.stage_rows.specs.Admitting.{AdmitsSwitch};
ghost use Rattle.stage_rows.specs.Reads as reads;
ghost use Rattle.stage_rows.specs.Units.{rows_of};
ghost use Rattle.switch_stages.specs.SwitchLists.{rows_before_rules, ingress_rows, egress_rows, listed_rows};
ghost use Rattle.switch_stages.specs.UnitLaws.{switch_law};

use crate::facts::switches::{is_stateful, some_take_unknown};
use crate::stages::admit::push_switch_admit;
use crate::stages::lookup::push_switch_lookup;
use crate::stages::state::push_state;
use logical_flows::action::ZoneOf;
use logical_flows::flow::LFlow;
use logical_flows::stage::Stage;
use logical_flows::stage_unit::StageUnit;
use nb_records::records::Records;
use ovn_base::list::List;
use ovn_base::memory::NoMemory;
use ovn_base::name::Name;
use ovn_base::steps::Steps;
use stage_rows::rows::push_base;
use std::alloc::Global;

/// What a switch has beside its ports: the rows by which a packet goes on where nothing else is said of it, those that decide by
/// rules and connections, and those for groups and for unknown addresses.
#[derive(Clone, Copy, PartialEq, Eq, Debug)]
pub struct SwitchUnit {
    pub switch: Name,
}

// Adds the rows of ingress up to the rules.
fn push_before_rules(alloc: Global, out: &mut List<LFlow>) -> Result<(), NoMemory>
    ensures { OnOk result (out.new ≡ out.old ++ rows_before_rules) }
{
    push_switch_admit(alloc, out)?;
    push_base(alloc, Stage::SwitchPortSecurity, out)?;
    push_base(alloc, Stage::SwitchTrack, out)?;
    push_base(alloc, Stage::SwitchAclIn, out)
}

// Adds the rows of ingress.
fn push_ingress(
    alloc: Global,
    stateful: bool,
    takes: bool,
    out: &mut List<LFlow>,
) -> Result<(), NoMemory>
    ensures { OnOk result (out.new ≡ out.old ++ ingress_rows stateful takes) }
{
    push_before_rules(alloc, out)?;
    push_state(alloc, stateful, Stage::SwitchStateIn, ZoneOf::In, out)?;
    push_base(alloc, Stage::SwitchArp, out)?;
    push_switch_lookup(alloc, takes, out)?;
    Ok(())
}

// Adds the rows of egress.
fn push_egress(alloc: Global, stateful: bool, out: &mut List<LFlow>) -> Result<(), NoMemory>
    ensures { OnOk result (out.new ≡ out.old ++ egress_rows stateful) }
{
    push_base(alloc, Stage::SwitchTrackOut, out)?;
    push_base(alloc, Stage::SwitchAclOut, out)?;
    push_state(alloc, stateful, Stage::SwitchStateOut, ZoneOf::Out, out)?;
    push_base(alloc, Stage::SwitchSecurityOut, out)?;
    Ok(())
}

/// The rows of a switch that is stateful or not, and has a port that takes unknown addresses or none, in the order of the stages.
pub fn switch_rows(alloc: Global, stateful: bool, takes: bool) -> Result<List<LFlow>, NoMemory>
    ensures { IfOk result (λ l. l ≡ listed_rows stateful takes) }
{
    let mut rows = List::new(alloc);
    push_ingress(alloc, stateful, takes, &mut rows)?;
    push_egress(alloc, stateful, &mut rows)?;
    Ok(rows)
}

impl StageUnit for SwitchUnit {
    type Facts = Records;

    ghost flows_of = { λ u net. rows_of net (Switch u.switch) };

    ghost reads_of = { λ u net. reads.reads_of net (Switch u.switch) };

    ghost Agree = { reads.Agree };

    ghost fits = { λ u net. AdmitsSwitch net u.switch };

    #[tactic(auto, using(crate::proofs::SwitchUnits::switch_has_rows))]
    fn translate<L>(
        &self,
        alloc: Global,
        facts: &Records,
        out: &mut List<LFlow>,
        steps: &mut Steps<L>,
    ) -> Result<(), NoMemory> {
        steps.tick();
        let stateful = is_stateful(facts, &self.switch);
        let takes = some_take_unknown(facts, &self.switch);
        out.append(switch_rows(alloc, stateful, takes)?)
    }

    ghost law = { λ u f g a b same. switch_law f g u.switch a b same };
}
