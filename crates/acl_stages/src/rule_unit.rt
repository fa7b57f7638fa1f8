//! A rule on a switch to which it applies.
ghost use Rattle.std.specs.Prelude.{◌≡◌, ◌≤◌, ◌++◌, ◌∷◌, [], IfOk, OnOk, OnErr};
ghost use Rattle.ovn_base.specs.declared.limits.TheConstants.{MAX_ACL_PRIORITY};
ghost use Rattle.ovn_base.specs.numbers.Steps.{after_steps};
ghost use Rattle.logical_flows.specs.declared.unit.UnitId.TheVariants.{Rule};
ghost use Rattle.stage_rows.specs.Admitting.{AdmitsRule};
ghost use Rattle.stage_rows.specs.Reads as reads;
ghost use Rattle.stage_rows.specs.RuleRows as spec;
ghost use Rattle.stage_rows.specs.Units.{rows_of};
ghost use Rattle.acl_stages.specs.RuleLaw.{rule_law};

use inet_packet::regs::Reg;
use logical_flows::action::Action;
use logical_flows::flow::LFlow;
use logical_flows::stage::Stage;
use logical_flows::stage_unit::StageUnit;
use match_language::field::Direction;
use nb_records::records::Records;
use nb_records::rule::{Acl, RuleAction};
use ovn_base::list::List;
use ovn_base::memory::NoMemory;
use ovn_base::name::Name;
use ovn_base::steps::Steps;
use stage_rows::priorities::RULE_PRIORITY;
use stage_rows::rows::go_on;
use std::alloc::Global;

/// A rule on a switch to which it applies: it is one of the switch, or of a port group that has a port of the switch.
#[derive(Clone, Copy, PartialEq, Eq, Debug)]
pub struct RuleUnit {
    pub rule: Name,
    pub switch: Name,
}

// The rank of its row: of equal priority, the greatest is taken.
fn rule_rank(action: RuleAction) -> u8
    ensures { result ≡ spec.rule_rank action }
{
    match action {
        RuleAction::Drop => 6,
        RuleAction::Reject => 5,
        RuleAction::AllowStateless => 4,
        RuleAction::AllowRelated => 3,
        RuleAction::Allow => 2,
    }
}

// The number of its verdict.
fn verdict_number(action: RuleAction) -> u32
    ensures { result ≡ spec.verdict_number action }
{
    match action {
        RuleAction::Allow => 1,
        RuleAction::AllowRelated => 2,
        RuleAction::AllowStateless => 3,
        RuleAction::Reject => 4,
        RuleAction::Drop => 5,
    }
}

fn rule_stage(way: Direction) -> Stage
    ensures { result ≡ spec.rule_stage way }
{
    match way {
        Direction::FromLport => Stage::SwitchAclIn,
        Direction::ToLport => Stage::SwitchAclOut,
    }
}

// The row of the rule.
pub(crate) fn rule_row(alloc: Global, rule: &Acl) -> Result<LFlow, NoMemory>
    requires { rule.now.priority ≤ MAX_ACL_PRIORITY }
    ensures { IfOk result (λ f. f ≡ spec.rule_row rule.now) }
{
    let stage = rule_stage(rule.direction);
    let mut actions = List::new(alloc);
    actions.push(Action::Set {
        reg: Reg::Verdict,
        value: verdict_number(rule.action),
    })?;
    actions.push(go_on(stage))?;
    Ok(LFlow {
        pipeline: stage.pipeline(),
        stage,
        priority: RULE_PRIORITY + rule.priority,
        rank: rule_rank(rule.action),
        regs: List::new(alloc),
        matching: rule.matching.copy()?,
        actions,
    })
}

impl StageUnit for RuleUnit {
    type Facts = Records;

    ghost flows_of = { λ u net. rows_of net (Rule u.rule u.switch) };

    ghost reads_of = { λ u net. reads.reads_of net (Rule u.rule u.switch) };

    ghost Agree = { reads.Agree };

    ghost fits = { λ u net. AdmitsRule net u.rule u.switch };

    #[tactic(auto, using(crate::proofs::RuleRow::row_of_found, crate::proofs::RuleRow::priority_of_found, crate::proofs::RuleRow::is_found))]
    fn translate<L>(
        &self,
        alloc: Global,
        facts: &Records,
        out: &mut List<LFlow>,
        steps: &mut Steps<L>,
    ) -> Result<(), NoMemory> {
        steps.tick();
        match facts.acl(&self.rule) {
            Some(rule) => out.push(rule_row(alloc, rule)?),
            None => Ok(()),
        }
    }

    ghost law = { λ u f g a b same. rule_law f g u.rule u.switch a b same };
}
