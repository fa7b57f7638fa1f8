//! Records and their logical flows, which take every edit. So no test has to prove that its edits fit.
ghost use Rattle.nb_rules.specs.Valid.{IsValid};
ghost use Rattle.memory_tests.specs.Compiled.{IsCompiled};

use crate::edits::planned;
use logical_flows::flow::LFlow;
use logical_flows::print_flow::print_flow;
use nb_edits::edit::apply;
use nb_edits::plan::EditPlan;
use nb_records::records::Records;
use northd_core::northd::Northd;
use ovn_base::list::{Bytes, List};
use ovn_base::memory::NoMemory;
use ovn_base::name::Name;
use ovn_base::steps::Steps;
use std::alloc::Global;
use std::marker::Model;

#[derive(Drop)]
pub(crate) struct Compiler {
    alloc: Global,
    records: Records,
    north: Northd,
}

impl Model for Compiler {
    ghost use Rattle.match_language.specs.contracts.expr.Expr as expr;
    ghost use Rattle.memory_tests.specs.Compiled.{IsCompiled};
    ghost use Rattle.nb_records.specs.Network.{Network};
    ghost use Rattle.std.specs.Coded.{codes};

    ghost Value = { Network };

    ghost coded = { Prim.hlevel (codes, expr.the_row.coded) };

    ghost view = { λ c. c.records };

    ghost invariant = { λ c. IsCompiled c.records c.north };
}

/// What an edit brings and takes.
#[derive(Drop)]
pub(crate) struct Turn {
    /// The lines of the pairs that come, each on its datapath alone.
    pub(crate) come: List<Bytes>,
    /// Those of the pairs that go.
    pub(crate) gone: List<Bytes>,
    /// How many flows come.
    pub(crate) flows_come: usize,
    /// How many go.
    pub(crate) flows_gone: usize,
}

// The steps that compiling takes.
struct Compiling;

// The lines of the pairs.
fn lines(alloc: Global, pairs: &[(LFlow, Name)]) -> Result<List<Bytes>, NoMemory> {
    let mut lines = List::new(alloc);
    for (flow, datapath) in pairs {
        let mut line = Vec::new(alloc);
        print_flow(flow, &[*datapath], &mut line)?;
        lines.push(List::from_vec(line))?;
    }
    Ok(lines)
}

// Makes an edit that was planned on the records.
fn follow(
    alloc: Global,
    records: &mut Records,
    north: &mut Northd,
    plan: EditPlan,
) -> Result<Turn, NoMemory>
    requires compiled { IsCompiled records.old north.old }
    requires valid { IsValid plan.after }
    ensures { IsCompiled records.new north.new }
{
    let mut steps: Steps<Compiling> = Steps::new();
    let change = north.prepare(records, &plan, &mut steps)?;
    let come = lines(alloc, change.come())?;
    let gone = lines(alloc, change.gone())?;
    apply(records, plan);
    let flows = north.apply(change);
    Ok(Turn {
        come,
        gone,
        flows_come: flows.added.len(),
        flows_gone: flows.removed.len(),
    })
}

impl Compiler {
    /// There is no record.
    pub(crate) fn new(alloc: Global) -> Result<Compiler, NoMemory> {
        Ok(Compiler {
            alloc,
            records: Records::new(alloc)?,
            north: Northd::new(alloc)?,
        })
    }

    /// Makes the edit of the line, by the event of that number.
    pub(crate) fn turn(&mut self, line: &str, number: u64) -> Result<Turn, NoMemory> {
        let plan = planned(self.alloc, &mut self.records, line, number)?;
        follow(self.alloc, &mut self.records, &mut self.north, plan)
    }
}
