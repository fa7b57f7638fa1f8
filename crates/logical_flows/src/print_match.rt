//! Writes what a flow matches as a text.
ghost use Rattle.std.specs.Prelude.{◌≡◌, ◌++◌, filter, flat_map, IfOk, OnOk, OnErr};
ghost use Rattle.logical_flows.specs.FlowText as spec;

use crate::flow::RegIs;
use crate::words::{put, reg_name, reg_place};
use inet_packet::regs::Reg;
use match_language::expr::Expr;
use match_language::printer::print;
use ovn_base::list::List;
use ovn_base::memory::NoMemory;
use ovn_base::number::push_number;
use std::alloc::Global;

#[tactic(auto, using(crate::proofs::Tops::one_const, crate::proofs::Tops::one_is, crate::proofs::Tops::one_not, crate::proofs::Tops::one_all, crate::proofs::Tops::one_any, crate::proofs::Tops::one_compare))]
fn is_one(expr: &Expr) -> bool
    ensures { result ≡ (spec.top_of expr.now).is_one }
{
    match expr {
        Expr::Const(truth) => *truth,
        Expr::Is(_) | Expr::Not(_) | Expr::All(_) | Expr::Any(_) | Expr::Compare { .. } => false,
    }
}

#[tactic(auto, using(crate::proofs::Tops::any_const, crate::proofs::Tops::any_is, crate::proofs::Tops::any_not, crate::proofs::Tops::any_all, crate::proofs::Tops::any_any, crate::proofs::Tops::any_compare))]
fn is_any(expr: &Expr) -> bool
    ensures { result ≡ (spec.top_of expr.now).is_any }
{
    match expr {
        Expr::Any(_) => true,
        Expr::Const(_) | Expr::Is(_) | Expr::Not(_) | Expr::All(_) | Expr::Compare { .. } => false,
    }
}

// The expression, in parentheses where it is joined by `||`.
fn push_expr(expr: &Expr, out: &mut Vec<u8>) -> Result<(), NoMemory>
    ensures { OnOk result (out.new.items ≡ out.old.items ++ spec.expr_text expr.now) }
{
    if !is_any(expr) {
        return print(expr, out);
    }
    out.push(b'(')?;
    print(expr, out)?;
    out.push(b')')?;
    Ok(())
}

// A register with its number, and the operator behind it.
fn push_reg(reg_is: RegIs, out: &mut Vec<u8>) -> Result<(), NoMemory>
    ensures { OnOk result (out.new.items ≡ out.old.items ++ spec.reg_text reg_is) }
{
    put(reg_name(reg_is.reg), out)?;
    put(b" == ", out)?;
    push_number(out, u64::from(reg_is.value))
}

// The registers, in their order.
const REGISTERS: [Reg; 16] = [
    Reg::Dp,
    Reg::InPort,
    Reg::OutPort,
    Reg::Next,
    Reg::ZIn,
    Reg::ZOut,
    Reg::ZDnat,
    Reg::ZSnat,
    Reg::State,
    Reg::Verdict,
    Reg::Tier,
    Reg::Loopback,
    Reg::Tracked,
    Reg::Blocked,
    Reg::Own,
    Reg::Arrived,
];

// Adds what is asked of the register.
fn push_of(reg: Reg, regs: &[RegIs], all: &mut List<RegIs>) -> Result<(), NoMemory>
    ensures { OnOk result (all.new ≡ all.old ++ filter (spec.is_of reg) regs.now) }
{
    for reg_is in regs {
        if reg_place(reg_is.reg) == reg_place(reg) {
            all.push(*reg_is)?;
        }
    }
    Ok(())
}

// What is asked of these registers, in their order.
fn asked_of(alloc: Global, order: &[Reg], regs: &[RegIs]) -> Result<List<RegIs>, NoMemory>
    ensures { IfOk result (λ l. l ≡ flat_map (λ r. filter (spec.is_of r) regs.now) order.now) }
{
    let mut all = List::new(alloc);
    for reg in order {
        push_of(*reg, regs, &mut all)?;
    }
    Ok(all)
}

// What is asked of registers, in the order of the registers.
fn in_order(alloc: Global, regs: &[RegIs]) -> Result<List<RegIs>, NoMemory>
    ensures { IfOk result (λ l. l ≡ spec.in_order regs.now) }
{
    asked_of(alloc, &REGISTERS, regs)
}

// What is asked of registers, and the expression.
fn push_asked(asked: &[RegIs], expr: &Expr, out: &mut Vec<u8>) -> Result<(), NoMemory>
    ensures { OnOk result (out.new.items ≡ out.old.items ++ spec.asked_text asked.now expr.now) }
{
    let [first, rest @ ..] = asked else {
        return push_expr(expr, out);
    };
    push_reg(*first, out)?;
    for reg_is in rest {
        put(b" && ", out)?;
        push_reg(*reg_is, out)?;
    }
    if is_one(expr) {
        return Ok(());
    }
    put(b" && ", out)?;
    push_expr(expr, out)
}

// The match. Where memory is wanting a part of it may stand there.
pub(crate) fn push_match(regs: &[RegIs], expr: &Expr, out: &mut Vec<u8>) -> Result<(), NoMemory>
    ensures { OnOk result (out.new.items ≡ out.old.items ++ spec.match_text regs.now expr.now) }
{
    let asked = in_order(*out.allocator(), regs)?;
    push_asked(asked.as_slice(), expr, out)
}

/// Writes what the registers and the expression ask, joined by `&&`, behind what `out` has. Where memory is wanting nothing is
/// written.
pub fn print_match(regs: &[RegIs], expr: &Expr, out: &mut Vec<u8>) -> Result<(), NoMemory>
    ensures text { OnOk result (out.new.items ≡ out.old.items ++ spec.match_text regs.now expr.now) }
    ensures unchanged { OnErr result (out.new.items ≡ out.old.items) }
{
    let mut text = Vec::new(*out.allocator());
    push_match(regs, expr, &mut text)?;
    out.extend_from_slice(text.as_slice())?;
    Ok(())
}
