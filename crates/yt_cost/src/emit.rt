//! The compiler of a handler.

ghost use Rattle.std.specs.Prelude.{◌≡◌, ◌+◌, ◌<◌, ◌≤◌, ◌^◌, [], ◌∷◌, ◌++◌, length, OnOk, IfOk};
ghost use Rattle.yt_graph.specs.Picture.{expr_tree, exprs_tree, stmt_tree, block_tree, port_tree, graph_tree};
ghost use Rattle.yt_graph.specs.Limits.{most_vars};
ghost use Rattle.yt_graph.specs.WellFormed.{exprs_count};
ghost use Rattle.yt_cost.specs.CodeSizes.{expr_size, exprs_size, stmt_size, block_size};
ghost use Rattle.yt_cost.specs.Code.{expr_code, exprs_code, stmt_code, block_code, port_code};
ghost use Rattle.yt_cost.specs.CodeFit.{IsHandlerFit};
ghost use Rattle.yt_cost.specs.CodeAlone.{MeansPort};
ghost use Rattle.yt_cost.specs.CodeVars.{UsesVarsOf};

use std::alloc::{AllocError, Global};
use yt_code::{Code, Instr, Instrs};
use yt_graph::{Expr, ExprParts, Graph, Parts, Port, Stmt, open, open_expr};

/// The code of the handler of a graph's port.
pub(crate) fn compile_port(alloc: Global, graph: &Graph, port: &Port) -> Result<Code, AllocError>
    requires fit { IsHandlerFit (graph_tree graph.now) (port_tree port.now) }
    requires few_vars { length graph.now.vars ≤ most_vars }
    ensures code { IfOk result (λ code. code ≡ port_code (graph_tree graph.now) (port_tree port.now)) }
    ensures meaning { IfOk result (λ code. MeansPort (graph_tree graph.now) code (port_tree port.now)) }
    ensures own_vars { IfOk result (λ code. UsesVarsOf (graph_tree graph.now) code (port_tree port.now)) }
{
    let mut code = Instrs::new(alloc);
    emit_block(&mut code, &port.body, 0)?;
    code.push(Instr::End)?;
    let vars = graph.vars.len() as u32;
    Ok(Code::new(code, port.params, port.locals, vars))
}

// Adds the instructions of an expression.
#[cycle(value)]
fn emit_expr(code: &mut Instrs, e: &Expr) -> Result<(), AllocError>
    requires { expr_size (expr_tree e.now) < 2 ^ 32 }
    ensures { OnOk result (code.new ≡ code.old ++ expr_code (expr_tree e.now)) }
{
    match open_expr(e) {
        ExprParts::Num(n) => code.push(Instr::Push(n)),
        ExprParts::Local(i) => code.push(Instr::Local(i)),
        ExprParts::Var(i) => code.push(Instr::Var(i)),
        ExprParts::Neg(inner) => {
            emit_expr(code, inner)?;
            code.push(Instr::Neg)
        }
        ExprParts::Not(inner) => {
            emit_expr(code, inner)?;
            code.push(Instr::Not)
        }
        ExprParts::Two(op, left, right) => {
            emit_expr(code, left)?;
            emit_expr(code, right)?;
            code.push(Instr::Two(op))
        }
        ExprParts::Call(op, value, ticks, args) => {
            emit_exprs(code, args)?;
            code.push(Instr::Call {
                op,
                args: count(args),
                ticks,
                code: value,
            })
        }
    }
}

// Adds the instructions of several expressions, one behind the other.
#[cycle(value)]
fn emit_exprs(code: &mut Instrs, es: &[Expr]) -> Result<(), AllocError>
    requires { exprs_size (exprs_tree es.now) < 2 ^ 32 }
    ensures { OnOk result (code.new ≡ code.old ++ exprs_code (exprs_tree es.now)) }
{
    for e in es {
        emit_expr(code, e)?;
    }
    Ok(())
}

// How many instructions an expression has.
#[cycle(value_len)]
fn expr_len(e: &Expr) -> u32
    requires { expr_size (expr_tree e.now) < 2 ^ 32 }
    ensures { result ≡ expr_size (expr_tree e.now) }
{
    match open_expr(e) {
        ExprParts::Num(_) => 1,
        ExprParts::Local(_) => 1,
        ExprParts::Var(_) => 1,
        ExprParts::Neg(inner) => expr_len(inner) + 1,
        ExprParts::Not(inner) => expr_len(inner) + 1,
        ExprParts::Two(_, left, right) => expr_len(left) + expr_len(right) + 1,
        ExprParts::Call(_, _, _, args) => exprs_len(args) + 1,
    }
}

// How many instructions several expressions have.
#[cycle(value_len)]
fn exprs_len(es: &[Expr]) -> u32
    requires { exprs_size (exprs_tree es.now) < 2 ^ 32 }
    ensures { result ≡ exprs_size (exprs_tree es.now) }
{
    let mut sum = 0;
    for e in es {
        sum += expr_len(e);
    }
    sum
}

// How many expressions there are.
fn count(es: &[Expr]) -> u32
    requires { exprs_size (exprs_tree es.now) < 2 ^ 32 }
    ensures { result ≡ exprs_count (exprs_tree es.now) }
{
    es.len() as u32
}

// How many instructions a statement has.
#[cycle(len)]
fn stmt_len(s: &Stmt) -> u32
    requires { stmt_size (stmt_tree s.now) < 2 ^ 32 }
    ensures { result ≡ stmt_size (stmt_tree s.now) }
{
    match open(s) {
        Parts::SetLocal(_, e) => expr_len(e) + 1,
        Parts::SetVar(_, e) => expr_len(e) + 1,
        Parts::Send(_, es) => exprs_len(es) + 1,
        Parts::Only(e, first) => expr_len(e) + 1 + block_len(first),
        Parts::Else(e, first, second) => {
            expr_len(e) + 1 + (block_len(first) + 1) + block_len(second)
        }
        Parts::Repeat(e, _, body) => expr_len(e) + 1 + (block_len(body) + 1),
    }
}

// How many instructions a block has.
#[cycle(len)]
fn block_len(b: &[Stmt]) -> u32
    requires { block_size (block_tree b.now) < 2 ^ 32 }
    ensures { result ≡ block_size (block_tree b.now) }
{
    let mut sum = 0;
    for s in b {
        sum += stmt_len(s);
    }
    sum
}

// Adds the instructions of an expression that stands at place p, and one that takes its value. Gives the place behind them.
fn emit_taken(code: &mut Instrs, e: &Expr, taker: Instr, p: u32) -> Result<u32, AllocError>
    requires { p + (expr_size (expr_tree e.now) + 1) < 2 ^ 32 }
    ensures code { OnOk result (code.new ≡ code.old ++ (expr_code (expr_tree e.now) ++ taker ∷ [])) }
    ensures next { IfOk result (λ q. q ≡ p + (expr_size (expr_tree e.now) + 1)) }
{
    emit_expr(code, e)?;
    code.push(taker)?;
    Ok(p + (expr_len(e) + 1))
}

// Adds the instructions of a statement that stands at place p, and gives the place behind them.
#[cycle(emit)]
fn emit_stmt(code: &mut Instrs, s: &Stmt, p: u32) -> Result<u32, AllocError>
    requires { p + stmt_size (stmt_tree s.now) < 2 ^ 32 }
    ensures code { OnOk result (code.new ≡ code.old ++ stmt_code (stmt_tree s.now) p) }
    ensures next { IfOk result (λ q. q ≡ p + stmt_size (stmt_tree s.now)) }
{
    match open(s) {
        Parts::SetLocal(i, e) => emit_taken(code, e, Instr::SetLocal(i), p),
        Parts::SetVar(i, e) => emit_taken(code, e, Instr::SetVar(i), p),
        Parts::Send(out, es) => {
            let width = count(es);
            emit_exprs(code, es)?;
            code.push(Instr::Send { out, width })?;
            Ok(p + (exprs_len(es) + 1))
        }
        Parts::Only(e, first) => {
            let end = p + (expr_len(e) + 1 + block_len(first));
            let at = emit_taken(code, e, Instr::JumpZero(end), p)?;
            emit_block(code, first, at)
        }
        Parts::Else(e, first, second) => {
            let other = p + (expr_len(e) + 1 + (block_len(first) + 1));
            let end = other + block_len(second);
            let at = emit_taken(code, e, Instr::JumpZero(other), p)?;
            emit_block(code, first, at)?;
            code.push(Instr::Jump(end))?;
            emit_block(code, second, other)
        }
        Parts::Repeat(e, max, body) => {
            let to = p + (expr_len(e) + 1 + (block_len(body) + 1));
            let at = emit_taken(code, e, Instr::Loop { max, to }, p)?;
            emit_block(code, body, at)?;
            code.push(Instr::Again(at))?;
            Ok(to)
        }
    }
}

// Adds the instructions of a block that stands at place p, and gives the place behind them.
#[cycle(emit)]
fn emit_block(code: &mut Instrs, b: &[Stmt], p: u32) -> Result<u32, AllocError>
    requires { p + block_size (block_tree b.now) < 2 ^ 32 }
    ensures code { OnOk result (code.new ≡ code.old ++ block_code (block_tree b.now) p) }
    ensures next { IfOk result (λ q. q ≡ p + block_size (block_tree b.now)) }
{
    let mut at = p;
    for s in b {
        at = emit_stmt(code, s, at)?;
    }
    Ok(at)
}
