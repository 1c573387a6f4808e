//! The walk over a handler's statements.

ghost use Rattle.std.specs.Prelude.{◌≡◌, ◌+◌, ◌*◌, ◌^◌, ◌<◌, ◌≤◌, length, OnOk, IfOk};
ghost use Rattle.yt_graph.specs.Picture.{set_local, set_var, send, expr_tree, exprs_tree, stmt_tree, block_tree};
ghost use Rattle.yt_graph.specs.Meaning.{expr_value, expr_ticks, all_ticks, spend, is_not_zero, turns_of, turns, stmt_run, block_run, start};
ghost use Rattle.yt_graph.specs.Cost.{stmt_cost, block_cost};
ghost use Rattle.yt_mean.specs.Inside.Progress.{progress_of, after, turn_run};
ghost use Rattle.yt_mean.specs.Inside.Within.{IsExprWithin, AreExprsWithin, IsStmtWithin, IsBlockWithin};

use crate::handled::Handled;
use crate::value::{ticks, value, values, values_ticks};
use std::alloc::{AllocError, Global};
use std::marker::Model;
use yt_graph::{Expr, Parts, SendItem, Sends, Stmt, open, turns_made};
use yt_list::Vals;

/// A handler on its way. A contract sees how far it has come.
#[derive(Drop)]
pub struct Walk {
    locals: Vec<i64>,
    vars: Vec<i64>,
    ticks: u64,
    sends: Vec<SendItem>,
}

impl Model for Walk {
    ghost use Rattle.yt_mean.specs.Inside.Progress.{Progress};

    ghost Value = { Progress };

    ghost view = { λ w. record {
      locals = w.locals.items;
      vars = w.vars.items;
      ticks = w.ticks;
      sends = w.sends.items;
    } };
}

impl Walk {
    /// The start of a handler with so many locals, of which the first hold the message.
    pub fn begin(alloc: Global, locals: u32, msg: &[i64], vars: &[i64]) -> Result<Walk, AllocError>
        requires { length msg.now ≤ locals }
        ensures { IfOk result (λ w. w ≡ progress_of (start locals msg.now vars.now)) }
    {
        let mut all = msg.to_vec(alloc)?;
        all.resize(locals as usize, 0)?;
        Ok(Walk {
            locals: all,
            vars: vars.to_vec(alloc)?,
            ticks: 0,
            sends: Vec::new(alloc),
        })
    }

    /// What the handler leaves.
    pub fn end(self) -> Handled
        ensures vars { result.vars ≡ self.vars }
        ensures sends { result.sends ≡ self.sends }
        ensures ticks { result.ticks ≡ self.ticks }
    {
        Handled {
            vars: Vals::from_vec(self.vars),
            sends: Sends::from_vec(self.sends),
            ticks: self.ticks,
        }
    }

    /// Ticks in which nothing else happens.
    pub fn spend(&mut self, n: u64)
        requires { self.old.ticks + n < 2 ^ 64 }
        ensures { self.new ≡ after (spend n) self.old }
    {
        self.ticks += n;
    }

    // A local gets a new value.
    fn set_local(&mut self, i: u32, e: &Expr)
        requires within { IsStmtWithin (length self.old.locals) (length self.old.vars) (set_local i (expr_tree e.now)) }
        requires room { self.old.ticks + (expr_ticks (expr_tree e.now) + 1) < 2 ^ 64 }
        ensures { self.new ≡ after (stmt_run (set_local i (expr_tree e.now))) self.old }
    {
        self.locals[i as usize] = value(e, &self.locals, &self.vars);
        self.ticks += ticks(e) + 1;
    }

    // A variable gets a new value.
    fn set_var(&mut self, i: u32, e: &Expr)
        requires within { IsStmtWithin (length self.old.locals) (length self.old.vars) (set_var i (expr_tree e.now)) }
        requires room { self.old.ticks + (expr_ticks (expr_tree e.now) + 1) < 2 ^ 64 }
        ensures { self.new ≡ after (stmt_run (set_var i (expr_tree e.now))) self.old }
    {
        self.vars[i as usize] = value(e, &self.locals, &self.vars);
        self.ticks += ticks(e) + 1;
    }

    // One message more.
    fn send(&mut self, alloc: Global, out: u32, es: &[Expr]) -> Result<(), AllocError>
        requires within { AreExprsWithin (length self.old.locals) (length self.old.vars) (exprs_tree es.now) }
        requires room { self.old.ticks + (all_ticks (exprs_tree es.now) + 1) < 2 ^ 64 }
        ensures { OnOk result (self.new ≡ after (stmt_run (send out (exprs_tree es.now))) self.old) }
    {
        let values = values(alloc, es, &self.locals, &self.vars)?;
        self.sends.push(SendItem { out, values })?;
        self.ticks += values_ticks(es) + 1;
        Ok(())
    }

    // Whether a test holds, in its ticks and one more.
    fn holds(&mut self, test: &Expr) -> bool
        requires within { IsExprWithin (length self.old.locals) (length self.old.vars) (expr_tree test.now) }
        requires room { self.old.ticks + (expr_ticks (expr_tree test.now) + 1) < 2 ^ 64 }
        ensures holds { result ≡ is_not_zero (expr_value (expr_tree test.now) self.old.locals self.old.vars) }
        ensures spent { self.new ≡ after (spend (expr_ticks (expr_tree test.now) + 1)) self.old }
    {
        self.ticks += ticks(test) + 1;
        value(test, &self.locals, &self.vars) != 0
    }

    // How many turns a loop makes, in its count's ticks and one more.
    fn turns(&mut self, count: &Expr, max: u32) -> u32
        requires within { IsExprWithin (length self.old.locals) (length self.old.vars) (expr_tree count.now) }
        requires room { self.old.ticks + (expr_ticks (expr_tree count.now) + 1) < 2 ^ 64 }
        ensures turns { result ≡ turns_of (expr_value (expr_tree count.now) self.old.locals self.old.vars) max }
        ensures spent { self.new ≡ after (spend (expr_ticks (expr_tree count.now) + 1)) self.old }
    {
        self.ticks += ticks(count) + 1;
        turns_made(value(count, &self.locals, &self.vars), max)
    }

    // Walks a statement.
    #[cycle(walk)]
    fn stmt(&mut self, alloc: Global, s: &Stmt) -> Result<(), AllocError>
        requires within { IsStmtWithin (length self.old.locals) (length self.old.vars) (stmt_tree s.now) }
        requires room { self.old.ticks + stmt_cost (stmt_tree s.now) < 2 ^ 64 }
        ensures { OnOk result (self.new ≡ after (stmt_run (stmt_tree s.now)) self.old) }
    {
        match open(s) {
            Parts::SetLocal(i, e) => {
                self.set_local(i, e);
                Ok(())
            }
            Parts::SetVar(i, e) => {
                self.set_var(i, e);
                Ok(())
            }
            Parts::Send(out, es) => self.send(alloc, out, es),
            Parts::Only(e, first) => {
                if self.holds(e) {
                    self.block(alloc, first)
                } else {
                    Ok(())
                }
            }
            Parts::Else(e, first, second) => {
                if self.holds(e) {
                    self.block(alloc, first)?;
                    self.spend(1);
                    Ok(())
                } else {
                    self.block(alloc, second)
                }
            }
            Parts::Repeat(e, max, body) => {
                let n = self.turns(e, max);
                self.repeat(alloc, n, body)
            }
        }
    }

    /// Walks a block.
    #[cycle(walk)]
    pub fn block(&mut self, alloc: Global, b: &[Stmt]) -> Result<(), AllocError>
        requires within { IsBlockWithin (length self.old.locals) (length self.old.vars) (block_tree b.now) }
        requires room { self.old.ticks + block_cost (block_tree b.now) < 2 ^ 64 }
        ensures { OnOk result (self.new ≡ after (block_run (block_tree b.now)) self.old) }
    {
        for s in b {
            self.stmt(alloc, s)?;
        }
        Ok(())
    }

    // Walks a loop's body so many times.
    #[cycle(walk)]
    fn repeat(&mut self, alloc: Global, n: u32, body: &[Stmt]) -> Result<(), AllocError>
        requires within { IsBlockWithin (length self.old.locals) (length self.old.vars) (block_tree body.now) }
        requires room { self.old.ticks + n * (block_cost (block_tree body.now) + 1) < 2 ^ 64 }
        ensures { OnOk result (self.new ≡ after (turns n (turn_run (block_tree body.now))) self.old) }
    {
        for _ in 0..n {
            self.block(alloc, body)?;
            self.spend(1);
        }
        Ok(())
    }
}
