//! Handlers of the resolved graph.
ghost use Rattle.std.specs.Prelude.{◌≡◌, ◌-◌, ◌≤◌, length, take, OnOk, IfOk};
ghost use Rattle.yt_graph.specs.AstPicture.{ast_stmt_tree, ast_block_tree};
ghost use Rattle.yt_graph.specs.Limits.{most_locals};
ghost use Rattle.yt_graph.specs.Picture.{expr_tree, stmt_tree, block_tree};
ghost use Rattle.yt_name_faults.specs.Handlers.{left_after, left_after_block};
ghost use Rattle.yt_names.specs.Resolved.{with_local, locals_after, param_locals, set_of, resolved_stmt, resolved_block, resolved_body, locals_of};

use crate::meant::Meant;
use crate::numbers::count_of;
use crate::resolve_expr::{resolve_expr, resolve_exprs};
use crate::scope::{Scope, Visible};
use std::alloc::{AllocError, Global};
use yt_graph::{
    AstParts, AstStmt, Block, Expr, MOST_LOCALS, Stmt, Word, open_ast_stmt, stmt_if, stmt_if_else,
    stmt_repeat,
};

/// A handler that is resolved.
#[derive(Drop)]
pub(crate) struct Handler {
    /// How many locals it has, parameters among them.
    pub(crate) locals: u32,
    /// What it does with a message.
    pub(crate) body: Block,
}

/// A handler on the way to what it is.
#[derive(Drop)]
struct Build<'a> {
    /// The locals that are visible.
    visible: Visible<'a>,
    /// How many more the handler may have.
    left: usize,
    ghost short: { left ≤ most_locals },
}

/// What a handler is by its names.
pub(crate) fn resolve_handler<'a>(
    alloc: Global,
    scope: &Scope,
    params: &'a [Word],
    body: &'a [AstStmt],
) -> Result<Handler, AllocError>
    ensures locals { IfOk result (λ h. h.locals ≡ locals_of params.now (ast_block_tree body.now)) }
    ensures body { IfOk result (λ h. block_tree h.body.items ≡ resolved_body scope.now params.now (ast_block_tree body.now)) }
{
    let mut build = Build {
        visible: Visible::new(alloc),
        left: MOST_LOCALS,
    };
    build.params(params)?;
    let block = build.block(alloc, scope, body)?;
    Ok(Handler {
        locals: build.place(),
        body: block,
    })
}

impl<'a> Build<'a> {
    /// The place of a new local.
    fn place(&self) -> u32
        ensures { result ≡ most_locals - self.now.left }
    {
        MOST_LOCALS.saturating_sub(self.left) as u32
    }

    /// One more local.
    fn add(&mut self, word: &'a Word) -> Result<(), AllocError>
        ensures visible { OnOk result (self.new.visible ≡ with_local self.old.visible self.old.left word.now.text) }
        ensures left { OnOk result (self.new.left ≡ self.old.left - 1) }
    {
        let place = self.place();
        self.visible.add(word.text.as_slice(), place)?;
        self.left = self.left.saturating_sub(1);
        Ok(())
    }

    /// Parameters are the first locals.
    fn params(&mut self, params: &'a [Word]) -> Result<(), AllocError>
        ensures visible { OnOk result (self.new.visible ≡ param_locals self.old.visible self.old.left params.now) }
        ensures left { OnOk result (self.new.left ≡ self.old.left - length params.now) }
    {
        for word in params {
            self.add(word)?;
        }
        Ok(())
    }

    /// What a block is. Its locals are no longer visible behind it.
    #[cycle(build)]
    fn block(&mut self, alloc: Global, scope: &Scope, b: &'a [AstStmt]) -> Result<Block, AllocError>
        ensures visible { OnOk result (self.new.visible ≡ self.old.visible) }
        ensures left { OnOk result (self.new.left ≡ left_after_block self.old.left (ast_block_tree b.now)) }
        ensures block { IfOk result (λ x. block_tree x.items ≡ resolved_block scope.now self.old.visible self.old.left (ast_block_tree b.now)) }
    {
        let outer = self.visible.len();
        let block = self.stmts(alloc, scope, b)?;
        self.visible.cut(outer);
        Ok(block)
    }

    /// What statements are. Their locals stay visible.
    #[cycle(build)]
    fn stmts(&mut self, alloc: Global, scope: &Scope, b: &'a [AstStmt]) -> Result<Block, AllocError>
        ensures visible { OnOk result (take (length self.old.visible) self.new.visible ≡ self.old.visible) }
        ensures left { OnOk result (self.new.left ≡ left_after_block self.old.left (ast_block_tree b.now)) }
        ensures block { IfOk result (λ x. block_tree x.items ≡ resolved_block scope.now self.old.visible self.old.left (ast_block_tree b.now)) }
    {
        let mut all = Vec::new(alloc);
        for s in b {
            let one = self.stmt(alloc, scope, s)?;
            all.push(one)?;
        }
        Ok(all)
    }

    /// What a statement is.
    #[cycle(build)]
    fn stmt(&mut self, alloc: Global, scope: &Scope, s: &'a AstStmt) -> Result<Stmt, AllocError>
        ensures visible { OnOk result (self.new.visible ≡ locals_after self.old.visible self.old.left (ast_stmt_tree s.now)) }
        ensures left { OnOk result (self.new.left ≡ left_after self.old.left (ast_stmt_tree s.now)) }
        ensures stmt { IfOk result (λ x. stmt_tree x ≡ resolved_stmt scope.now self.old.visible self.old.left (ast_stmt_tree s.now)) }
    {
        match open_ast_stmt(s) {
            AstParts::Let(word, value) => {
                let value = resolve_expr(alloc, scope, &self.visible, value)?;
                let local = self.place();
                self.add(word)?;
                Ok(Stmt::SetLocal { local, value })
            }
            AstParts::Set(word, value) => {
                let value = resolve_expr(alloc, scope, &self.visible, value)?;
                Ok(set(scope.meant(&self.visible, word.text.as_slice()), value))
            }
            AstParts::Send(word, values) => {
                let values = resolve_exprs(alloc, scope, &self.visible, values)?;
                let out = scope.out_number(word.text.as_slice());
                Ok(Stmt::Send { out, values })
            }
            AstParts::Only(test, yes) => {
                let test = resolve_expr(alloc, scope, &self.visible, test)?;
                let yes = self.block(alloc, scope, yes)?;
                Ok(stmt_if(test, yes))
            }
            AstParts::Else(test, yes, no) => {
                let test = resolve_expr(alloc, scope, &self.visible, test)?;
                let yes = self.block(alloc, scope, yes)?;
                let no = self.block(alloc, scope, no)?;
                Ok(stmt_if_else(test, yes, no))
            }
            AstParts::Repeat(count, most, body) => {
                let count = resolve_expr(alloc, scope, &self.visible, count)?;
                let body = self.block(alloc, scope, body)?;
                Ok(stmt_repeat(count, count_of(most), body))
            }
        }
    }
}

/// What an assignment to a name is.
fn set(meant: Meant, value: Expr) -> Stmt
    ensures { stmt_tree result ≡ set_of meant (expr_tree value) }
{
    match meant {
        Meant::Local(local) => Stmt::SetLocal { local, value },
        Meant::Var(var) => Stmt::SetVar { var, value },
        Meant::Nothing => Stmt::SetLocal { local: 0, value },
    }
}
