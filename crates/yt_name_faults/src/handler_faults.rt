//! The faults of statements and parameters.
ghost use Rattle.std.specs.Prelude.{◌≡◌, ◌-◌, length, take, OnOk};
ghost use Rattle.std.specs.Option.{option_copied};
ghost use Rattle.yt_graph.specs.AstPicture.{ast_stmt_tree, ast_block_tree};
ghost use Rattle.yt_name_faults.specs.First.{least_with};
ghost use Rattle.yt_table.specs.Tables.{with_name};
ghost use Rattle.yt_name_faults.specs.Handlers.{left_after, left_after_block, visible_after, visible_params, local_faults, send_faults, stmt_faults, block_faults, params_faults, handler_faults};

use crate::env::Env;
use crate::expr_faults::{expr_faults, exprs_faults};
use crate::fault::{LimitKind, NameFault};
use crate::least::Least;
use crate::ranges::{is_count, is_outside};
use std::alloc::{AllocError, Global};
use yt_graph::{AstParts, AstStmt, MOST_LOCALS, MOST_TURNS, OutDecl, Word, open_ast_stmt};
use yt_table::NameSet;

/// A handler on the way to its faults.
#[derive(Drop)]
struct Walk<'a> {
    /// The locals that are visible.
    visible: NameSet<'a>,
    /// How many more the handler may have.
    left: usize,
    /// The fault that decides of those that were found.
    least: Least,
}

/// Notes the faults of a handler.
pub(crate) fn handler_faults<'a>(
    alloc: Global,
    env: &Env,
    least: &mut Least,
    params: &'a [Word],
    body: &'a [AstStmt],
) -> Result<(), AllocError>
    ensures { OnOk result (least.new ≡ least_with (handler_faults env.now params.now (ast_block_tree body.now)) least.old) }
{
    let mut walk = Walk {
        visible: NameSet::new(alloc),
        left: MOST_LOCALS,
        least: *least,
    };
    walk.params(env, params)?;
    walk.block(env, body)?;
    *least = walk.least;
    Ok(())
}

impl<'a> Walk<'a> {
    /// Notes the faults of parameters, which are visible behind them.
    fn params(&mut self, env: &Env, params: &'a [Word]) -> Result<(), AllocError>
        ensures visible { OnOk result (self.new.visible ≡ visible_params self.old.visible params.now) }
        ensures left { OnOk result (self.new.left ≡ self.old.left - length params.now) }
        ensures least { OnOk result (self.new.least ≡ least_with (params_faults env.now self.old.visible self.old.left params.now) self.old.least) }
    {
        for word in params {
            self.local_faults(env, word);
            self.add(word)?;
        }
        Ok(())
    }

    /// Notes the faults of a block. Its locals are no longer visible behind it.
    #[cycle(walk)]
    fn block(&mut self, env: &Env, b: &'a [AstStmt]) -> Result<(), AllocError>
        ensures visible { OnOk result (self.new.visible ≡ self.old.visible) }
        ensures left { OnOk result (self.new.left ≡ left_after_block self.old.left (ast_block_tree b.now)) }
        ensures least { OnOk result (self.new.least ≡ least_with (block_faults env.now self.old.visible self.old.left (ast_block_tree b.now)) self.old.least) }
    {
        let outer = self.visible.len();
        self.stmts(env, b)?;
        self.visible.truncate(outer);
        Ok(())
    }

    /// Notes the faults of statements. Their locals stay visible.
    #[cycle(walk)]
    fn stmts(&mut self, env: &Env, b: &'a [AstStmt]) -> Result<(), AllocError>
        ensures visible { OnOk result (take (length self.old.visible) self.new.visible ≡ self.old.visible) }
        ensures left { OnOk result (self.new.left ≡ left_after_block self.old.left (ast_block_tree b.now)) }
        ensures least { OnOk result (self.new.least ≡ least_with (block_faults env.now self.old.visible self.old.left (ast_block_tree b.now)) self.old.least) }
    {
        for s in b {
            self.stmt(env, s)?;
        }
        Ok(())
    }

    /// Notes the faults of a statement.
    #[cycle(walk)]
    #[tactic(auto, using(crate::proofs::FirstLemmas::both))]
    fn stmt(&mut self, env: &Env, s: &'a AstStmt) -> Result<(), AllocError>
        ensures visible { OnOk result (self.new.visible ≡ visible_after self.old.visible (ast_stmt_tree s.now)) }
        ensures left { OnOk result (self.new.left ≡ left_after self.old.left (ast_stmt_tree s.now)) }
        ensures least { OnOk result (self.new.least ≡ least_with (stmt_faults env.now self.old.visible self.old.left (ast_stmt_tree s.now)) self.old.least) }
    {
        match open_ast_stmt(s) {
            AstParts::Let(word, value) => {
                self.local_faults(env, word);
                expr_faults(env, &self.visible, &mut self.least, value);
                self.add(word)
            }
            AstParts::Set(word, value) => {
                let known = env.knows(&self.visible, word.text.as_slice());
                self.least.note_if(!known, NameFault::Unknown(word.place));
                expr_faults(env, &self.visible, &mut self.least, value);
                Ok(())
            }
            AstParts::Send(word, values) => {
                send_faults(
                    &mut self.least,
                    word,
                    values.len(),
                    env.out(word.text.as_slice()),
                );
                exprs_faults(env, &self.visible, &mut self.least, values);
                Ok(())
            }
            AstParts::Only(test, yes) => {
                expr_faults(env, &self.visible, &mut self.least, test);
                self.block(env, yes)
            }
            AstParts::Else(test, yes, no) => {
                expr_faults(env, &self.visible, &mut self.least, test);
                self.block(env, yes)?;
                self.block(env, no)
            }
            AstParts::Repeat(count, most, body) => {
                expr_faults(env, &self.visible, &mut self.least, count);
                let cause = is_outside(1, MOST_TURNS, most);
                self.least
                    .note_if(cause, NameFault::Limit(most.place, LimitKind::Turns));
                self.block(env, body)
            }
        }
    }

    /// Notes the faults of a new local.
    #[tactic(auto, using(crate::proofs::FirstLemmas::both))]
    fn local_faults(&mut self, env: &Env, word: &Word)
        ensures visible { self.new.visible ≡ self.old.visible }
        ensures left { self.new.left ≡ self.old.left }
        ensures least { self.new.least ≡ least_with (local_faults env.now self.old.visible self.old.left word.now) self.old.least }
    {
        let known = env.knows(&self.visible, word.text.as_slice());
        self.least.note_if(known, NameFault::Twice(word.place));
        let full = self.left == 0;
        self.least
            .note_if(full, NameFault::Limit(word.place, LimitKind::Locals));
    }

    /// A new local is visible, and the handler may have one less.
    fn add(&mut self, word: &'a Word) -> Result<(), AllocError>
        ensures visible { OnOk result (self.new.visible ≡ with_name word.now.text self.old.visible) }
        ensures left { OnOk result (self.new.left ≡ self.old.left - 1) }
        ensures least { OnOk result (self.new.least ≡ self.old.least) }
    {
        self.visible.insert(word.text.as_slice())?;
        self.left = self.left.saturating_sub(1);
        Ok(())
    }
}

/// Notes the faults of an out's word with so many values.
fn send_faults(least: &mut Least, word: &Word, count: usize, out: Option<&OutDecl>)
    ensures { least.new ≡ least_with (send_faults word.now count (option_copied out.entry)) least.old }
{
    match out {
        None => least.note(NameFault::Unknown(word.place)),
        Some(decl) => least.note_if(!is_count(decl.width, count), NameFault::Width(word.place)),
    }
}
