//! Graphs: the syntax tree of a graph's text, and the resolved graph with inputs, outputs, processes' variables and ports, and
//! each port's handler as a tree.
//!
//! This crate holds the types, their pictures in definitions, what names and operators are, what a handler means, and its
//! greatest cost and sends. It knows nothing of tokens, of instructions or of schedules. Its contract: a tree that is opened
//! has the same picture as its parts, and no handling of a message passes the greatest cost or the greatest number of sends.
#![tactic(auto)]

mod ast;
mod ast_expr;
mod ast_parts;
mod ast_stmt;
mod expr;
mod graph;
mod handled;
mod laws;
mod limits;
mod named;
mod names;
mod operator;
mod ops;
mod parts;
mod place;
mod port;
mod reserved_words;
mod stmt;
mod values;

pub use ast::{
    Ast, Item, Num, OutDecl, OutDecls, Path, PortDecl, PortDecls, Source, VarDecl, VarDecls, Word,
    Words,
};
pub use ast_expr::{AstExpr, AstExprs, ast_call};
pub use ast_parts::{AstExprParts, AstParts, open_ast_expr, open_ast_stmt};
pub use ast_stmt::{AstStmt, Stmts, ast_if, ast_if_else, ast_repeat};
pub use expr::{Expr, Exprs, Op2, expr_call};
pub use graph::{Graph, Input, Inputs, Output, Outputs, Var, Vars};
pub use handled::{SendItem, Sends, Write};
pub use laws::{sends_within_greatest, ticks_within_cost};
pub use limits::{
    MOST_EVERY, MOST_INPUTS, MOST_LOCALS, MOST_NAME_BYTES, MOST_OUTPUTS, MOST_OUTS, MOST_PERIOD,
    MOST_PORTS, MOST_PROCESSES, MOST_RESOURCES, MOST_TURNS, MOST_VARS, MOST_WIDTH,
};
pub use names::{is_digit, is_letter, is_name, is_word_byte};
pub use operator::OpHead;
pub use ops::{NoOps, Ops};
pub use parts::{ExprParts, Parts, open, open_expr};
pub use place::Place;
pub use port::{Feed, OutHead, OutHeads, Port, Ports};
pub use reserved_words::reserved;
pub use stmt::{Block, Stmt, stmt_if, stmt_if_else, stmt_repeat};
pub use values::{applied, inverted, negated, operator_value, turns_made};
