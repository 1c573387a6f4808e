//! Whether a graph calls operators, which aren't built yet.
ghost use Rattle.std.specs.Prelude.{◌≡◌, map};
ghost use Rattle.yt_graph.specs.AstPicture.{ast_block_tree, ast_expr_tree, ast_exprs_tree, ast_stmt_tree, ast_tree, item_tree, port_decl_tree};
ghost use Rattle.yt_admit.specs.Calls.{block_calls, expr_calls, exprs_call, has_call, item_calls, ports_call, stmt_calls};

use yt_graph::{
    Ast, AstExpr, AstExprParts, AstParts, AstStmt, Item, PortDecl, open_ast_expr, open_ast_stmt,
};

/// Whether an operator is called somewhere in the graph.
pub(crate) fn has_call(ast: &Ast) -> bool
    ensures { result ≡ has_call (ast_tree ast.now) }
{
    for item in ast.items.as_slice() {
        if item_calls(item) {
            return true;
        }
    }
    false
}

/// Whether a handler of a part of the graph calls an operator.
fn item_calls(item: &Item) -> bool
    ensures { result ≡ item_calls (item_tree item.now) }
{
    match item {
        Item::Process { ports, .. } => ports_call(ports.as_slice()),
        Item::Input { .. } | Item::Output { .. } | Item::Resource { .. } => false,
    }
}

/// Whether the handler of one of the ports calls an operator.
fn ports_call(ports: &[PortDecl]) -> bool
    ensures { result ≡ ports_call (map port_decl_tree ports.now) }
{
    for port in ports {
        if block_calls(&port.body) {
            return true;
        }
    }
    false
}

/// Whether a block calls an operator.
#[cycle(blocks)]
fn block_calls(block: &[AstStmt]) -> bool
    ensures { result ≡ block_calls (ast_block_tree block.now) }
{
    for stmt in block {
        if stmt_calls(stmt) {
            return true;
        }
    }
    false
}

/// Whether a statement calls an operator.
#[cycle(blocks)]
fn stmt_calls(stmt: &AstStmt) -> bool
    ensures { result ≡ stmt_calls (ast_stmt_tree stmt.now) }
{
    match open_ast_stmt(stmt) {
        AstParts::Let(_, value) | AstParts::Set(_, value) => expr_calls(value),
        AstParts::Send(_, values) => exprs_call(values),
        AstParts::Only(test, first) => expr_calls(test) || block_calls(first),
        AstParts::Else(test, first, second) => {
            expr_calls(test) || block_calls(first) || block_calls(second)
        }
        AstParts::Repeat(count, _, body) => expr_calls(count) || block_calls(body),
    }
}

/// Whether one of the expressions calls an operator.
fn exprs_call(exprs: &[AstExpr]) -> bool
    ensures { result ≡ exprs_call (ast_exprs_tree exprs.now) }
{
    for expr in exprs {
        if expr_calls(expr) {
            return true;
        }
    }
    false
}

/// Whether an expression calls an operator.
fn expr_calls(expr: &AstExpr) -> bool
    ensures { result ≡ expr_calls (ast_expr_tree expr.now) }
{
    match open_ast_expr(expr) {
        AstExprParts::Num(_) | AstExprParts::Name(_) => false,
        AstExprParts::Neg(inner) | AstExprParts::Not(inner) | AstExprParts::Paren(inner) => {
            expr_calls(inner)
        }
        AstExprParts::Two(_, left, right) => expr_calls(left) || expr_calls(right),
        AstExprParts::Call(..) => true,
    }
}
