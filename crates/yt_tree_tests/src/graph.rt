//! Nodes of both trees, opened.

use crate::trees::{num, word};
use std::test::Fail;
use yt_graph::{
    AstExpr, AstExprParts, AstParts, Expr, Parts, Stmt, ast_call, ast_if, ast_if_else, ast_repeat,
    open, open_ast_expr, open_ast_stmt,
};

#[test]
fn opens_what_was_built(rt: HostRuntime) -> Result<(), Fail> {
    let alloc = rt.alloc();
    let args = vec![in alloc; Expr::Local(0), Expr::Num(-3)]?;
    let call = Expr::Call {
        op: 3,
        code: 4,
        ticks: 5,
        args,
    };
    let values = vec![in alloc; Expr::Not(Box::new(alloc, call)?)]?;
    let s = Stmt::If {
        test: Expr::Var(2),
        yes: Vec::new(alloc),
        no: Some(vec![in alloc; Stmt::Send { out: 1, values }]?),
    };
    let Parts::Else(test, yes, no) = open(&s) else {
        return Err(Fail::from("an `if` with `else`"));
    };
    assert!(rt; matches!(test, Expr::Var(2)));
    assert_eq!(rt; (yes.len(), no.len()), (0, 1));
    Ok(())
}

#[test]
fn opens_a_call_and_its_arguments(rt: HostRuntime) -> Result<(), Fail> {
    let alloc = rt.alloc();
    let args = vec![in alloc; AstExpr::Num(1), AstExpr::Name(word(alloc, "x")?)]?;
    let call = ast_call(word(alloc, "greater")?, args);
    let AstExprParts::Call(name, args) = open_ast_expr(&call) else {
        return Err(Fail::from("a call"));
    };
    assert_eq!(rt; name.text.as_slice(), b"greater".as_slice());
    assert_eq!(rt; args.len(), 2);
    Ok(())
}

#[test]
fn opens_blocks_in_blocks(rt: HostRuntime) -> Result<(), Fail> {
    let alloc = rt.alloc();
    let inner = ast_if(AstExpr::Num(0), Vec::new(alloc));
    let turns = ast_repeat(AstExpr::Num(2), num(7), vec![in alloc; inner]?);
    let both = ast_if_else(AstExpr::Num(1), Vec::new(alloc), vec![in alloc; turns]?);
    let AstParts::Else(_, yes, no) = open_ast_stmt(&both) else {
        return Err(Fail::from("an `if` with `else`"));
    };
    assert_eq!(rt; (yes.len(), no.len()), (0, 1));
    let AstParts::Repeat(_, max, body) = open_ast_stmt(&no[0]) else {
        return Err(Fail::from("a `repeat`"));
    };
    assert_eq!(rt; (max.value, body.len()), (7, 1));
    Ok(())
}
