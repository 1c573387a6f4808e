//! From texts to their trees.

use crate::texts::front;
use std::alloc::Global;
use std::process::Abort;
use std::test::Fail;
use yt_graph::{
    Ast, AstExpr, AstExprParts, AstParts, Item, Op2, Place, open_ast_expr, open_ast_stmt,
};
use yt_lexer::lex;
use yt_parser::{ParseFault, parse};

/// What is answered for the text, cut off where it is long.
fn answer(alloc: Global, text: &str) -> Result<Ast, ParseFault> {
    let bytes = front(text);
    match lex(alloc, bytes) {
        Ok(tokens) => parse(alloc, bytes, &tokens),
        Err(_) => Err(ParseFault::Memory),
    }
}

/// The value that the first statement of the first port of the first process sets.
fn first_value(ast: &Ast) -> Option<&AstExpr> {
    let Item::Process { ports, .. } = ast.items.as_slice().first()? else {
        return None;
    };
    let port = ports.as_slice().first()?;
    match open_ast_stmt(port.body.first()?) {
        AstParts::Set(_, value) => Some(value),
        _ => None,
    }
}

/// The operator of an expression, and its sides.
fn sides(e: &AstExpr) -> Option<(Op2, &AstExpr, &AstExpr)> {
    match open_ast_expr(e) {
        AstExprParts::Two(op, left, right) => Some((op, left, right)),
        _ => None,
    }
}

/// Texts, and how many items their trees have.
const PARTS: &[(&str, usize)] = &[
    ("", 0),
    ("# no part\n", 0),
    ("input x(2)period 10", 1),
    ("output o from p.a.out1", 1),
    ("resource r resource s", 2),
    (
        "process p in r{var v=-3 port a from x(k,l)out o(1)every 2 out q(2){let t=k send o(t*-l)v=v+1}}",
        1,
    ),
    (
        "process p{port a from q.b.o(){if v{send o()}else{repeat 3 max 4{v=f(v,(not 1))}}}}",
        1,
    ),
    (
        "process p{port a from x(){y=1+1+1+1+1+1+1+1+1+1+1+1+1+1+1+1+1+1+1+1+1+1+1+1+1+1+1+1+1+1+1+1}}",
        1,
    ),
    (
        "process p{port a from x(){y=(((((((((((((((((((((((((((((((1)))))))))))))))))))))))))))))))}}",
        1,
    ),
    (
        "process p{port a from x(){if 1{if 1{if 1{if 1{if 1{if 1{if 1{}}}}}}}}}",
        1,
    ),
];

/// Checks how many items each text has.
fn judge_parts(rt: &(impl Abort + AllocGlobal), rows: &[(&str, usize)]) -> Result<(), Fail> {
    for (text, parts) in rows {
        let ast = answer(rt.alloc(), text).ok().ok_or("a fault")?;
        assert_eq!(rt; ast.items.len(), *parts, "at {text}");
    }
    Ok(())
}

#[test]
fn texts_have_their_parts(rt: HostRuntime) -> Result<(), Fail> {
    judge_parts(&rt, PARTS)
}

/// Texts, and the line and column of their fault.
const FAULTS: &[(&str, u32, u32)] = &[
    ("x", 1, 1),
    ("input x(-1)period 2", 1, 9),
    ("input x(1)", 1, 11),
    ("output o from p.a", 1, 18),
    ("process p{port a from x(){}", 1, 28),
    ("process p{port a from x y(){}}", 1, 25),
    ("process p{port a from x(k,){}}", 1, 27),
    ("process p{var v=1 port a from x(){}var w=2}", 1, 36),
    ("process p{port a from x(){y=1 else}}", 1, 31),
    ("process p{port a from x(){y=1<2<3}}", 1, 32),
    ("process p{port a from x(){y=1+not 2}}", 1, 31),
    ("process p{port a from x(){y=f()}}", 1, 31),
    ("process p{port a from x(){if 1{}else if 2{}}}", 1, 38),
    (
        "process p{port a from x(){y=1+1+1+1+1+1+1+1+1+1+1+1+1+1+1+1+1+1+1+1+1+1+1+1+1+1+1+1+1+1+1+1+1}}",
        1,
        92,
    ),
    (
        "process p{port a from x(){y=((((((((((((((((((((((((((((((((1))))))))))))))))))))))))))))))))}}",
        1,
        60,
    ),
    (
        "process p{port a from x(){if 1{if 1{if 1{if 1{if 1{if 1{if 1{if 1{}}}}}}}}}}",
        1,
        62,
    ),
    ("resource r\n  resource 2", 2, 12),
];

/// Checks where the fault of each text is.
fn judge_faults(rt: &(impl Abort + AllocGlobal), rows: &[(&str, u32, u32)]) -> Result<(), Fail> {
    for (text, line, col) in rows {
        let place = Place {
            line: *line,
            col: *col,
        };
        let fault = ParseFault::Syntax(place);
        assert_eq!(rt; answer(rt.alloc(), text).err(), Some(fault), "at {text}");
    }
    Ok(())
}

#[test]
fn texts_have_their_fault(rt: HostRuntime) -> Result<(), Fail> {
    judge_faults(&rt, FAULTS)
}

#[test]
fn operators_group_to_the_left(rt: HostRuntime) -> Result<(), Fail> {
    let text = "process p{port a from x(){y=1-2-3*4}}";
    let ast = answer(rt.alloc(), text).ok().ok_or("a fault")?;
    let value = first_value(&ast).ok_or("no value")?;
    let (outer, left, right) = sides(value).ok_or("no operator")?;
    let (first, _, _) = sides(left).ok_or("no operator on the left")?;
    let (last, _, _) = sides(right).ok_or("no operator on the right")?;
    assert_eq!(rt; outer, Op2::Sub);
    assert_eq!(rt; first, Op2::Sub);
    assert_eq!(rt; last, Op2::Mul);
    Ok(())
}
