//! From trees to their texts, and which trees have one.

use crate::trees::{num, tree_of, word};
use std::alloc::{AllocError, Global};
use std::process::Abort;
use std::test::Fail;
use yt_grammar::ast_ok;
use yt_graph::{
    Ast, AstExpr, AstStmt, Item, Op2, OutDecls, Path, PortDecl, PortDecls, Source, Stmts, VarDecl,
    VarDecls, Words, ast_call, ast_if,
};
use yt_list::Items;
use yt_printer::print_graph;

/// Each form of items, statements and expressions, in another layout than the printed one.
const FORMS: &str = "input in1 ( 02 ) period 100 # a hundred
output shown from P . a . o resource disk process P in disk{var s=- 42 port a from in1(x,y)out o(2)every 1 out q(0){let z=not x or-y<10 if z{s=(s+1)}else{if x{send q()}}repeat x max 3{}send o(max2(x,5),0)}port b from P.a.q(){}}";

#[test]
fn a_graph_is_printed(rt: HostRuntime) -> Result<(), Fail> {
    let ast = tree_of(rt.alloc(), FORMS)?;
    assert!(rt; ast_ok(&ast));
    let text = print_graph(rt.alloc(), &ast)?;
    assert_eq!(rt;
        text.as_slice(),
        b"input in1(2) period 100
output shown from P.a.o
resource disk
process P in disk {
  var s = -42
  port a from in1 (x, y) out o(2) every 1 out q(0) {
    let z = not x or -y < 10
    if z {
      s = (s + 1)
    } else {
      if x {
        send q ()
      }
    }
    repeat x max 3 {
    }
    send o (max2(x, 5), 0)
  }
  port b from P.a.q () {
  }
}
"
            .as_slice()
    );
    Ok(())
}

fn name(alloc: Global, text: &str) -> Result<AstExpr, AllocError> {
    Ok(AstExpr::Name(word(alloc, text)?))
}

fn two(alloc: Global, op: Op2, left: AstExpr, right: AstExpr) -> Result<AstExpr, AllocError> {
    Ok(AstExpr::Two {
        op,
        left: Box::new(alloc, left)?,
        right: Box::new(alloc, right)?,
    })
}

/// `s =` this value
fn set_s(alloc: Global, value: AstExpr) -> Result<AstStmt, AllocError> {
    Ok(AstStmt::Set {
        name: word(alloc, "s")?,
        value,
    })
}

/// A port of no parameters and no outs, which is fed by `P.a.q`.
fn port(alloc: Global, body: Stmts) -> Result<PortDecl, AllocError> {
    let path = Path {
        process: word(alloc, "P")?,
        port: word(alloc, "a")?,
        out: word(alloc, "q")?,
    };
    Ok(PortDecl {
        name: word(alloc, "b")?,
        source: Source::Out(path),
        params: Words::new(alloc),
        outs: OutDecls::new(alloc),
        body,
    })
}

/// A graph of one process with a variable that starts so, and this statement.
fn small(alloc: Global, start: i64, stmt: AstStmt) -> Result<Ast, AllocError> {
    let mut vars = VarDecls::new(alloc);
    vars.push(VarDecl {
        name: word(alloc, "s")?,
        start,
    })?;
    let mut ports = PortDecls::new(alloc);
    ports.push(port(alloc, vec![in alloc; stmt]?)?)?;
    let mut items = Items::new(alloc);
    items.push(Item::Process {
        name: word(alloc, "P")?,
        inside: None,
        vars,
        ports,
    })?;
    Ok(Ast { items })
}

/// A number in so many parentheses.
fn in_parens(alloc: Global, count: u32) -> Result<AstExpr, AllocError> {
    let mut e = AstExpr::Num(0);
    for _ in 0..count {
        e = AstExpr::Paren(Box::new(alloc, e)?);
    }
    Ok(e)
}

/// A statement in so many blocks.
fn in_blocks(alloc: Global, count: u32) -> Result<AstStmt, AllocError> {
    let mut s = set_s(alloc, AstExpr::Num(1))?;
    for _ in 0..count {
        s = ast_if(AstExpr::Num(1), vec![in alloc; s]?);
    }
    Ok(s)
}

/// An expression, by its form.
#[derive(Clone, Copy)]
enum Value {
    /// A number.
    Num(i64),
    /// A number in so many parentheses.
    Parens(u32),
    /// A name.
    Name(&'static str),
    /// A call without arguments.
    Call(&'static str),
    /// The first operator between numbers, with the second between numbers on its left.
    Left(Op2, Op2),
    /// The same, on its right.
    Right(Op2, Op2),
}

/// The second operator between two numbers.
fn inner(alloc: Global, op: Op2) -> Result<AstExpr, AllocError> {
    two(alloc, op, AstExpr::Num(1), AstExpr::Num(2))
}

/// The expression of a form.
fn expression(alloc: Global, value: Value) -> Result<AstExpr, AllocError> {
    match value {
        Value::Num(n) => Ok(AstExpr::Num(n)),
        Value::Parens(count) => in_parens(alloc, count),
        Value::Name(text) => name(alloc, text),
        Value::Call(text) => Ok(ast_call(word(alloc, text)?, Vec::new(alloc))),
        Value::Left(op, left) => two(alloc, op, inner(alloc, left)?, AstExpr::Num(3)),
        Value::Right(op, right) => two(alloc, op, AstExpr::Num(3), inner(alloc, right)?),
    }
}

/// Values, and whether `s` can be set to them in a text.
const VALUES: &[(Value, bool)] = &[
    (Value::Parens(31), true),
    (Value::Parens(32), false),
    (Value::Num(i64::MAX), true),
    (Value::Num(-1), false),
    (Value::Name("every"), false),
    (Value::Name(""), false),
    (Value::Name("1st"), false),
    (Value::Call("f"), false),
    (Value::Left(Op2::Sub, Op2::Sub), true),
    (Value::Right(Op2::Sub, Op2::Sub), false),
    (Value::Left(Op2::Sub, Op2::Mul), true),
    (Value::Right(Op2::Sub, Op2::Mul), true),
    (Value::Left(Op2::Mul, Op2::Add), false),
    (Value::Right(Op2::Mul, Op2::Add), false),
    (Value::Left(Op2::Lt, Op2::Eq), false),
    (Value::Right(Op2::Lt, Op2::Eq), false),
    (Value::Left(Op2::And, Op2::And), true),
    (Value::Right(Op2::And, Op2::And), false),
    (Value::Left(Op2::Or, Op2::And), true),
    (Value::Right(Op2::Or, Op2::And), true),
];

/// Checks whether `s` can be set to each value.
fn judge_values(rt: &(impl Abort + AllocGlobal), rows: &[(Value, bool)]) -> Result<(), Fail> {
    let alloc = rt.alloc();
    for (number, (value, expected)) in rows.iter().enumerate() {
        let set = set_s(alloc, expression(alloc, *value)?)?;
        let told = ast_ok(&small(alloc, 0, set)?);
        assert_eq!(rt; told, *expected, "at row {number}");
    }
    Ok(())
}

#[test]
fn values_that_can_be_written(rt: HostRuntime) -> Result<(), Fail> {
    judge_values(&rt, VALUES)
}

/// Starts of a variable and depths of a statement's blocks, and whether a text has them.
const PROCESSES: &[(i64, u32, bool)] = &[
    (0, 7, true),
    (0, 8, false),
    (i64::MIN + 1, 0, true),
    (i64::MIN, 0, false),
];

/// Checks whether a text has each process.
fn judge_processes(rt: &(impl Abort + AllocGlobal), rows: &[(i64, u32, bool)]) -> Result<(), Fail> {
    let alloc = rt.alloc();
    for (start, depth, expected) in rows {
        let told = ast_ok(&small(alloc, *start, in_blocks(alloc, *depth)?)?);
        assert_eq!(rt; told, *expected, "at {start} and {depth}");
    }
    Ok(())
}

#[test]
fn processes_that_can_be_written(rt: HostRuntime) -> Result<(), Fail> {
    judge_processes(&rt, PROCESSES)
}
