//! Small handlers, stepped to their end.

ghost use Rattle.std.specs.Prelude.{◌≡◌, length, IfOk, OnOk};
ghost use Rattle.yt_code.specs.Valid.{IsValidCode};
ghost use Rattle.yt_code.specs.Ready.{IsReady};

use crate::machines::{Sent, run};
use std::alloc::{AllocError, Global};
use std::process::Abort;
use std::test::Fail;
use yt_code::{Code, Instr, Instrs, Machine, Stepped};
use yt_graph::Op2;

/// Makes one tick, which isn't the last.
fn goes_on<R: Abort>(
    machine: &mut Machine,
    code: &Code,
    vars: &mut [i64],
    out: &mut Sent<'_, R>,
) -> Result<(), Fail>
    requires ready { IsReady code.now machine.old }
    requires vars { length vars.old ≡ code.now.vars }
    ensures { OnOk result (IsReady code.now machine.new) }
{
    match machine.step(code, vars, out) {
        Stepped::Going => Ok(()),
        Stepped::Ended => Err(Fail::from("it has ended")),
    }
}

/// Code of these instructions.
fn code<const N: usize>(
    alloc: Global,
    instrs: [Instr; N],
    params: u32,
    locals: u32,
    vars: u32,
) -> Result<Code, AllocError>
    requires { IsValidCode (record { instrs = instrs; params = params; locals = locals; vars = vars }) }
    ensures { IfOk result (λ c. c ≡ record { instrs = instrs.entry; params = params; locals = locals; vars = vars }) }
{
    let instrs = Instrs::from_vec(Vec::from_array(alloc, instrs)?);
    Ok(Code::new(instrs, params, locals, vars))
}

/// Sends the message's number and 2.
fn sender(alloc: Global) -> Result<Code, AllocError>
    ensures { IfOk result (λ c. (c.params ≡ 1) × (c.vars ≡ 0)) }
{
    let instrs = [
        Instr::Local(0),
        Instr::Push(2),
        Instr::Send { out: 1, width: 2 },
        Instr::End,
    ];
    code(alloc, instrs, 1, 1, 0)
}

/// Stores the value of an operator between two numbers.
fn operation(alloc: Global, op: Op2, x: i64, y: i64) -> Result<Code, AllocError>
    ensures { IfOk result (λ c. (c.params ≡ 0) × (c.vars ≡ 1)) }
{
    let instrs = [
        Instr::Push(x),
        Instr::Push(y),
        Instr::Two(op),
        Instr::SetVar(0),
        Instr::End,
    ];
    code(alloc, instrs, 0, 0, 1)
}

#[test]
fn tells_what_it_was_made_of(rt: HostRuntime) -> Result<(), Fail> {
    let handler = sender(rt.alloc())?;
    assert_eq!(rt;
        (handler.params(), handler.locals(), handler.vars()),
        (1, 1, 0)
    );
    assert_eq!(rt; handler.instrs().len(), 4);
    if handler.instrs().len() > 1 {
        assert_eq!(rt; *handler.at(1), Instr::Push(2));
    }
    Ok(())
}

#[test]
fn stores_and_reads(rt: HostRuntime) -> Result<(), Fail> {
    let instrs = [
        Instr::Local(0),
        Instr::SetLocal(2),
        Instr::Local(2),
        Instr::SetVar(1),
        Instr::Var(0),
        Instr::SetVar(2),
        Instr::Local(1),
        Instr::SetVar(0),
        Instr::End,
    ];
    let handler = code(rt.alloc(), instrs, 1, 3, 3)?;
    let mut machine = Machine::new();
    let mut out = Sent::new(&rt);
    let mut vars = [4, 5, 6];
    machine.begin(&handler, &[7]);
    goes_on(&mut machine, &handler, &mut vars, &mut out)?;
    goes_on(&mut machine, &handler, &mut vars, &mut out)?;
    goes_on(&mut machine, &handler, &mut vars, &mut out)?;
    assert_eq!(rt; vars, [4, 5, 6]);
    goes_on(&mut machine, &handler, &mut vars, &mut out)?;
    assert_eq!(rt; vars, [4, 7, 6]);
    assert_eq!(rt; run(&mut machine, &handler, &mut vars, &mut out), 5);
    assert_eq!(rt; vars, [0, 7, 4]);
    Ok(())
}

/// An operator, its left side, its right side, and its value.
const OPERATORS: &[(Op2, i64, i64, i64)] = &[
    (Op2::Or, 0, 0, 0),
    (Op2::Or, 0, -3, 1),
    (Op2::Or, 2, 0, 1),
    (Op2::And, 2, -1, 1),
    (Op2::And, 2, 0, 0),
    (Op2::Lt, -1, 0, 1),
    (Op2::Lt, 0, 0, 0),
    (Op2::Le, 0, 0, 1),
    (Op2::Le, 1, 0, 0),
    (Op2::Gt, 1, 0, 1),
    (Op2::Gt, 0, 0, 0),
    (Op2::Ge, 0, 0, 1),
    (Op2::Ge, -1, 0, 0),
    (Op2::Eq, 3, 3, 1),
    (Op2::Eq, 3, 4, 0),
    (Op2::Ne, 3, 3, 0),
    (Op2::Ne, 3, 4, 1),
    (Op2::Add, 2, 3, 5),
    (Op2::Add, i64::MAX, 1, i64::MIN),
    (Op2::Sub, 2, 3, -1),
    (Op2::Sub, i64::MIN, 1, i64::MAX),
    (Op2::Mul, -4, 3, -12),
    (Op2::Mul, i64::MAX, 2, -2),
    (Op2::Div, 7, -2, -3),
    (Op2::Div, -7, 2, -3),
    (Op2::Div, 7, 0, 0),
    (Op2::Div, i64::MIN, -1, i64::MIN),
    (Op2::Rem, 7, -2, 1),
    (Op2::Rem, -7, 2, -1),
    (Op2::Rem, -7, -2, -1),
    (Op2::Rem, 7, 0, 0),
    (Op2::Rem, i64::MIN, -1, 0),
];

/// Checks each operator's value.
fn judge_operators(
    rt: &(impl Abort + AllocGlobal),
    rows: &[(Op2, i64, i64, i64)],
) -> Result<(), Fail> {
    for (op, x, y, want) in rows {
        let handler = operation(rt.alloc(), *op, *x, *y)?;
        let mut machine = Machine::new();
        let mut vars = [99];
        machine.begin(&handler, &[]);
        assert_eq!(rt;
            run(&mut machine, &handler, &mut vars, &mut Sent::new(rt)),
            5
        );
        assert_eq!(rt; vars, [*want], "{op:?} of {x} and {y}");
    }
    Ok(())
}

#[test]
fn gives_the_values_of_operators(rt: HostRuntime) -> Result<(), Fail> {
    judge_operators(&rt, OPERATORS)
}

#[test]
fn changes_one_number(rt: HostRuntime) -> Result<(), Fail> {
    let instrs = [
        Instr::Local(0),
        Instr::Neg,
        Instr::SetVar(0),
        Instr::Local(0),
        Instr::Not,
        Instr::SetVar(1),
        Instr::End,
    ];
    let handler = code(rt.alloc(), instrs, 1, 1, 2)?;
    for (x, negated, inverted) in [(5, -5, 0), (0, 0, 1), (-1, 1, 0), (i64::MIN, i64::MIN, 0)] {
        let mut machine = Machine::new();
        let mut vars = [99, 99];
        machine.begin(&handler, &[x]);
        assert_eq!(rt;
            run(&mut machine, &handler, &mut vars, &mut Sent::new(&rt)),
            7
        );
        assert_eq!(rt; vars, [negated, inverted]);
    }
    Ok(())
}

#[test]
fn sends_in_order(rt: HostRuntime) -> Result<(), Fail> {
    let handler = sender(rt.alloc())?;
    let mut machine = Machine::new();
    let mut out = Sent::new(&rt);
    machine.begin(&handler, &[9]);
    goes_on(&mut machine, &handler, &mut [], &mut out)?;
    goes_on(&mut machine, &handler, &mut [], &mut out)?;
    assert!(rt; out.pairs.is_empty());
    goes_on(&mut machine, &handler, &mut [], &mut out)?;
    assert_eq!(rt; out.pairs.as_slice(), [(9, 2)].as_slice());
    assert_eq!(rt; run(&mut machine, &handler, &mut [], &mut out), 1);
    assert_eq!(rt; out.pairs.as_slice(), [(9, 2)].as_slice());
    Ok(())
}

#[test]
fn begins_anew(rt: HostRuntime) -> Result<(), Fail> {
    let handler = sender(rt.alloc())?;
    let mut machine = Machine::new();
    let mut out = Sent::new(&rt);
    machine.begin(&handler, &[1]);
    goes_on(&mut machine, &handler, &mut [], &mut out)?;
    goes_on(&mut machine, &handler, &mut [], &mut out)?;
    machine.begin(&handler, &[9]);
    assert_eq!(rt; run(&mut machine, &handler, &mut [], &mut out), 4);
    assert_eq!(rt; out.pairs.as_slice(), [(9, 2)].as_slice());
    Ok(())
}

#[test]
fn takes_one_of_two_ways(rt: HostRuntime) -> Result<(), Fail> {
    let instrs = [
        Instr::Local(0),
        Instr::JumpZero(5),
        Instr::Push(1),
        Instr::SetVar(0),
        Instr::Jump(7),
        Instr::Push(2),
        Instr::SetVar(0),
        Instr::End,
    ];
    let handler = code(rt.alloc(), instrs, 1, 1, 1)?;
    for (x, want, ticks) in [(3, 1, 6), (-1, 1, 6), (0, 2, 5)] {
        let mut machine = Machine::new();
        let mut vars = [99];
        machine.begin(&handler, &[x]);
        assert_eq!(rt;
            run(&mut machine, &handler, &mut vars, &mut Sent::new(&rt)),
            ticks
        );
        assert_eq!(rt; vars, [want]);
    }
    Ok(())
}

#[test]
fn makes_turns(rt: HostRuntime) -> Result<(), Fail> {
    let instrs = [
        Instr::Local(0),
        Instr::Loop { max: 3, to: 7 },
        Instr::Var(0),
        Instr::Push(1),
        Instr::Two(Op2::Add),
        Instr::SetVar(0),
        Instr::Again(2),
        Instr::End,
    ];
    let handler = code(rt.alloc(), instrs, 1, 1, 1)?;
    // Three ticks, and five a turn.
    for (count, turns, ticks) in [(-1, 0, 3), (0, 0, 3), (1, 1, 8), (3, 3, 18), (4, 3, 18)] {
        let mut machine = Machine::new();
        let mut vars = [10];
        machine.begin(&handler, &[count]);
        assert_eq!(rt;
            run(&mut machine, &handler, &mut vars, &mut Sent::new(&rt)),
            ticks
        );
        assert_eq!(rt; vars, [10 + turns]);
    }
    Ok(())
}

#[test]
fn makes_turns_in_turns(rt: HostRuntime) -> Result<(), Fail> {
    let instrs = [
        Instr::Push(2),
        Instr::Loop { max: 9, to: 10 },
        Instr::Push(3),
        Instr::Loop { max: 9, to: 9 },
        Instr::Var(0),
        Instr::Push(1),
        Instr::Two(Op2::Add),
        Instr::SetVar(0),
        Instr::Again(4),
        Instr::Again(2),
        Instr::End,
    ];
    let handler = code(rt.alloc(), instrs, 0, 0, 1)?;
    let mut machine = Machine::new();
    let mut vars = [0];
    machine.begin(&handler, &[]);
    // Two ticks, twice two and three times five and one, and the end.
    assert_eq!(rt;
        run(&mut machine, &handler, &mut vars, &mut Sent::new(&rt)),
        39
    );
    assert_eq!(rt; vars, [6]);
    Ok(())
}
