//! What the names of trees stand for, and what is wrong with them.

use crate::trees::tree_of;
use std::alloc::{AllocError, Global};
use std::process::Abort;
use std::test::Fail;
use yt_graph::{Feed, Place};
use yt_names::{LimitKind, NameFault, resolve};

/// A graph that names its input behind the port that it feeds.
const SMALL: &str =
    "output led from p.a.o process p{port a from tick(v)out o(1){send o(v+1)}}input tick(1)period 10";

#[test]
fn a_small_tree_is_resolved(rt: HostRuntime) -> Result<(), Fail> {
    let alloc = rt.alloc();
    let ast = tree_of(alloc, SMALL)?;
    let graph = resolve(alloc, &ast, &[]).ok().ok_or("a fault")?;
    assert_eq!(rt; graph.inputs.len(), 1);
    assert_eq!(rt; graph.outputs.len(), 1);
    assert_eq!(rt; graph.ports.len(), 1);
    assert!(rt; graph.groups.is_empty());
    assert!(rt; graph.vars.is_empty());
    let led = graph.outputs.as_slice().first().ok_or("no output")?;
    assert_eq!(rt; (led.port, led.out), (1, 1));
    let port = graph.ports.as_slice().first().ok_or("no port")?;
    assert_eq!(rt; port.feed, Feed::Input(1));
    assert_eq!(rt; (port.group, port.params, port.locals), (0, 1, 1));
    Ok(())
}

/// Texts whose one line has a fault of names, and where.
const FAULTS: &[(&str, NameFault)] = &[
    (
        "output led from p.a.o",
        NameFault::Unknown(Place { line: 1, col: 17 }),
    ),
    (
        "output led from p.a.o process p{}",
        NameFault::Unknown(Place { line: 1, col: 19 }),
    ),
    (
        "input t(0)period 1 process p{port a from t(){let x=y}}",
        NameFault::Unknown(Place { line: 1, col: 52 }),
    ),
    (
        "input a(1)period 10 output o from a.b.c",
        NameFault::Kind(Place { line: 1, col: 35 }),
    ),
    (
        "process p in p{}",
        NameFault::Kind(Place { line: 1, col: 14 }),
    ),
    (
        "resource a resource a",
        NameFault::Twice(Place { line: 1, col: 21 }),
    ),
    (
        "input t(0)period 1 process p{port a from t()out o(0)out o(0){}}",
        NameFault::Twice(Place { line: 1, col: 57 }),
    ),
    (
        "input t(2)period 1 process p{port a from t(x){}}",
        NameFault::Width(Place { line: 1, col: 35 }),
    ),
    (
        "input t(0)period 1 process p{port a from t()out o(1){send o()}}",
        NameFault::Width(Place { line: 1, col: 59 }),
    ),
    (
        "input t(9)period 10",
        NameFault::Limit(Place { line: 1, col: 9 }, LimitKind::Width),
    ),
    (
        "input t(1)period 0",
        NameFault::Limit(Place { line: 1, col: 18 }, LimitKind::Period),
    ),
    (
        "input t(0)period 1 process p{port a from t()out o(0)every 0{}}",
        NameFault::Limit(Place { line: 1, col: 59 }, LimitKind::Every),
    ),
    (
        "input t(0)period 1 process p{port a from t(){repeat 1 max 0{}}}",
        NameFault::Limit(Place { line: 1, col: 59 }, LimitKind::Turns),
    ),
    (
        "process p{port a from p.a.o()out o(0){}}",
        NameFault::Cycle(Place { line: 1, col: 16 }),
    ),
    (
        "input i00(0)period 1 input i01(0)period 1 input i02(0)period 1 input i03(0)perio\
         d 1 input i04(0)period 1 input i05(0)period 1 input i06(0)period 1 input i07(0)p\
         eriod 1 input i08(0)period 1 input i09(0)period 1 input i10(0)period 1 input i11\
         (0)period 1 input i12(0)period 1 input i13(0)period 1 input i14(0)period 1 input \
         i15(0)period 1 input i16(0)period 1 ",
        NameFault::Limit(Place { line: 1, col: 343 }, LimitKind::Inputs),
    ),
    (
        "resource r00 resource r01 resource r02 resource r03 resource r04 resource r05 re\
         source r06 resource r07 resource r08 resource r09 resource r10 resource r11 reso\
         urce r12 resource r13 resource r14 resource r15 resource r16 resource r17 resour\
         ce r18 resource r19 resource r20 resource r21 resource r22 resource r23 resource \
         r24 resource r25 resource r26 resource r27 resource r28 resource r29 resource r3\
         0 resource r31 resource r32 ",
        NameFault::Limit(Place { line: 1, col: 426 }, LimitKind::Resources),
    ),
    (
        "input t(0)period 1 process p{port a from t()out o0(0)out o1(0)out o2(0)out o3(0)\
         out o4(0)out o5(0)out o6(0)out o7(0)out o8(0){}}",
        NameFault::Limit(Place { line: 1, col: 121 }, LimitKind::Outs),
    ),
    (
        "input t(0)period 1 process p{port a from t(){let x00=0 let x01=0 let x02=0 let x\
         03=0 let x04=0 let x05=0 let x06=0 let x07=0 let x08=0 let x09=0 let x10=0 let x\
         11=0 let x12=0 let x13=0 let x14=0 let x15=0 let x16=0 }}",
        NameFault::Limit(Place { line: 1, col: 210 }, LimitKind::Locals),
    ),
    (
        "input t(0)period 1 process p{port a from t()out o(0){}}output s00 from p.a.o out\
         put s01 from p.a.o output s02 from p.a.o output s03 from p.a.o output s04 from p\
         .a.o output s05 from p.a.o output s06 from p.a.o output s07 from p.a.o output s0\
         8 from p.a.o output s09 from p.a.o output s10 from p.a.o output s11 from p.a.o o\
         utput s12 from p.a.o output s13 from p.a.o output s14 from p.a.o output s15 from \
         p.a.o output s16 from p.a.o ",
        NameFault::Limit(Place { line: 1, col: 415 }, LimitKind::Outputs),
    ),
    (
        "process p00{}process p01{}process p02{}process p03{}process p04{}process p05{}pr\
         ocess p06{}process p07{}process p08{}process p09{}process p10{}process p11{}proc\
         ess p12{}process p13{}process p14{}process p15{}process p16{}process p17{}proces\
         s p18{}process p19{}process p20{}process p21{}process p22{}process p23{}process \
         p24{}process p25{}process p26{}process p27{}process p28{}process p29{}process p3\
         0{}process p31{}process p32{}process p33{}process p34{}process p35{}process p36{\
         }process p37{}process p38{}process p39{}process p40{}process p41{}process p42{}p\
         rocess p43{}process p44{}process p45{}process p46{}process p47{}process p48{}pro\
         cess p49{}process p50{}process p51{}process p52{}process p53{}process p54{}proce\
         ss p55{}process p56{}process p57{}process p58{}process p59{}process p60{}process \
         p61{}process p62{}process p63{}process p64{}",
        NameFault::Limit(Place { line: 1, col: 841 }, LimitKind::Processes),
    ),
];

/// Checks the fault of each tree.
fn judge_faults(rt: &(impl Abort + AllocGlobal), rows: &[(&str, NameFault)]) -> Result<(), Fail> {
    for (text, fault) in rows {
        let ast = tree_of(rt.alloc(), text)?;
        assert_eq!(rt;
            resolve(rt.alloc(), &ast, &[]).err(),
            Some(*fault),
            "at {text}"
        );
    }
    Ok(())
}

#[test]
fn trees_have_their_first_fault(rt: HostRuntime) -> Result<(), Fail> {
    judge_faults(&rt, FAULTS)
}

#[test]
fn an_empty_tree_is_a_graph_of_nothing(rt: HostRuntime) -> Result<(), Fail> {
    let alloc = rt.alloc();
    let ast = tree_of(alloc, "")?;
    let graph = resolve(alloc, &ast, &[]).ok().ok_or("a fault")?;
    assert!(rt; graph.inputs.is_empty());
    assert!(rt; graph.outputs.is_empty());
    assert!(rt; graph.groups.is_empty());
    assert!(rt; graph.vars.is_empty());
    assert!(rt; graph.ports.is_empty());
    Ok(())
}

/// As many inputs, resources, outs of a port and locals of a handler as there may be.
const FULL: &str =
    "input i00(0)period 1 input i01(0)period 1 input i02(0)period 1 input i03(0)period 1 input \
    i04(0)period 1 input i05(0)period 1 input i06(0)period 1 input i07(0)period 1 input i08(0)\
    period 1 input i09(0)period 1 input i10(0)period 1 input i11(0)period 1 input i12(0)period \
    1 input i13(0)period 1 input i14(0)period 1 input i15(0)period 1 resource r00 resource r01 \
    resource r02 resource r03 resource r04 resource r05 resource r06 resource r07 resource r08 \
    resource r09 resource r10 resource r11 resource r12 resource r13 resource r14 resource r15 \
    resource r16 resource r17 resource r18 resource r19 resource r20 resource r21 resource r22 \
    resource r23 resource r24 resource r25 resource r26 resource r27 resource r28 resource r29 \
    resource r30 resource r31 process p{port a from i15()out o0(0)out o1(0)out o2(0)out o3(0)o\
    ut o4(0)out o5(0)out o6(0)out o7(0){let x00=0 let x01=0 let x02=0 let x03=0 let x04=0 let \
    x05=0 let x06=0 let x07=0 let x08=0 let x09=0 let x10=0 let x11=0 let x12=0 let x13=0 let \
    x14=0 let x15=0 }}";

#[test]
fn a_tree_at_its_limits_is_resolved(rt: HostRuntime) -> Result<(), Fail> {
    let alloc = rt.alloc();
    let ast = tree_of(alloc, FULL)?;
    let graph = resolve(alloc, &ast, &[]).ok().ok_or("a fault")?;
    assert_eq!(rt; graph.inputs.len(), 16);
    assert_eq!(rt; graph.groups.len(), 32);
    let port = graph.ports.as_slice().first().ok_or("no port")?;
    assert_eq!(rt; port.feed, Feed::Input(16));
    assert_eq!(rt; (port.group, port.params, port.locals), (0, 0, 16));
    assert_eq!(rt; port.outs.len(), 8);
    Ok(())
}

/// A graph with many parts of one kind: what stands before the first, before and behind the number of each, and behind the last; how many
/// there may be; of what one more is a fault, and where; and how many outputs, ports and variables the graph has that is just allowed.
#[derive(Clone, Copy)]
struct Many {
    begin: &'static str,
    before: &'static str,
    behind: &'static str,
    end: &'static str,
    most: u16,
    kind: LimitKind,
    place: Place,
    counts: [usize; 3],
}

impl Many {
    /// The text with so many parts.
    fn text(&self, alloc: Global, count: u16) -> Result<String, AllocError> {
        let mut text = String::new(alloc);
        text.push_str(self.begin)?;
        for number in 0..count {
            write!(text, "{}{number}{}", self.before, self.behind)?;
        }
        text.push_str(self.end)?;
        Ok(text)
    }
}

/// Graphs with as many outputs, processes, ports and variables as there may be.
const MANY: &[Many] = &[
    Many {
        begin: "input t(0)period 1 process p{port a from t()out o(0){}}\n",
        before: "output n",
        behind: " from p.a.o\n",
        end: "",
        most: 16,
        kind: LimitKind::Outputs,
        place: Place { line: 18, col: 8 },
        counts: [16, 1, 0],
    },
    Many {
        begin: "",
        before: "process n",
        behind: "{var x=0}\n",
        end: "",
        most: 64,
        kind: LimitKind::Processes,
        place: Place { line: 65, col: 9 },
        counts: [0, 0, 64],
    },
    Many {
        begin: "input t(0)period 1 process p{\n",
        before: "port n",
        behind: " from t(){}\n",
        end: "}",
        most: 64,
        kind: LimitKind::Ports,
        place: Place { line: 66, col: 6 },
        counts: [0, 64, 0],
    },
    Many {
        begin: "input t(0)period 1 process p{port a from t(){}\nport z from t(){}}process q{port c from t(){}}process r{\n",
        before: "port n",
        behind: " from t(){}\n",
        end: "}",
        most: 61,
        kind: LimitKind::Ports,
        place: Place { line: 64, col: 6 },
        counts: [0, 64, 0],
    },
    Many {
        begin: "process p{\n",
        before: "var n",
        behind: "=0\n",
        end: "}",
        most: 256,
        kind: LimitKind::Variables,
        place: Place { line: 258, col: 5 },
        counts: [0, 0, 256],
    },
    Many {
        begin: "process p{var a=0\nvar z=0}process q{var c=0}process r{\n",
        before: "var n",
        behind: "=0\n",
        end: "}",
        most: 253,
        kind: LimitKind::Variables,
        place: Place { line: 256, col: 5 },
        counts: [0, 0, 256],
    },
];

/// Checks that each graph is resolved with as many parts as there may be, and refused with one more.
fn judge_many(rt: &(impl Abort + AllocGlobal), rows: &[Many]) -> Result<(), Fail> {
    let alloc = rt.alloc();
    for row in rows {
        let ast = tree_of(alloc, &row.text(alloc, row.most)?)?;
        let graph = resolve(alloc, &ast, &[]).ok().ok_or("a fault")?;
        assert_eq!(rt;
            [graph.outputs.len(), graph.ports.len(), graph.vars.len()],
            row.counts,
            "at {}",
            row.before
        );
        let past = tree_of(alloc, &row.text(alloc, row.most.saturating_add(1))?)?;
        assert_eq!(rt;
            resolve(alloc, &past, &[]).err(),
            Some(NameFault::Limit(row.place, row.kind)),
            "past {}",
            row.before
        );
    }
    Ok(())
}

#[test]
fn limits_hold_at_them_and_one_past(rt: HostRuntime) -> Result<(), Fail> {
    judge_many(&rt, MANY)
}
