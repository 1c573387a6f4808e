//! Runs: what is printed of graphs on traces.
use crate::graph_texts::{
    BEGUN, BOTH, BOTH_COUNT, BRANCHES, CHAIN, DIVIDED, EARLIER, EDGES, EIGHT, FORK, FULL, LENT,
    LONGEST, LOOPING, LOWERED, MOST, NESTED, NO_PORTS, SIGNAL, SOME, SPREAD, SWAP, THREE,
    THREE_EVERY_SECOND, TIES, TWO_STEPS, UNUSED, WIDE_MESSAGE,
};
use std::alloc::Global;
use std::test::Fail;
use yartos::Status;
use yartos_rows::{COUNTER, RELAY, Wrong, expect, held};

/// A graph, a trace, and the run that is printed.
type Run = (&'static str, &'static str, &'static str);

/// Checks each run.
fn judge_runs(alloc: Global, runs: &[Run]) -> Result<(), Wrong> {
    for (number, (graph, trace, text)) in runs.iter().enumerate() {
        let files = held(alloc, &[("g", *graph), ("t", *trace)])?;
        expect(alloc, number, &["run", "g", "t"], files, Status::Done, text)?;
    }
    Ok(())
}

/// One port: messages come at their logical times, however soon the handling ends.
const ONE_PORT: &[Run] = &[
    // While the messages of the first job are shown, the second one has sent.
    (
        THREE,
        "0 tick 7\n10 tick 7\n",
        "run 0 7 p.a 1\n\
        out 10 led 1\n\
        out 13 led 2\n\
        out 16 led 3\n\
        run 10 17 p.a 2\n\
        out 20 led 1\n\
        out 23 led 2\n\
        out 26 led 3\n\
        end 26\n",
    ),
    // They come 6 ticks apart: three in two periods.
    (
        THREE_EVERY_SECOND,
        "0 tick 7\n10 tick 7\n",
        "run 0 7 p.a 1\n\
        run 10 17 p.a 2\n\
        out 20 led 1\n\
        out 26 led 2\n\
        out 32 led 3\n\
        end 32\n",
    ),
    // The first job isn't passed on, the second is, and no third and fourth come.
    (
        THREE_EVERY_SECOND,
        "3 tick 0\n100 tick 0\n110 tick 0\n",
        "run 3 10 p.a 1\n\
        run 100 107 p.a 2\n\
        out 110 led 1\n\
        out 116 led 2\n\
        run 110 117 p.a 3\n\
        out 122 led 3\n\
        end 122\n",
    ),
    // Jobs 3 and 6 are passed on with 4 and 1 messages, 15 ticks apart.
    (
        SOME,
        "0 i 1\n20 i 2\n40 i 9\n60 i 4\n80 i 4\n100 i 1\n",
        "run 0 7 p.a 1\n\
        out 20 one\n\
        run 20 30 p.a 2\n\
        out 40 one\n\
        run 40 56 p.a 3\n\
        out 60 few 9\n\
        out 60 one\n\
        out 75 few 9\n\
        run 60 76 p.a 4\n\
        out 80 one\n\
        out 90 few 9\n\
        run 80 96 p.a 5\n\
        out 100 one\n\
        out 105 few 9\n\
        run 100 107 p.a 6\n\
        out 120 few 1\n\
        out 120 one\n\
        end 120\n",
    ),
    // A negative count is no turn at all.
    (
        SOME,
        "0 i 0\n20 i -1\n40 i -9\n",
        "run 0 4 p.a 1\n\
        out 20 one\n\
        run 20 24 p.a 2\n\
        out 40 one\n\
        run 40 44 p.a 3\n\
        out 60 one\n\
        end 60\n",
    ),
    // Values at the edges.
    (
        EDGES,
        "0 tick 7\n",
        "run 0 21 p.a 1\n\
        out 100 led 0 0 -9223372036854775808 9223372036854775807 0\n\
        end 100\n",
    ),
    // Numbers of both signs, and both outs.
    (
        BRANCHES,
        "0 i 3 9223372036854775807\n40 i -4 -2\n80 i 0 1\n120 i 5 5\n160 i -1 0\n205 i 2 3\n",
        "run 0 19 p.a 1\n\
        out 40 first 9223372036854775805\n\
        run 40 58 p.a 2\n\
        out 80 second -2 4\n\
        run 80 90 p.a 3\n\
        run 120 130 p.a 4\n\
        run 160 179 p.a 5\n\
        out 200 first 0\n\
        run 205 223 p.a 6\n\
        out 245 second 3 -2\n\
        end 245\n",
    ),
    // Eight numbers.
    (
        WIDE_MESSAGE,
        "5 i 1 -2 3 -4 5 -6 7 -9223372036854775808\n",
        "run 5 15 p.a 1\n\
        out 55 o -9223372036854775808 7 -6 5 -4 3 -2 1\n\
        end 55\n",
    ),
    // No numbers.
    (
        SIGNAL,
        "0 go\n12 go\n25 go\n",
        "run 0 2 p.a 1\n\
        out 12 done\n\
        run 12 14 p.a 2\n\
        run 14 15 p.b 1\n\
        out 24 done\n\
        run 24 25 p.b 2\n\
        run 25 27 p.a 3\n\
        out 37 done\n\
        run 37 38 p.b 3\n\
        end 38\n",
    ),
    // Lines of one tick are in the order of the outputs.
    (
        EIGHT,
        "0 i\n64 i\n",
        "run 0 16 p.a 1\n\
        out 64 o6 6\n\
        out 64 o1\n\
        out 64 o8 8\n\
        out 64 o3 3\n\
        out 64 o2 2\n\
        out 64 o7 7\n\
        out 64 o5 5\n\
        run 64 80 p.a 2\n\
        out 128 o6 6\n\
        out 128 o1\n\
        out 128 o8 8\n\
        out 128 o3 3\n\
        out 128 o2 2\n\
        out 128 o7 7\n\
        out 128 o5 5\n\
        out 128 o4 4\n\
        end 128\n",
    ),
    // Ticks without a job are passed over.
    (
        LONGEST,
        "0 i\n3999999 i\n",
        "run 0 7 p.a 1\n\
        out 1000000 o 1\n\
        run 3999999 4000006 p.a 2\n\
        out 4999999 o 2\n\
        end 4999999\n",
    ),
];

#[test]
fn messages_come_at_their_logical_times(rt: HostRuntime) -> Result<(), Fail> {
    judge_runs(rt.alloc(), ONE_PORT)?;
    Ok(())
}

/// Several targets of one out or input, and none.
const TARGETS: &[Run] = &[
    // At 30 two lines are told, and two jobs come; at 60 there is one line.
    (
        FORK,
        "0 i 4\n",
        "run 0 3 p.split 1\n\
        out 30 raw 4\n\
        out 30 copy 4\n\
        run 30 35 q.next 1\n\
        run 35 40 q.twice 1\n\
        out 60 double 8\n\
        end 60\n",
    ),
    // At 60 a line of the second port stands between two of the first.
    (
        FORK,
        "0 i 4\n30 i 5\n",
        "run 0 3 p.split 1\n\
        out 30 raw 4\n\
        out 30 copy 4\n\
        run 30 33 p.split 2\n\
        run 33 38 q.next 1\n\
        run 38 43 q.twice 1\n\
        out 60 raw 5\n\
        out 60 double 8\n\
        out 60 copy 5\n\
        run 60 65 q.next 2\n\
        run 65 70 q.twice 2\n\
        out 90 double 10\n\
        end 90\n",
    ),
    // The first port in the text begins first; outputs stand in their own order.
    (
        BOTH,
        "0 i 7\n25 i -7\n",
        "run 0 5 q.b 1\n\
        run 5 10 p.a 1\n\
        out 20 x 8\n\
        out 20 y 6\n\
        run 25 30 q.b 2\n\
        run 30 35 p.a 2\n\
        out 45 x -6\n\
        out 45 y -8\n\
        end 45\n",
    ),
    // Both write one variable, the first port first.
    (
        BOTH_COUNT,
        "0 i\n20 i\n40 i\n",
        "run 0 7 p.a 1\n\
        run 7 14 p.b 1\n\
        out 20 x 1\n\
        out 20 y 10\n\
        run 20 27 p.a 2\n\
        run 27 34 p.b 2\n\
        out 40 x 11\n\
        out 40 y 110\n\
        run 40 47 p.a 3\n\
        run 47 54 p.b 3\n\
        out 60 x 111\n\
        out 60 y 1110\n\
        end 60\n",
    ),
    // Messages that go nowhere leave nothing, not even an end.
    (UNUSED, "3 idle 1\n8 idle 2\n", "end 0\n"),
    // Among them others are handled.
    (
        UNUSED,
        "0 idle 1\n0 tick\n5 idle 2\n10 idle 3\n10 tick\n400 idle 5\n",
        "run 0 5 p.a 1\n\
        out 10 led 2\n\
        run 10 15 p.a 2\n\
        out 20 led 2\n\
        end 20\n",
    ),
    // Nothing comes.
    (UNUSED, "", "end 0\n"),
];

#[test]
fn messages_go_to_all_targets(rt: HostRuntime) -> Result<(), Fail> {
    judge_runs(rt.alloc(), TARGETS)?;
    Ok(())
}

/// Ports that are fed by ports.
const CHAINS: &[Run] = &[
    // Each step takes a period.
    (
        RELAY,
        "0 go\n",
        "run 0 3 p.a 1\n\
        run 100 105 q.b 1\n\
        run 200 203 p.c 1\n\
        out 300 done 2\n\
        end 300\n",
    ),
    // Each step takes a period, and each message goes its way.
    (
        CHAIN,
        "0 go 1\n40 go 10\n85 go 100\n",
        "run 0 5 p.a 1\n\
        out 40 first 2\n\
        run 40 45 p.a 2\n\
        run 45 50 q.b 1\n\
        out 80 first 11\n\
        out 80 second 4\n\
        run 80 85 p.c 1\n\
        run 85 90 q.b 2\n\
        run 90 95 p.a 3\n\
        out 120 second 22\n\
        out 120 third 7\n\
        run 120 125 p.c 2\n\
        out 125 first 101\n\
        run 125 130 q.d 1\n\
        run 130 135 q.b 3\n\
        out 160 third 25\n\
        out 160 fourth 28\n\
        run 160 165 q.d 2\n\
        out 165 second 202\n\
        run 165 170 p.c 3\n\
        out 200 fourth 100\n\
        out 205 third 205\n\
        run 205 210 q.d 3\n\
        out 245 fourth 820\n\
        end 245\n",
    ),
    // Four jobs 20 ticks apart; the second and the fourth one's sums are shown.
    (
        SPREAD,
        "0 i 1\n87 i 10\n",
        "run 0 41 p.split 1\n\
        run 80 87 q.add 1\n\
        run 87 100 p.split 2\n\
        run 100 107 q.add 2\n\
        run 107 120 p.split 2\n\
        out 120 sum 3\n\
        run 120 127 q.add 3\n\
        run 127 140 p.split 2\n\
        run 140 147 q.add 4\n\
        run 147 149 p.split 2\n\
        out 160 sum 10\n\
        run 167 174 q.add 5\n\
        run 187 194 q.add 6\n\
        out 207 sum 40\n\
        run 207 214 q.add 7\n\
        run 227 234 q.add 8\n\
        out 247 sum 110\n\
        end 247\n",
    ),
    // The third message goes on, and the sixth; of both the second one goes on.
    (
        DIVIDED,
        "0 i 1\n10 i 2\n20 i 3\n30 i 4\n40 i 5\n50 i 6\n60 i 7\n",
        "run 0 3 p.a 1\n\
        run 10 13 p.a 2\n\
        run 20 23 p.a 3\n\
        out 30 all 3\n\
        run 30 33 p.a 4\n\
        run 33 37 q.b 1\n\
        run 40 43 p.a 5\n\
        run 50 53 p.a 6\n\
        out 60 all 6\n\
        run 60 63 p.a 7\n\
        run 63 67 q.b 2\n\
        out 90 few -6\n\
        end 90\n",
    ),
    // There and back, with one variable for both ways.
    (
        TWO_STEPS,
        "0 i 1\n50 i 20\n100 i 300\n",
        "run 0 7 p.forth 1\n\
        run 50 57 p.forth 2\n\
        run 57 61 q.turn 1\n\
        run 100 107 p.forth 3\n\
        run 107 115 p.back 1\n\
        run 115 119 q.turn 2\n\
        out 150 o 99 220\n\
        run 150 158 p.back 2\n\
        run 158 162 q.turn 3\n\
        out 200 o 79 219\n\
        run 200 208 p.back 3\n\
        out 250 o -221 218\n\
        end 250\n",
    ),
];

#[test]
fn ports_feed_ports(rt: HostRuntime) -> Result<(), Fail> {
    judge_runs(rt.alloc(), CHAINS)?;
    Ok(())
}

/// Equal deadlines.
const TIED: &[Run] = &[
    // All equal but the port.
    (
        TIES,
        "0 i\n20 i\n",
        "run 0 3 p.c 1\n\
        run 3 8 p.b 1\n\
        run 8 9 p.a 1\n\
        run 20 23 p.c 2\n\
        run 23 28 p.b 2\n\
        run 28 29 p.a 2\n\
        end 29\n",
    ),
    // At 24 both are due at 60: the one that came first begins first.
    (
        EARLIER,
        "0 early\n0 hog 7\n20 late\n",
        "run 0 24 p.long 1\n\
        run 24 27 p.early 1\n\
        run 27 28 p.late 1\n\
        end 28\n",
    ),
    // Of two that came at one tick the one that is due sooner begins first.
    (
        EARLIER,
        "0 early\n0 late\n0 hog 2\n",
        "run 0 9 p.long 1\n\
        run 9 10 p.late 1\n\
        run 10 13 p.early 1\n\
        end 13\n",
    ),
    // At 20 the long one has begun and is due at 30, as the new one is: it goes on.
    (
        BEGUN,
        "0 a 6\n5 b\n20 b\n",
        "run 0 5 q.long 1\n\
        run 5 8 p.short 1\n\
        run 8 24 q.long 1\n\
        run 24 27 p.short 2\n\
        end 27\n",
    ),
    // At 19 the new one is due at 29, a tick sooner.
    (
        BEGUN,
        "0 a 6\n5 b\n19 b\n",
        "run 0 5 q.long 1\n\
        run 5 8 p.short 1\n\
        run 8 19 q.long 1\n\
        run 19 22 p.short 2\n\
        run 22 27 q.long 1\n\
        end 27\n",
    ),
];

#[test]
fn ties_are_settled_by_the_rule(rt: HostRuntime) -> Result<(), Fail> {
    judge_runs(rt.alloc(), TIED)?;
    Ok(())
}

/// Ports that share variables: what is handled first is what begins first, and a job that has begun keeps its resource.
const SHARED: &[Run] = &[
    // The one that came first begins last.
    (
        COUNTER,
        "0 a\n0 c 1\n3 b\n",
        "run 0 3 q.hog 1\n\
        run 3 10 p.fast 1\n\
        run 10 12 q.hog 1\n\
        run 12 17 p.slow 1\n\
        out 23 y 2\n\
        end 23\n",
    ),
    // It begins first, and the more urgent one waits until it has ended.
    (
        COUNTER,
        "0 a\n3 b\n",
        "run 0 5 p.slow 1\n\
        run 5 12 p.fast 1\n\
        out 23 y 3\n\
        end 23\n",
    ),
    // They come in one tick: the more urgent one begins.
    (
        COUNTER,
        "0 a\n0 b\n20 b\n100 a\n",
        "run 0 7 p.fast 1\n\
        run 7 12 p.slow 1\n\
        out 20 y 2\n\
        run 20 27 p.fast 2\n\
        out 40 y 5\n\
        run 100 105 p.slow 2\n\
        end 105\n",
    ),
    // The backup, due at 15 by now, goes before the counter, due at 15 too; the alarm waits for neither.
    (
        LOWERED,
        "0 backup\n1 alarm\n1 count\n7 alarm\n",
        "run 0 1 r.backup 1\n\
        run 1 3 p.alarm 1\n\
        run 3 7 r.backup 1\n\
        out 7 seen\n\
        run 7 9 p.alarm 2\n\
        run 9 11 r.backup 1\n\
        out 13 seen\n\
        run 11 14 r.count 1\n\
        out 60 kept 5\n\
        end 60\n",
    ),
    // The counter begins first, and the backup sends what it left.
    (
        LOWERED,
        "0 count\n0 backup\n0 alarm\n",
        "run 0 2 p.alarm 1\n\
        run 2 5 r.count 1\n\
        out 6 seen\n\
        run 5 12 r.backup 1\n\
        out 60 kept 7\n\
        end 60\n",
    ),
    // An alarm interrupts the loop three times, in the middle of its sums; the doubling waits for its end.
    (
        LOOPING,
        "0 work 4\n2 alarm 1\n5 double\n14 alarm 2\n26 alarm 3\n",
        "run 0 2 p.work 1\n\
        run 2 5 q.alarm 1\n\
        run 5 14 p.work 1\n\
        out 14 heard 1\n\
        run 14 17 q.alarm 2\n\
        run 17 26 p.work 1\n\
        out 26 heard 2\n\
        run 26 29 q.alarm 3\n\
        run 29 32 p.work 1\n\
        out 38 heard 3\n\
        run 32 39 p.double 1\n\
        out 45 twice 8\n\
        end 45\n",
    ),
    // The doubling comes first.
    (
        LOOPING,
        "0 work 2\n0 double\n3 alarm 1\n40 double\n",
        "run 0 3 p.double 1\n\
        run 3 6 q.alarm 1\n\
        run 6 10 p.double 1\n\
        out 15 heard 1\n\
        run 10 23 p.work 1\n\
        out 40 twice 0\n\
        run 40 47 p.double 2\n\
        out 80 twice 4\n\
        end 80\n",
    ),
    // The handler without variables goes before the one that is under the resource; the other one waits.
    (
        LENT,
        "0 a 5\n4 b\n4 c\n",
        "run 0 4 p.long 1\n\
        run 4 6 q.free 1\n\
        out 24 free\n\
        run 6 30 p.long 1\n\
        run 30 37 q.held 1\n\
        out 54 held 1\n\
        end 54\n",
    ),
    // None waits.
    (
        LENT,
        "0 a 1\n50 b\n50 c\n100 b\n100 c\n",
        "run 0 8 p.long 1\n\
        run 50 52 q.free 1\n\
        run 52 59 q.held 1\n\
        out 70 free\n\
        out 100 held 1\n\
        run 100 102 q.free 2\n\
        run 102 109 q.held 2\n\
        out 120 free\n\
        out 150 held 2\n\
        end 150\n",
    ),
    // Each interrupts the one before.
    (
        NESTED,
        "0 a\n2 b\n4 c\n6 d\n14 d\n22 d\n",
        "run 0 2 p1.a 1\n\
        run 2 4 p2.b 1\n\
        run 4 6 p3.c 1\n\
        run 6 8 p4.d 1\n\
        run 8 13 p3.c 1\n\
        run 13 14 p2.b 1\n\
        out 14 z\n\
        run 14 16 p4.d 2\n\
        run 16 22 p2.b 1\n\
        out 22 z\n\
        run 22 24 p4.d 3\n\
        out 30 z\n\
        run 24 31 p1.a 1\n\
        out 34 y 4\n\
        out 102 x 5\n\
        out 400 w 3\n\
        end 400\n",
    ),
    // Each has its turn after the more urgent ones.
    (
        NESTED,
        "0 a\n0 b\n0 c\n0 d\n8 d\n30 c\n",
        "run 0 2 p4.d 1\n\
        run 2 8 p3.c 1\n\
        out 8 z\n\
        run 8 10 p4.d 2\n\
        run 10 11 p3.c 1\n\
        out 16 z\n\
        run 11 20 p2.b 1\n\
        run 20 29 p1.a 1\n\
        out 30 y 4\n\
        run 30 37 p3.c 2\n\
        out 60 y 5\n\
        out 100 x 5\n\
        out 400 w 3\n\
        end 400\n",
    ),
    // In the middle of its writes.
    (
        SWAP,
        "0 i 1\n3 alarm\n60 i 2\n64 alarm\n120 i 3\n",
        "run 0 3 p.a 1\n\
        run 3 5 q.alarm 1\n\
        run 5 12 p.a 1\n\
        out 13 heard\n\
        out 60 o -2 1\n\
        run 60 64 p.a 2\n\
        run 64 66 q.alarm 2\n\
        run 66 72 p.a 2\n\
        out 74 heard\n\
        out 120 o 1 2\n\
        run 120 130 p.a 3\n\
        out 180 o 2 3\n\
        end 180\n",
    ),
];

#[test]
fn shared_variables_are_kept(rt: HostRuntime) -> Result<(), Fail> {
    judge_runs(rt.alloc(), SHARED)?;
    Ok(())
}

/// Graphs and traces of nothing.
const EMPTY: &[Run] = &[
    // No port.
    (NO_PORTS, "", "end 0\n"),
    // Messages, and no port.
    (NO_PORTS, "0 a\n1 a\n2 b 1 2 3\n", "end 0\n"),
    // A port, and no message.
    (COUNTER, "", "end 0\n"),
];

#[test]
fn nothing_runs_on_nothing(rt: HostRuntime) -> Result<(), Fail> {
    judge_runs(rt.alloc(), EMPTY)?;
    Ok(())
}

/// A run that may have as many jobs and lines as there may be.
const BOUND: &[Run] = &[
    // It has one job.
    (
        MOST,
        "0 go 0\n",
        "run 0 3 p.a 1\n\
        end 3\n",
    ),
    // It has three jobs and five lines.
    (
        MOST,
        "7 go 1\n",
        "run 7 13 p.a 1\n\
        run 1000007 1000013 p.b 1\n\
        run 1015880 1015886 p.c 1\n\
        out 1016136 o1 1\n\
        out 1016136 o2 1\n\
        out 1016136 o3 1\n\
        out 1016136 o4 1\n\
        out 1016136 o5 1\n\
        end 1016136\n",
    ),
];

#[test]
fn the_bound_may_be_reached(rt: HostRuntime) -> Result<(), Fail> {
    judge_runs(rt.alloc(), BOUND)?;
    Ok(())
}

/// Jobs that take all of their period: a message that comes finds the one before handled.
const FULL_PERIODS: &[Run] = &[
    // At 7 the first job has ended, and the second one begins.
    (
        FULL,
        "2 tick 0\n7 tick -21\n13 tick 299\n",
        "run 2 7 left.go 1\n\
        out 7 x 1\n\
        run 7 12 left.go 2\n\
        out 12 x -20\n\
        run 13 18 left.go 3\n\
        out 18 x 300\n\
        end 18\n",
    ),
];

#[test]
fn messages_find_their_port_free(rt: HostRuntime) -> Result<(), Fail> {
    judge_runs(rt.alloc(), FULL_PERIODS)?;
    Ok(())
}
