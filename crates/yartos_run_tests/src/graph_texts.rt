//! Graphs that are run, stopped and refused.

/// A port that sends three messages each time.
pub(crate) const THREE: &str = "input tick(1) period 10\n\
    output led from p.a.o\n\
    process p {\n\
      port a from tick (v) out o(1) {\n\
        send o (1) send o (2) send o (3)\n\
      }\n\
    }\n";

/// The same, of which only every second job's messages are passed on.
pub(crate) const THREE_EVERY_SECOND: &str = "input tick(1) period 10\n\
    output led from p.a.o\n\
    process p {\n\
      port a from tick (v) out o(1) every 2 {\n\
        send o (1) send o (2) send o (3)\n\
      }\n\
    }\n";

/// A port that sends as many messages as its message says, up to four, on an out of which every third job's are passed on; and one on another.
pub(crate) const SOME: &str = "input i(1) period 20\n\
    output few from p.a.few\n\
    output one from p.a.one\n\
    process p {\n\
      port a from i (n) out few(1) every 3 out one(0) {\n\
        repeat n max 4 { send few (n) }\n\
        send one ()\n\
      }\n\
    }\n";

/// Sums at the edges of 64 bits, quotients by 0, and a loop of no turns.
pub(crate) const EDGES: &str = "input tick(1) period 100\n\
    output led from p.a.o\n\
    process p {\n\
      port a from tick (v) out o(5) {\n\
        let n = 0\n\
        repeat -3 max 4 { n = n + 1 }\n\
        send o (v / 0, v % 0, 9223372036854775807 + 1, -9223372036854775807 - 2, n)\n\
      }\n\
    }\n";

/// A port that sends on one of two outs, or on none; the first output is the one of the second out.
pub(crate) const BRANCHES: &str = "input i(2) period 40\n\
    output second from p.a.even\n\
    output first from p.a.odd\n\
    process p {\n\
      port a from i (x, y) out odd(1) out even(2) {\n\
        if x < y and not x == 0 {\n\
          if x % 2 { send odd (x * y) } else { send even (y, -x) }\n\
        }\n\
      }\n\
    }\n";

/// A message of eight numbers, turned round.
pub(crate) const WIDE_MESSAGE: &str = "input i(8) period 50\n\
    output o from p.a.o\n\
    process p {\n\
      port a from i (a, b, c, d, e, f, g, h) out o(8) { send o (h, g, f, e, d, c, b, a) }\n\
    }\n";

/// Messages of no numbers, and a port that sends nothing.
pub(crate) const SIGNAL: &str = "input go(0) period 12\n\
    output done from p.a.o\n\
    process p {\n\
      port a from go () out o(0) { send o () }\n\
      port b from p.a.o () { }\n\
    }\n";

/// A port with as many outs as there may be, on which it sends from the last to the first; the outputs are in another order.
pub(crate) const EIGHT: &str = "input i(0) period 64\n\
    output o6 from p.a.f\n\
    output o1 from p.a.a\n\
    output o8 from p.a.h\n\
    output o3 from p.a.c\n\
    output o2 from p.a.b\n\
    output o7 from p.a.g\n\
    output o5 from p.a.e\n\
    output o4 from p.a.d\n\
    process p {\n\
      port a from i () out a(0) out b(1) every 1 out c(1) out d(1) every 2 out e(1) out f(1) out g(1) out h(1) {\n\
        send h (8) send g (7) send f (6) send e (5) send d (4) send c (3) send b (2) send a ()\n\
      }\n\
    }\n";

/// An out that goes to two ports and to two outputs, with an output between them that shows what one of the ports sends.
pub(crate) const FORK: &str = "input i(1) period 30\n\
    output raw from p.split.o\n\
    output double from q.twice.o\n\
    output copy from p.split.o\n\
    process p {\n\
      port split from i (v) out o(1) { send o (v) }\n\
    }\n\
    process q {\n\
      port next from p.split.o (v) out o(1) { send o (v + 1) }\n\
      port twice from p.split.o (v) out o(1) { send o (v * 2) }\n\
    }\n";

/// An input that goes to two ports of two processes.
pub(crate) const BOTH: &str = "input i(1) period 20\n\
    output x from p.a.o\n\
    output y from q.b.o\n\
    process q { port b from i (v) out o(1) { send o (v - 1) } }\n\
    process p { port a from i (v) out o(1) { send o (v + 1) } }\n";

/// An input that goes to two ports that share a variable.
pub(crate) const BOTH_COUNT: &str = "input i(0) period 20\n\
    output x from p.a.o\n\
    output y from p.b.o\n\
    process p {\n\
      var n = 0\n\
      port a from i () out o(1) { n = n + 1 send o (n) }\n\
      port b from i () out o(1) { n = n * 10 send o (n) }\n\
    }\n";

/// An input that goes nowhere, a port whose out goes nowhere, and an output.
pub(crate) const UNUSED: &str = "input idle(1) period 5\n\
    input tick(0) period 10\n\
    output led from p.a.led\n\
    process p {\n\
      port a from tick () out led(1) out lost(1) { send lost (1) send led (2) }\n\
    }\n";

/// A chain of four ports, each of which is shown.
pub(crate) const CHAIN: &str = "input go(1) period 40\n\
    output first from p.a.o\n\
    output second from q.b.o\n\
    output third from p.c.o\n\
    output fourth from q.d.o\n\
    process p {\n\
      port a from go (v) out o(1) { send o (v + 1) }\n\
      port c from q.b.o (v) out o(1) { send o (v + 3) }\n\
    }\n\
    process q {\n\
      port b from p.a.o (v) out o(1) { send o (v * 2) }\n\
      port d from p.c.o (v) out o(1) { send o (v * 4) }\n\
    }\n";

/// A port whose four messages are four jobs of the next port, which adds them up, and passes on the sum of each second one.
pub(crate) const SPREAD: &str = "input i(1) period 80\n\
    output sum from q.add.sum\n\
    process p {\n\
      port split from i (v) out part(1) {\n\
        let n = 0\n\
        repeat 4 max 4 { n = n + 1 send part (v * n) }\n\
      }\n\
    }\n\
    process q {\n\
      var total = 0\n\
      port add from p.split.part (v) out sum(1) every 2 { total = total + v send sum (total) }\n\
    }\n";

/// An out of which every third job's messages are passed on to a port, which so has three times the period.
pub(crate) const DIVIDED: &str = "input i(1) period 10\n\
    output all from p.a.o\n\
    output few from q.b.o\n\
    process p { port a from i (v) out o(1) every 3 { send o (v) } }\n\
    process q { port b from p.a.o (v) out o(1) every 2 { send o (-v) } }\n";

/// Three ports of one input, none of which has a variable.
pub(crate) const TIES: &str = "input i(0) period 20\n\
    process p {\n\
      port c from i () { let x = 1 }\n\
      port b from i () { let x = 1 + 1 }\n\
      port a from i () { }\n\
    }\n";

/// A port that is in the way of two others, of which the later one in the text may come earlier and be due at the same tick.
pub(crate) const EARLIER: &str = "input hog(1) period 30\n\
    input late(0) period 40\n\
    input early(0) period 60\n\
    process p {\n\
      port long from hog (n) { repeat n max 7 { let x = 1 } }\n\
      port late from late () { }\n\
      port early from early () { let x = 1 }\n\
    }\n";

/// Two ports: the second one's message may be due at the same tick as the first one's that comes later.
pub(crate) const BEGUN: &str = "input b(0) period 10\n\
    input a(1) period 30\n\
    process p {\n\
      port short from b () { let x = 1 }\n\
    }\n\
    process q {\n\
      port long from a (n) { repeat n max 6 { let x = n } }\n\
    }\n";

/// Two ports that share a variable, and an alarm that doesn't.
pub(crate) const LOWERED: &str = "input alarm(0) period 6\n\
    input count(0) period 14\n\
    input backup(0) period 60\n\
    output seen from p.alarm.o\n\
    output kept from r.backup.o\n\
    process p { port alarm from alarm () out o(0) { send o () } }\n\
    process r {\n\
      var s = 5\n\
      port count from count () { s = 7 }\n\
      port backup from backup () out o(1) { send o (s) s = s + 1 }\n\
    }\n";

/// A port that counts in a loop, one that doubles what it counts, and an alarm.
pub(crate) const LOOPING: &str = "input work(1) period 100\n\
    input double(0) period 40\n\
    input alarm(1) period 12\n\
    output twice from p.double.o\n\
    output heard from q.alarm.o\n\
    process p {\n\
      var s = 0\n\
      port work from work (n) { repeat n max 4 { s = s + 1 } }\n\
      port double from double () out o(1) { s = s * 2 send o (s) }\n\
    }\n\
    process q {\n\
      port alarm from alarm (x) out o(1) { send o (x) }\n\
    }\n";

/// Two processes in a resource: the handlers that use no variable aren't under it.
pub(crate) const LENT: &str = "input a(1) period 100\n\
    input b(0) period 20\n\
    input c(0) period 50\n\
    output free from q.free.o\n\
    output held from q.held.o\n\
    resource r\n\
    process p in r {\n\
      var s = 0\n\
      port long from a (n) { repeat n max 5 { s = s + n } }\n\
    }\n\
    process q in r {\n\
      var t = 0\n\
      port free from b () out o(0) { send o () }\n\
      port held from c () out o(1) { t = t + 1 send o (t) }\n\
    }\n";

/// Ports of different periods under different resources.
pub(crate) const NESTED: &str = "input a(0) period 400\n\
    input b(0) period 100\n\
    input c(0) period 30\n\
    input d(0) period 8\n\
    output w from p1.a.o\n\
    output x from p2.b.o\n\
    output y from p3.c.o\n\
    output z from p4.d.o\n\
    process p1 { var s = 1 port a from a () out o(1) { s = s * 2 + 1 send o (s) } }\n\
    process p2 { var s = 2 port b from b () out o(1) { s = s * 2 + 1 send o (s) } }\n\
    process p3 { var s = 3 port c from c () out o(1) { s = s + 1 send o (s) } }\n\
    process p4 { port d from d () out o(0) { send o () } }\n";

/// A process that sends to itself through another, and keeps a variable for both ways.
pub(crate) const TWO_STEPS: &str = "input i(1) period 50\n\
    output o from p.back.o\n\
    process p {\n\
      var sum = -100\n\
      port forth from i (v) out o(1) { sum = sum + v send o (sum) }\n\
      port back from q.turn.o (v) out o(2) { sum = sum - 1 send o (v, sum) }\n\
    }\n\
    process q { port turn from p.forth.o (v) out o(1) { send o (-v) } }\n";

/// A handler that keeps its last two messages in turn, and an alarm that interrupts it.
pub(crate) const SWAP: &str = "input i(1) period 60\n\
    input alarm(0) period 10\n\
    output o from p.a.o\n\
    output heard from q.alarm.o\n\
    process q { port alarm from alarm () out o(0) { send o () } }\n\
    process p {\n\
      var old = -1\n\
      var new = -2\n\
      port a from i (v) out o(2) {\n\
        let kept = new\n\
        new = v\n\
        old = kept\n\
        send o (old, new)\n\
      }\n\
    }\n";

/// Two processes with variables of one name, one of them without ports.
pub(crate) const TWO_COUNTERS: &str = "input i(0) period 10\n\
    process still { var n = -9223372036854775807 var m = 0 }\n\
    process p {\n\
      var n = 3\n\
      port a from i () { n = n + 1 }\n\
    }\n";

/// A port of 63 messages, one of 62 and one of 51, which go to five outputs: a message comes to 1,000,000 jobs and lines at most. A signal comes to one more.
pub(crate) const MOST: &str = "input go(1) period 1000000\n\
    input signal(0) period 10\n\
    output o1 from p.c.o\n\
    output o2 from p.c.o\n\
    output o3 from p.c.o\n\
    output o4 from p.c.o\n\
    output o5 from p.c.o\n\
    process p {\n\
      port a from go (n) out o(1) { repeat n max 63 { send o (n) } }\n\
      port b from p.a.o (n) out o(1) { repeat n max 62 { send o (n) } }\n\
      port c from p.b.o (n) out o(1) { repeat n max 51 { send o (n) } }\n\
      port d from signal () { }\n\
    }\n";

/// Inputs and a process without ports.
pub(crate) const NO_PORTS: &str = "input a(0) period 1\n\
    input b(3) period 1000000\n\
    resource r\n\
    process p in r { var s = -7 }\n";

/// The longest period that there is.
pub(crate) const LONGEST: &str = "input i(0) period 1000000\n\
    output o from p.a.o\n\
    process p {\n\
      var n = 0\n\
      port a from i () out o(1) { n = n + 1 send o (n) }\n\
    }\n";

/// A port whose job takes all of its period.
pub(crate) const FULL: &str = "input tick(1) period 5\n\
    output x from left.go.o\n\
    process left {\n\
      port go from tick (v) out o(1) { send o (v + 1) }\n\
    }\n";

/// Inputs of three widths.
pub(crate) const INPUTS: &str = "input none(0) period 10\n\
    input one(1) period 7\n\
    input two(2) period 1000000\n\
    output o from p.a.o\n\
    process p {\n\
      port a from two (x, y) out o(2) { send o (y, x) }\n\
    }\n";

/// A port that may send 64 messages for each one that comes.
pub(crate) const MANY_MESSAGES: &str = "input tick(1) period 200\n\
    output led from p.a.o\n\
    process p {\n\
      port a from tick (v) out o(1) {\n\
        repeat v max 64 { send o (v) }\n\
      }\n\
    }\n";

/// A camera and a microphone whose display and mixer share a buffer.
pub(crate) const CAMERA: &str = "input cam(2) period 33000\n\
    input mic(1) period 20000\n\
    output screen from show.frame.o\n\
    output speaker from mix.sample.o\n\
    resource buf\n\
    process show in buf {\n\
      var shown = 0\n\
      port frame from cam (id, lines) out o(2) {\n\
        let sum = 0\n\
        repeat lines max 400 { sum = sum + id }\n\
        shown = shown + 1\n\
        send o (shown, sum)\n\
      }\n\
    }\n\
    process mix in buf {\n\
      var level = 0\n\
      port sample from mic (x) out o(1) {\n\
        level = (level * 3 + x) / 4\n\
        send o (level)\n\
      }\n\
    }\n";
