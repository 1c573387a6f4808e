//! The bound of a run.
ghost use Rattle.std.specs.Prelude.{◌≡◌, ℕ, ◌*◌, ◌≤◌, Some};
ghost use Rattle.yt_graph.specs.Limits.{most_outputs, most_ports};
ghost use Rattle.yt_graph.specs.Picture.{graph_tree, PortTree};
ghost use Rattle.yt_list.specs.Numbered.{numbered};
ghost use Rattle.yt_serial.specs.Bounds.{greatest_passed, most_messages_within};
ghost use Rattle.yt_bound.specs.Bounds.{job_bound, most_jobs, most_lines};
ghost use Rattle.yt_bound.specs.Inside.Counting.{AreCountsOf};
ghost use Rattle.yt_bound.specs.Inside.Feeds.{IsFeed, IsOut, most_fed};

use crate::counted::CountedTrace;
use yt_graph::Feed;
use yt_rates::Accepted;
use yt_trace::Trace;

/// How many jobs and output lines a run on a trace comes to at most: each port handles the trace's messages of its input, or what the
/// out that feeds it passes on at most, and each output shows the latter. Goes over the trace once, and takes no memory.
pub fn job_bound(accepted: &Accepted, trace: &Trace) -> u64
    ensures { result ≡ job_bound (graph_tree accepted.now.graph) trace.now }
{
    let counted = CountedTrace::of(trace);
    jobs_of_ports(accepted, &counted) + lines_of_outputs(accepted, &counted)
}

/// How many jobs a run on a trace comes to at most. Goes over the trace once, and takes no memory.
pub fn most_jobs(accepted: &Accepted, trace: &Trace) -> u64
    ensures { result ≡ most_jobs (graph_tree accepted.now.graph) trace.now }
{
    let counted = CountedTrace::of(trace);
    jobs_of_ports(accepted, &counted)
}

/// How many output lines a run on a trace comes to at most. Goes over the trace once, and takes no memory.
pub fn most_lines(accepted: &Accepted, trace: &Trace) -> u64
    ensures { result ≡ most_lines (graph_tree accepted.now.graph) trace.now }
{
    let counted = CountedTrace::of(trace);
    lines_of_outputs(accepted, &counted)
}

/// How many jobs all ports come to at most.
fn jobs_of_ports(accepted: &Accepted, counted: &CountedTrace<'_>) -> u64
    requires { AreCountsOf counted.now.trace.now counted.now.counts }
    ensures jobs { result ≡ most_jobs (graph_tree accepted.now.graph) counted.now.trace.now }
    ensures small { result ≤ most_ports * most_fed }
{
    let ports = &accepted.graph().ports;
    let mut jobs = 0;
    for place in 0..ports.len() {
        jobs += most_of_feed(accepted, counted, ports.at(place).feed, ports.len());
    }
    jobs
}

/// How many lines all outputs come to at most.
fn lines_of_outputs(accepted: &Accepted, counted: &CountedTrace<'_>) -> u64
    requires { AreCountsOf counted.now.trace.now counted.now.counts }
    ensures lines { result ≡ most_lines (graph_tree accepted.now.graph) counted.now.trace.now }
    ensures small { result ≤ most_outputs * most_fed }
{
    let graph = accepted.graph();
    let mut lines = 0;
    for place in 0..graph.outputs.len() {
        let output = graph.outputs.at(place);
        let feed = Feed::Out {
            port: output.port,
            out: output.out,
        };
        lines += most_of_feed(accepted, counted, feed, graph.ports.len() + 1);
    }
    lines
}

/// How many messages a feed brings at most, whose chain of sources has at most `ports` ports.
fn most_of_feed(accepted: &Accepted, counted: &CountedTrace<'_>, feed: Feed, ports: usize) -> u64
    requires counts { AreCountsOf counted.now.trace.now counted.now.counts }
    requires feed { IsFeed (graph_tree accepted.now.graph) ports feed }
    ensures most { result ≡ most_messages_within (graph_tree accepted.now.graph) counted.now.trace.now ports feed }
    ensures small { result ≤ most_fed }
{
    match feed {
        Feed::Input(input) => counted.messages_of(input),
        Feed::Out { port, out } => {
            let source = accepted.graph().ports.at(port as usize - 1).feed;
            let messages = most_of_feed(accepted, counted, source, ports - 1);
            most_passed(accepted, port, out, messages)
        }
    }
}

/// How many messages an out of a port passes on at most for so many messages of the port, both by their numbers from 1. The caller
/// shows that both are there.
fn most_passed(accepted: &Accepted, port: u32, out: u32, messages: u64) -> u64
    requires there { IsOut (graph_tree accepted.now.graph) port out }
    requires fits { (p : PortTree) → numbered (graph_tree accepted.now.graph).ports port ≡ Some p → greatest_passed p out messages ≤ most_fed }
    ensures { (p : PortTree) → numbered (graph_tree accepted.now.graph).ports port ≡ Some p → result ≡ greatest_passed p out messages }
{
    let every = accepted
        .graph()
        .ports
        .at(port as usize - 1)
        .outs
        .at(out as usize - 1)
        .every;
    let sends = accepted.codes().sends(port, out);
    messages / u64::from(every) * u64::from(sends)
}
