//! Makes the text of a trace.
ghost use Rattle.std.specs.Prelude.{◌≡◌, ◌++◌, ◌≤◌, length, IfOk, OnOk};
ghost use Rattle.std.specs.List.{flat_map};
ghost use Rattle.yt_base.specs.Limits.{most_text_bytes};
ghost use Rattle.yt_order.specs.Sorting.{sort_by};
ghost use Rattle.yt_gen.specs.Pipelines.{pipelines};
ghost use Rattle.yt_gen.specs.TraceText.{line_of, message_before, messages_of, trace_text};
ghost use Rattle.yt_gen.specs.declared.limits.TheConstants.{MOST_PIPELINES};

use crate::limits::MESSAGES;
use crate::message::Message;
use std::alloc::{AllocError, Global};

/// The text of the trace for the graph of so many pipelines. `Err` comes where memory ran out.
///
/// Takes time near linear in the text, which is short enough to be read as a file.
pub fn make_trace(alloc: Global, count: u32) -> Result<Vec<u8>, AllocError>
    requires { count ≤ MOST_PIPELINES }
    ensures text { IfOk result (λ text. text.items ≡ trace_text count) }
    ensures short { IfOk result (λ text. length text.items ≤ most_text_bytes) }
{
    let mut messages = messages(alloc, count)?;
    put_in_order(&mut messages)?;
    text_of(alloc, &messages)
}

/// The messages of all inputs, input by input.
fn messages(alloc: Global, count: u32) -> Result<Vec<Message>, AllocError>
    ensures { IfOk result (λ messages. messages.items ≡ flat_map messages_of (pipelines count)) }
{
    let mut messages = Vec::new(alloc);
    for n in 0..count {
        put_messages(&mut messages, n + 1)?;
    }
    Ok(messages)
}

/// Adds the messages of an input, in order.
fn put_messages(messages: &mut Vec<Message>, input: u32) -> Result<(), AllocError>
    ensures { OnOk result (messages.new.items ≡ messages.old.items ++ messages_of input) }
{
    for before in 0..MESSAGES {
        messages.push(Message::new(input, before))?;
    }
    Ok(())
}

/// Puts messages in order of time and then of input. `Err` comes where memory ran out.
fn put_in_order(messages: &mut Vec<Message>) -> Result<(), AllocError>
    ensures { OnOk result (messages.new.items ≡ sort_by message_before messages.old.items) }
{
    messages.sort_by_key(|m| (m.time, m.input))?;
    Ok(())
}

/// A line for each of these messages.
fn text_of(alloc: Global, messages: &[Message]) -> Result<Vec<u8>, AllocError>
    ensures { IfOk result (λ text. text.items ≡ flat_map line_of messages.now) }
{
    let mut text = String::new(alloc);
    for message in messages {
        let Message { time, input, value } = *message;
        writeln!(text, "{time} in{input} {value}")?;
    }
    Ok(text.into_bytes())
}
