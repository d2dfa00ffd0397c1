//! The text of a mailbox's replies.

ghost use Rattle.std.specs.Prelude.{◌≡◌, ◌++◌, IsTrue, OnOk, codes};
ghost use Rattle.plan_streams.specs.Stream.{Puts};
ghost use Rattle.plan_streams.specs.Writer.{Takes};
ghost use Rattle.plan_write.specs.Replies.{replies_text, reply_line};

use agenda_script::Message;
use itoa::Buffer as Digits;
use plan_mailbox::Reply;
use plan_streams::{Stream, TextWriter, WriteFault};

/// Writes the replies to the steps of a script, one line for each, in order.
///
/// This requests no memory. The stream is flushed once, at the end.
///
/// # Errors
///
/// `Device` or `Closed` if the stream fails. Then only the first bytes of the text were written.
// Not inlined: its buffer of 64 KiB takes stack only while it runs.
#[inline(never)]
pub fn write_replies<S: Stream>(
    replies: &[Reply<Message<'_>>],
    out: &mut S,
) -> Result<(), WriteFault>
    ensures text { Puts S.takes_all result (S.holds out.old) (S.holds out.new) (replies_text replies.now) }
    ensures flushed { OnOk result (IsTrue (S.is_flushed out.new)) }
{
    let mut lines = TextWriter::new(out);
    for reply in replies {
        put_reply(reply, &mut lines);
    }
    lines.finish()
}

// Puts the line of a reply.
fn put_reply<S: Stream>(reply: &Reply<Message<'_>>, lines: &mut TextWriter<'_, S>)
    ensures { Takes S.holds S.takes_all lines.old lines.new (reply_line reply.now) }
{
    match reply {
        Reply::Sent => lines.put(b"sent\n"),
        Reply::Full(message) => put_message(b"full ", message, lines),
        Reply::Closed(message) => put_message(b"closed ", message, lines),
        Reply::NoSender(message) => put_message(b"no sender ", message, lines),
        Reply::Took(sender, message) => {
            lines.put_both(b"took ", Digits::new().format(*sender).as_bytes());
            put_message(b" ", message, lines);
        }
        Reply::Nothing => lines.put(b"nothing\n"),
        Reply::Ended => lines.put(b"ended\n"),
        Reply::Shut => lines.put(b"shut\n"),
        Reply::AlreadyShut => lines.put(b"already shut\n"),
        Reply::Unknown => lines.put(b"unknown\n"),
    }
}

// Puts a message after some words, and a newline after it.
fn put_message<S: Stream>(words: &[u8], message: &Message<'_>, lines: &mut TextWriter<'_, S>)
    ensures { Takes S.holds S.takes_all lines.old lines.new (words.now ++ (message.now ++ codes "\n")) }
{
    lines.put_both(words, message.as_bytes());
    lines.put(b"\n");
}
