//! Replies, each a status and the text that is written.

ghost use Rattle.std.specs.Prelude.{◌≡◌, IfOk};
ghost use Rattle.grain_addresses.specs.Replies.{usage_text, bad_line_text};

use grain_listing::BadLine;
use grain_value::{OutOfMemory, Text};
use std::alloc::Global;

/// A status, and the text that is written.
#[derive(Drop)]
pub struct Reply {
    pub status: u8,
    pub text: Text,
}

/// The reply to words that are no addresses: 2, and the usage.
pub fn usage(alloc: Global) -> Result<Reply, OutOfMemory>
    ensures status { IfOk result (λ r. r.status ≡ 2) }
    ensures text { IfOk result (λ r. r.text ≡ usage_text) }
{
    let text = Text::copy_of(alloc, "usage: where LISTING [ADDRESS or ADDRESS:SLOT ..]\n")?;
    Ok(Reply { status: 2, text })
}

/// The reply to bytes that are no listing: 3, the first line that is wrong, and why.
pub fn no_listing(alloc: Global, bad: BadLine) -> Result<Reply, OutOfMemory>
    ensures status { IfOk result (λ r. r.status ≡ 3) }
    ensures text { IfOk result (λ r. r.text ≡ bad_line_text bad) }
{
    let mut text = Text::new(alloc);
    text.push_str("listing line ")?;
    text.push_number(bad.line as u64)?;
    text.push_str(": ")?;
    text.push_str(bad.reason.text())?;
    text.push_str("\n")?;
    Ok(Reply { status: 3, text })
}
