//! Calls on a network as lines of text.
use fields::{Fields, IllFormed, integer, natural};
use network::{Call, Limit};
use std::fmt;

/// Why a line states no call.
#[derive(Clone, Copy)]
pub(crate) enum NoCall {
    TooLong,
    IllFormed,
}

impl From<IllFormed> for NoCall {
    fn from(_field: IllFormed) -> NoCall {
        NoCall::IllFormed
    }
}

impl fmt::Display for NoCall {
    fn fmt<W: fmt::Write>(&self, f: &mut fmt::Formatter<W>) -> fmt::Result {
        match self {
            NoCall::TooLong => write!(f, "it is too long"),
            NoCall::IllFormed => write!(
                f,
                "not RESET,events,horizon or PUSH,x,y,bound or POP or EARLIEST,event"
            ),
        }
    }
}

/// The next field, where a call needs one.
fn needed<'a>(fields: &mut Fields<'a>) -> Result<&'a [u8], IllFormed> {
    fields.next().ok_or(IllFormed)
}

/// The call that a word and the fields behind it state, before it is known that they are all.
fn read_fields(fields: &mut Fields) -> Result<Call, IllFormed> {
    match needed(fields)? {
        b"RESET" => Ok(Call::Reset {
            events: natural(needed(fields)?)? as usize,
            horizon: natural(needed(fields)?)?,
        }),
        b"PUSH" => Ok(Call::Push(Limit {
            x: natural(needed(fields)?)? as usize,
            y: natural(needed(fields)?)? as usize,
            bound: integer(needed(fields)?)?,
        })),
        b"POP" => Ok(Call::Pop),
        b"EARLIEST" => Ok(Call::Earliest {
            event: natural(needed(fields)?)? as usize,
        }),
        _ => Err(IllFormed),
    }
}

/// The call that a line states, with nothing behind it. The text is `None` where the line is overlong.
pub(crate) fn read_call(text: Option<&[u8]>) -> Result<Call, NoCall> {
    let mut fields = Fields::of(text.ok_or(NoCall::TooLong)?);
    let call = read_fields(&mut fields)?;
    match fields.next() {
        None => Ok(call),
        Some(_) => Err(NoCall::IllFormed),
    }
}
