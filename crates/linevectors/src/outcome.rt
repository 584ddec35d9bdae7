//! What a call did, and how it is printed.

use record::{Record, encode};
use refusals::Refusal;
use tables::{UNTOUCHED, from_bytes};

/// What a call answered, with the record before and after it and the buffer after it.
#[derive(Clone, Copy)]
pub struct Outcome<'a> {
    pub answer: Result<Option<usize>, Refusal>,
    pub before: Record,
    pub after: Record,
    pub out: &'a [u8],
}

impl Outcome<'_> {
    /// Prints the answer, unless the call wrote what it has to leave alone.
    pub fn tell(&self, rt: &HostRuntime) -> anyhow::Result<()> {
        if !self.leaves_the_rest() {
            println!(rt; "bytes were written that had to stay")?;
            return Ok(());
        }
        match self.answer {
            Ok(Some(len)) => self.tell_bytes(rt, len),
            Ok(None) => Ok(println!(rt; "silent")?),
            Err(refusal) => Ok(println!(rt; "refused {}", refusal.number())?),
        }
    }

    // Whether the bytes past an answer are untouched, and without an answer all bytes of buffer and record.
    fn leaves_the_rest(&self) -> bool {
        match self.answer {
            Ok(Some(len)) => untouched(self.out.get(len..).unwrap_or(self.out)),
            _ => untouched(self.out) && encode(&self.before) == encode(&self.after),
        }
    }

    fn tell_bytes(&self, rt: &HostRuntime, len: usize) -> anyhow::Result<()> {
        let bytes = from_bytes(rt.alloc(), self.out.get(0..len).unwrap_or(&[]))?;
        let after = from_bytes(rt.alloc(), &encode(&self.after))?;
        println!(rt; "answered {bytes} {after}")?;
        Ok(())
    }
}

fn untouched(bytes: &[u8]) -> bool {
    bytes.iter().all(|byte| *byte == UNTOUCHED)
}
