// The calls of a whole script.
ghost use Rattle.std.specs.Prelude.{◌≡◌, map, vec_items};
ghost use Rattle.month.specs.Meant.{meant};
ghost use Rattle.script.specs.Scripts.{Reads, Exact};
ghost use Rattle.script.specs.Held.{held};

use crate::fault::Fault;
use crate::line::{Said, read_line};
use std::alloc::Global;
use words::cut;

// The calls of a script. Each shedding holds its readings.
#[derive(Drop)]
pub struct Script {
    calls: Vec<Said>,
}

impl Script {
    // The calls, in order.
    pub fn calls(&self) -> &[Said]
        ensures { map (meant vec_items) result.now ≡ held self.now }
    {
        &self.calls
    }
}

// The calls of a script, or the first line that is no call. A script is read exactly where it writes calls, and the answer is these.
pub fn read(heap: Global, bytes: &[u8]) -> Result<Script, Fault>
    ensures value { Reads bytes.now result }
    ensures exact { Exact bytes.now result }
{
    let mut calls = Vec::new(heap);
    let mut rest = bytes;
    // Kept: no plainer by `split_inclusive`, whose pieces have the line end, which would be taken off again.
    while !rest.is_empty() {
        let (line, after) = cut(rest, b'\n');
        let call = read_line(heap, line)?.ok_or_else(|| Fault::NoCall(calls.len() as u64 + 1))?;
        calls.push(call)?;
        rest = after.unwrap_or(b"");
    }
    Ok(Script { calls })
}
