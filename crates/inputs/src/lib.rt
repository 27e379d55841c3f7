// Input of unknown length, read up to a limit.

#![tactic(auto)]

ghost use Rattle.std.specs.Prelude.{◌<◌, ◌≤◌, ◌≡◌, length, IfOk, IfSome, MatchOption};

use std::alloc::Global;
use std::io;
use std::io::Read;

#[cfg(test)]
mod tests;

// All that a source has left; None where that is more than so many bytes.
pub fn read_at_most<R: Read>(
    alloc: Global,
    source: R,
    longest: usize,
) -> io::Result<Option<Vec<u8>>>
where
    R: Drop,
    ensures short { IfOk result (λ read. IfSome read (λ bytes. length bytes.items ≤ longest)) }
    ensures whole { IfOk result (λ read. IfSome (R.remaining source) (λ left. MatchOption read (longest < length left) (λ bytes. bytes.items ≡ left))) }
{
    let mut bytes = Vec::new(alloc);
    let mut start = source.take((longest as u64).saturating_add(1));
    start.read_to_end(&mut bytes)?;
    Ok((bytes.len() <= longest).then_some(bytes))
}
