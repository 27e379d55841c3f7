// The numbers of a line.
ghost use Rattle.std.specs.Prelude.{◌≡◌, IfOk, vec_items};
ghost use Rattle.std.specs.Option.{option_map};
ghost use Rattle.words.specs.Words.{following};
ghost use Rattle.script.specs.Lines.{numbers_of, pairs};

use payers::readings::Reading;
use std::alloc::{AllocError, Global};
use words::number;

// The numbers that the fields of a text write, if each field writes one. Where there is no text there are no fields.
pub(crate) fn read_numbers(
    heap: Global,
    fields: Option<&[u8]>,
) -> Result<Option<Vec<u64>>, AllocError>
    ensures { IfOk result (λ o. option_map vec_items o ≡ numbers_of (following 32 fields.entry)) }
{
    let mut numbers = Vec::new(heap);
    let Some(text) = fields else {
        return Ok(Some(numbers));
    };
    for field in text.split(|b| *b == b' ') {
        let Some(n) = number(field) else {
            return Ok(None);
        };
        numbers.push(n)?;
    }
    Ok(Some(numbers))
}

// The readings that numbers give: each two are a unit and its kWh.
pub(crate) fn paired(heap: Global, numbers: &[u64]) -> Result<Vec<Reading>, AllocError>
    ensures { IfOk result (λ readings. readings.items ≡ pairs numbers.now) }
{
    let mut readings = Vec::with_capacity(heap, numbers.len() / 2)?;
    for pair in numbers.chunks_exact(2) {
        readings.push(Reading {
            unit: pair[0],
            kwh: pair[1],
        })?;
    }
    Ok(readings)
}
