// Lists whose entries are numbered from 1.

#![tactic(auto)]

ghost use Rattle.std.specs.Prelude.{◌≡◌, ◌-◌, if◌then◌else◌, Some, None};
ghost use Rattle.numbered.specs.Entries.{is_numbered, entry, with_entry};

#[cfg(test)]
mod tests;

// Where a number stands in a list of so many entries; None where it is none of them.
pub fn index_of(number: u64, entries: usize) -> Option<usize>
    ensures { result ≡ (if is_numbered entries number then Some (number - 1) else None) }
{
    let index = usize::try_from(number.checked_sub(1)?).ok()?;
    (index < entries).then_some(index)
}

// Whether a number is that of an entry.
pub fn is_numbered(number: u64, entries: usize) -> bool
    ensures { result ≡ is_numbered entries number }
{
    index_of(number, entries).is_some()
}

// The entry of a number; another value for any other number.
pub fn entry_of<T: Copy, const N: usize>(entries: &[T; N], number: u64, other: T) -> T
    ensures { result ≡ entry N other entries.now number }
{
    // Kept: a closure that indexes a generic array tells a proof nothing of what it gives (tried: `map_or(other, |index| entries[index])`).
    let Some(index) = index_of(number, N) else {
        return other;
    };
    entries[index]
}

// Sets the entry of a number; nothing for any other number.
pub fn set_entry<T: Copy, const N: usize>(entries: &mut [T; N], number: u64, value: T)
    ensures { entries.new ≡ with_entry N entries.old number value }
{
    if let Some(index) = index_of(number, N) {
        entries[index] = value;
    }
}
