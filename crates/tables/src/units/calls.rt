// What is asked of a table of units, and what is entered.
// Kept: families as numbers, as said in units.rt.
ghost use Rattle.std.specs.Prelude.{◌≡◌, false, [], length, if◌then◌else◌, Some, None, ◌==◌, nat_le, slice_index_or, position};
ghost use Rattle.std.specs.Fn.{FnOnceReturnsAtMut};
ghost use Rattle.std.specs.Option.{option_copied};
ghost use Rattle.numbered.specs.Entries.{entry};
ghost use Rattle.tables.specs.declared.units.UnitRow.{UnitRow};
ghost use Rattle.tables.specs.Units.{fresh as fresh_row, find as row_of, place as place_of, owner_in as owner_in_zone, performance as performance_in, installed as installed_in, slot as slot_of, given as given_in, is_addable as is_addable_to, added, with_performance, with_installation, with_line, change as changed_rows};
ghost use Rattle.tables.specs.Tables.{listed};
ghost use Rattle.tables.specs.Rows.{owner_company};

use super::{FAMILIES, HOURS, KINDS, LINES, Place, UnitRow, UnitTable};
use arrayvec::ArrayVec;
use numbered::{entry_of, is_numbered, set_entry};
use payers::base::COMPANIES;
use payers::zone::Owners;
use worth::{Line, Performance};

// Where an hour's line of a kind stands in a row; None where no month has such an hour.
// Kept: the hour and the line are two parameters here and below, since a caller has them apart, and would make a pair for the call alone.
fn line_index(hour: u64, line: &Line) -> Option<usize>
    ensures { result ≡ (if nat_le 745 hour then None else Some (slot_of hour line.now)) }
{
    (hour < HOURS as u64).then(|| hour as usize * KINDS + line.kind() as usize - 1)
}

impl UnitRow {
    // A unit of which nothing was posted.
    fn fresh(number: u64, place: Place) -> UnitRow
        ensures { result ≡ fresh_row number place.owner place.zone }
    {
        UnitRow {
            number,
            owner: place.owner,
            zone: place.zone,
            performances: [None; FAMILIES],
            installed: [false; FAMILIES],
            given: [false; LINES],
        }
    }

    // What was posted of the performance in a family; None where nothing was.
    fn performance(&self, family: u64) -> Option<Performance>
        ensures { result ≡ entry 2 None self.now.performances family }
    {
        entry_of(&self.performances, family, None)
    }

    // Whether there is an installation of a family.
    fn is_installed(&self, family: u64) -> bool
        ensures { result ≡ entry 2 false self.now.installed family }
    {
        entry_of(&self.installed, family, false)
    }

    // Whether there is a line of this line's kind in the hour.
    fn is_given(&self, hour: u64, line: &Line) -> bool
        ensures { result ≡ (if nat_le 745 hour then false else slice_index_or self.now.given (slot_of hour line.now) false) }
    {
        line_index(hour, line).is_some_and(|index| self.given[index])
    }

    // Notes the performance in a family.
    // Kept: family and performance are two parameters, since the family only says where the performance goes.
    fn perform(&mut self, family: u64, performance: Performance)
        ensures { self.new ≡ with_performance family performance self.old }
    {
        set_entry(&mut self.performances, family, Some(performance));
    }

    // Notes an installation of a family.
    fn install(&mut self, family: u64)
        ensures { self.new ≡ with_installation family self.old }
    {
        set_entry(&mut self.installed, family, true);
    }

    // Notes a line of this line's kind in the hour.
    fn give(&mut self, hour: u64, line: &Line)
        ensures { self.new ≡ with_line hour line.now self.old }
    {
        if let Some(index) = line_index(hour, line) {
            self.given[index] = true;
        }
    }
}

impl UnitTable {
    // The table with no units.
    pub fn none() -> UnitTable
        ensures { listed result ≡ [] }
    {
        UnitTable {
            rows: ArrayVec::new(),
        }
    }

    // The row of a unit.
    fn row(&self, unit: u64) -> Option<&UnitRow>
        ensures { option_copied result ≡ row_of (listed self.now) unit }
    {
        self.rows.iter().find(|row| row.number == unit)
    }

    // Who owns a unit and where it is; None where it is not registered.
    pub fn place(&self, unit: u64) -> Option<Place>
        ensures { result ≡ place_of (row_of (listed self.now) unit) }
    {
        self.row(unit).map(|row| Place {
            owner: row.owner,
            zone: row.zone,
        })
    }

    // What was posted of a unit's performance in a family; None where nothing was.
    pub fn performance(&self, unit: u64, family: u64) -> Option<Performance>
        ensures { result ≡ performance_in family (row_of (listed self.now) unit) }
    {
        self.row(unit)?.performance(family)
    }

    // Whether a unit has an installation of a family.
    pub fn is_installed(&self, unit: u64, family: u64) -> bool
        ensures { result ≡ installed_in family (row_of (listed self.now) unit) }
    {
        self.row(unit).is_some_and(|row| row.is_installed(family))
    }

    // Whether a unit has a line of this line's kind in the hour.
    pub fn is_given(&self, unit: u64, hour: u64, line: &Line) -> bool
        ensures { result ≡ given_in hour line.now (row_of (listed self.now) unit) }
    {
        self.row(unit).is_some_and(|row| row.is_given(hour, line))
    }

    // The index of the row of a unit.
    fn index(&self, unit: u64) -> Option<usize>
        ensures { result ≡ position (λ row. row.number == unit) (listed self.now) }
    {
        self.rows.iter().position(|row| row.number == unit)
    }

    // Changes the row of a unit, but not its number and owner; nothing where the unit is not registered.
    fn change<F: FnOnce(&mut UnitRow)>(&mut self, unit: u64, f: F)
        requires callable { F.IsAlwaysCallable f }
        requires keeps { (old new : UnitRow) → FnOnceReturnsAtMut F.FnOnce f old tt new → (new.number ≡ old.number) × (new.owner ≡ old.owner) }
        ensures { (g : UnitRow → UnitRow) → ((old new : UnitRow) → FnOnceReturnsAtMut F.FnOnce f old tt new → new ≡ g old) → listed self.new ≡ changed_rows g (listed self.old) unit }
    {
        if let Some(index) = self.index(unit) {
            f(&mut self.rows[index]);
        }
    }

    // Notes a unit's performance in a family; nothing where the unit is not registered.
    pub fn perform(&mut self, unit: u64, family: u64, performance: Performance)
        ensures { listed self.new ≡ changed_rows (with_performance family performance) (listed self.old) unit }
    {
        self.change(unit, |row| row.perform(family, performance));
    }

    // Notes an installation of a unit in a family; nothing where the unit is not registered.
    pub fn install(&mut self, unit: u64, family: u64)
        ensures { listed self.new ≡ changed_rows (with_installation family) (listed self.old) unit }
    {
        self.change(unit, |row| row.install(family));
    }

    // Notes a unit's line in the hour; nothing where the unit is not registered.
    pub fn give(&mut self, unit: u64, hour: u64, line: &Line)
        ensures { listed self.new ≡ changed_rows (with_line hour line.now) (listed self.old) unit }
    {
        self.change(unit, |row| row.give(hour, line));
    }

    // Whether there is no room for another unit.
    pub fn is_full(&self) -> bool
        ensures { result ≡ nat_le 48 (length (listed self.now)) }
    {
        self.rows.is_full()
    }

    // Whether a unit may be added: it is not registered, there is room, and the owner is a company's number.
    fn is_addable(&self, number: u64, owner: u64) -> bool
        ensures { result ≡ is_addable_to (listed self.now) number owner }
    {
        self.row(number).is_none() && !self.is_full() && is_numbered(owner, COMPANIES)
    }

    // Registers a unit; nothing where it may not be added.
    pub fn add(&mut self, number: u64, place: Place)
        ensures { listed self.new ≡ added (listed self.old) number place.owner place.zone }
    {
        if self.is_addable(number, place.owner) {
            self.rows.push(UnitRow::fresh(number, place));
        }
    }
}

// The zone's hour of a shedding asks the table for owners.
impl Owners for UnitTable {
    ghost owner = { λ t unit zone. owner_in_zone (place_of (row_of (listed t) unit)) zone };

    ghost company = { λ t unit zone c e. owner_company _ t.owned unit zone c e };

    fn owner_in(&self, unit: u64, zone: u64) -> Option<u64> {
        let place = self.place(unit)?;
        (place.zone == zone).then_some(place.owner)
    }
}
