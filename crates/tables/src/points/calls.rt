// What is asked of the points, and what is noted.
ghost use Rattle.std.specs.Prelude.{◌≡◌, ◌≤◌, nat_le};
ghost use Rattle.tables.specs.Points.{no_points, point as point_in, with_supplier, with_shedding};
ghost use Rattle.tables.specs.Tables.{points_of};

use super::{LONGEST, POINTS, Point, PointTable, SHEDDINGS};
use numbered::{entry_of, index_of};

impl PointTable {
    // No point is registered, and nothing was shed.
    pub fn none() -> PointTable
        ensures { points_of result ≡ no_points }
    {
        PointTable {
            points: [Point::default(); POINTS],
            sheddings: 0,
        }
    }

    // What is known of a point; one that is not registered and had no shedding for any other number.
    pub fn point(&self, number: u64) -> Point
        ensures is { result ≡ point_in (points_of self.now) number }
        ensures few { (result.count ≤ 10_000) × (result.seconds ≤ 864_000_000) }
    {
        entry_of(&self.points, number, Point::default())
    }

    // Whether the month takes no further shedding.
    pub fn is_full(&self) -> bool
        ensures { result ≡ nat_le 10_000 (points_of self.now).sheddings }
    {
        self.sheddings >= SHEDDINGS
    }

    // Notes who supplies a point; nothing for any other number.
    pub fn supply(&mut self, number: u64, supplier: u64)
        ensures { points_of self.new ≡ with_supplier (points_of self.old) number supplier }
    {
        if let Some(index) = index_of(number, POINTS) {
            self.points[index].supplier = Some(supplier);
        }
    }

    // Counts a shedding at a point; nothing where it may not be counted.
    pub fn shed(&mut self, number: u64, seconds: u64)
        ensures { points_of self.new ≡ with_shedding (points_of self.old) number seconds }
    {
        if self.is_full() || seconds > LONGEST {
            return;
        }
        if let Some(index) = index_of(number, POINTS) {
            let point = &mut self.points[index];
            point.count += 1;
            point.seconds += seconds;
            self.sheddings += 1;
        }
    }
}
