// A month before it is opened.
ghost use Rattle.std.specs.Prelude.{◌≡◌};
ghost use Rattle.month.specs.Book.{blank_book, book};

use super::{Month, Stage};
use crate::calls::Terms;
use payers::meters::Meters;
use payers::replacement::Replacements;
use tables::accounts::Accounts;
use tables::marks::Marks;
use tables::points::PointTable;
use tables::units::UnitTable;

impl Month {
    // A blank month: nothing is posted.
    pub fn blank() -> Month
        ensures { book result ≡ blank_book }
    {
        Month {
            stage: Stage::Blank,
            terms: Terms::default(),
            registered: Marks::none(),
            replacements: Replacements::none(),
            units: UnitTable::none(),
            metered: Marks::none(),
            meters: Meters::none(),
            points: PointTable::none(),
            accounts: Accounts::none(),
        }
    }
}
