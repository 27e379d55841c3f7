// Each table at its edges: where it is full, and at numbers and figures that it does not take.

use crate::accounts::Accounts;
use crate::marks::Marks;
use crate::points::PointTable;
use crate::units::{Place, UnitTable};
use payers::weights::CompanyWeights;
use payers::zone::Owners;
use worth::{Line, Performance};

fn place(owner: u64, zone: u64) -> Place {
    Place { owner, zone }
}

#[test]
fn marks_of_the_companies_alone(rt: HostRuntime) {
    let mut marks = Marks::none();
    for company in [0, 1, 32, 33, u64::MAX] {
        marks.put(company);
    }
    for (company, marked) in [
        (0, false),
        (1, true),
        (2, false),
        (31, false),
        (32, true),
        (33, false),
        (u64::MAX, false),
    ] {
        assert_eq!(rt; marks.has(company), marked);
    }
}

#[test]
fn units_up_to_the_48th(rt: HostRuntime) {
    let mut table = UnitTable::none();
    // no company's number
    table.add(1, place(0, 1));
    table.add(1, place(33, 1));
    assert!(rt; table.place(1).is_none());
    for number in 1..=48 {
        assert!(rt; !table.is_full());
        table.add(number, place(32, number));
    }
    assert!(rt; table.is_full());
    // one that is there, and one too many
    table.add(1, place(7, 9));
    table.add(49, place(7, 9));
    assert!(rt; table.place(49).is_none());
    for number in 1..=48 {
        let place = table.place(number);
        assert_eq!(rt;
            place.map(|place| (place.owner, place.zone)),
            Some((32, number))
        );
    }
}

#[test]
fn units_keep_the_first_of_a_number(rt: HostRuntime) {
    let mut table = UnitTable::none();
    table.add(5, place(1, 2));
    table.add(5, place(3, 4));
    table.add(0, place(32, u64::MAX));
    assert_eq!(rt;
        (table.owner_in(5, 2), table.owner_in(5, 4)),
        (Some(1), None)
    );
    assert_eq!(rt; (table.owner_in(5, 1), table.owner_in(5, 3)), (None, None));
    assert_eq!(rt;
        (table.owner_in(0, u64::MAX), table.owner_in(6, 2)),
        (Some(32), None)
    );
}

#[test]
fn performances_and_installations_by_family(rt: HostRuntime) {
    let mut table = UnitTable::none();
    table.add(5, place(1, 2));
    table.add(6, place(1, 2));
    for family in [0, 2, 3] {
        let performance = Performance {
            unavailable: family,
            activation: 9_000,
        };
        table.perform(6, family, performance);
        table.install(6, family);
        // no such unit
        table.perform(7, family, performance);
        table.install(7, family);
    }
    for unit in 5..8 {
        for family in 0..4 {
            let there = unit == 6 && family == 2;
            let performance = table.performance(unit, family);
            assert_eq!(rt;
                performance.map(|p| (p.unavailable, p.activation)),
                there.then_some((2, 9_000))
            );
            assert_eq!(rt; table.is_installed(unit, family), there);
        }
    }
}

#[test]
fn lines_by_hour_and_kind(rt: HostRuntime) {
    let first = Line::UpwardAvailability {
        awarded_value: 2_000,
        reserve: 50_000,
    };
    let last = Line::ExtraWithdrawal {
        marginal_cost: 4_500,
        withdrawn: 7,
        withdrawn_without: 3,
    };
    let mut table = UnitTable::none();
    table.add(5, place(1, 2));
    table.add(6, place(1, 2));
    table.give(6, 0, &first);
    table.give(6, 744, &last);
    // an hour of no month, and no such unit
    table.give(6, 745, &first);
    table.give(6, u64::MAX, &last);
    table.give(7, 1, &last);
    for (unit, hour) in [
        (5, 0),
        (5, 744),
        (6, 0),
        (6, 1),
        (6, 743),
        (6, 744),
        (6, 745),
        (6, u64::MAX),
        (7, 1),
    ] {
        assert_eq!(rt; table.is_given(unit, hour, &first), unit == 6 && hour == 0);
        assert_eq!(rt; table.is_given(unit, hour, &last), unit == 6 && hour == 744);
    }
}

#[test]
fn points_and_what_was_shed_there(rt: HostRuntime) {
    let mut table = PointTable::none();
    for number in [0, 32, 33] {
        table.supply(number, 40);
        table.shed(number, 86_400);
        table.shed(number, 1);
        // longer than a day
        table.shed(number, 86_401);
        table.shed(number, u64::MAX);
    }
    // a point that nobody supplies
    table.shed(1, 0);
    for (number, supplier, count, seconds) in [
        (0, None, 0, 0),
        (1, None, 1, 0),
        (2, None, 0, 0),
        (32, Some(40), 2, 86_401),
        (33, None, 0, 0),
    ] {
        let point = table.point(number);
        assert_eq!(rt;
            (point.supplier, point.count, point.seconds),
            (supplier, count, seconds)
        );
    }
    assert!(rt; !table.is_full());
}

#[test]
fn credits_up_to_the_limit(rt: HostRuntime) {
    let mut accounts = Accounts::none();
    // no such company, and no such pot
    accounts.enter(0, 1, 5);
    accounts.enter(33, 1, 5);
    accounts.enter(1, 0, 5);
    accounts.enter(1, 4, 5);
    assert!(rt; !accounts.passes(3_000_000_000) && accounts.passes(3_000_000_001));
    accounts.enter(1, 1, 2_999_999_990);
    accounts.enter(1, 3, 4);
    accounts.enter(32, 3, 5);
    assert!(rt; !accounts.passes(1) && accounts.passes(2));
    // past the limit, and up to it
    accounts.enter(32, 2, 2);
    accounts.enter(32, 2, u64::MAX);
    accounts.enter(32, 2, 1);
    assert!(rt; !accounts.passes(0) && accounts.passes(1));
    for (company, earned) in [(0, 0), (1, 2_999_999_994), (2, 0), (32, 6), (33, 0)] {
        assert_eq!(rt; accounts.earned(company), earned);
    }
    for (service, cents) in [(0, 0), (1, 2_999_999_990), (2, 1), (3, 9), (4, 0)] {
        assert_eq!(rt; accounts.service(service), cents);
    }
}

#[test]
fn pots_of_sheddings_up_to_the_16th(rt: HostRuntime) {
    let mut accounts = Accounts::none();
    // nobody is credited, and nothing needs no pot
    accounts.shed(33, 5, CompanyWeights::none());
    accounts.shed(1, 3_000_000_001, CompanyWeights::none());
    accounts.shed(1, 0, CompanyWeights::none());
    assert!(rt; accounts.shedding(0).is_none());
    for cents in 1..=16 {
        assert!(rt; !accounts.is_full());
        accounts.shed(2, cents, CompanyWeights::none());
    }
    assert!(rt; accounts.is_full());
    // one too many, and one that needs no pot
    accounts.shed(3, 1, CompanyWeights::none());
    accounts.shed(3, 0, CompanyWeights::none());
    assert_eq!(rt;
        (accounts.earned(1), accounts.earned(2), accounts.earned(3)),
        (0, 136, 0)
    );
    for (index, cents) in [
        (0, Some(1)),
        (1, Some(2)),
        (15, Some(16)),
        (16, None),
        (usize::MAX, None),
    ] {
        assert_eq!(rt; accounts.shedding(index).map(|pot| pot.cents), cents);
    }
}
