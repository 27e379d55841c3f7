// Payment tables: worked figures, and the edges of debts, dues and tables.
use crate::payments::{ENTRIES, pay};
use crate::refusal::Refusal;
use payers::base::COMPANIES;
use prorating::largest::Largest;
use prorating::running::Running;
use prorating::weights::LIMIT;
use std::test::Fail;

// A list with these amounts for companies 1, 2 and so on, and 0 for the others.
fn amounts(first: &[u64; 4]) -> [u64; COMPANIES] {
    let mut all = [0; COMPANIES];
    all[..4].copy_from_slice(first);
    all
}

// How many payments a table has.
fn paid(table: &[u64]) -> usize {
    table.iter().filter(|cents| **cents > 0).count()
}

// Companies 1 and 2 owe 10 and 5; 7 and 8 are due to companies 3 and 4. Worked by hand in docs/CLEARING.md.
#[test]
fn worked_payments_by_both_rules(rt: HostRuntime) -> Result<(), Fail> {
    let debts = amounts(&[10, 5, 0, 0]);
    let dues = amounts(&[0, 0, 7, 8]);
    let mut table = [9; ENTRIES];
    pay(&debts, &dues, &Running, &mut table)?;
    assert_eq!(rt; &table[0..4], [0, 0, 4, 6].as_slice());
    assert_eq!(rt; &table[32..36], [0, 0, 3, 2].as_slice());
    assert_eq!(rt; paid(&table), 4);
    pay(&debts, &dues, &Largest, &mut table)?;
    assert_eq!(rt; &table[0..4], [0, 0, 5, 5].as_slice());
    assert_eq!(rt; &table[32..36], [0, 0, 2, 3].as_slice());
    Ok(())
}

#[test]
fn one_creditor_gets_every_debt_whole(rt: HostRuntime) -> Result<(), Fail> {
    let mut debts = [7; COMPANIES];
    debts[31] = 0;
    let mut dues = [0; COMPANIES];
    dues[31] = 217;
    let mut table = [0; ENTRIES];
    pay(&debts, &dues, &Largest, &mut table)?;
    for debtor in 0..31 {
        assert_eq!(rt; table[debtor * 32 + 31], 7);
    }
    assert_eq!(rt; paid(&table), 31);
    Ok(())
}

#[test]
fn one_debtor_pays_every_due_whole(rt: HostRuntime) -> Result<(), Fail> {
    let mut debts = [0; COMPANIES];
    debts[0] = 217;
    let mut dues = [7; COMPANIES];
    dues[0] = 0;
    let mut table = [0; ENTRIES];
    pay(&debts, &dues, &Running, &mut table)?;
    assert_eq!(rt; table[0], 0);
    for creditor in 1..32 {
        assert_eq!(rt; table[creditor], 7);
    }
    assert_eq!(rt; paid(&table), 31);
    Ok(())
}

#[test]
fn no_debts_are_no_payments(rt: HostRuntime) -> Result<(), Fail> {
    let none = [0; COMPANIES];
    let mut table = [9; ENTRIES];
    pay(&none, &none, &Running, &mut table)?;
    assert_eq!(rt; paid(&table), 0);
    Ok(())
}

#[test]
fn later_entries_stay_and_short_tables_are_refused(rt: HostRuntime) -> Result<(), Fail> {
    let debts = amounts(&[10, 0, 0, 0]);
    let dues = amounts(&[0, 10, 0, 0]);
    let mut long = [9; 2_000];
    pay(&debts, &dues, &Running, &mut long)?;
    assert_eq!(rt;
        (long[1], long[1_023], long[1_024], long[1_999]),
        (10, 0, 9, 9)
    );
    let mut short = [9; 1_023];
    assert_eq!(rt;
        pay(&debts, &dues, &Running, &mut short),
        Err(Refusal::Short)
    );
    assert_eq!(rt; (short[0], short[1]), (9, 9));
    Ok(())
}

#[test]
fn dues_above_the_limit_are_refused(rt: HostRuntime) {
    let debts = amounts(&[1, 0, 0, 0]);
    let dues = amounts(&[0, LIMIT, 1, 0]);
    let mut table = [9; ENTRIES];
    assert_eq!(rt;
        pay(&debts, &dues, &Running, &mut table),
        Err(Refusal::Total)
    );
    assert_eq!(rt; (table[0], table[1]), (9, 9));
    assert_eq!(rt;
        (u8::from(Refusal::Short), u8::from(Refusal::Total)),
        (10, 2)
    );
}
