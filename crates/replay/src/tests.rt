// The order of what is printed.
use crate::report::{charges, nets, payments};
use month::figures::Figures;
use std::test::Fail;

#[test]
fn charges_above_0_go_by_company_and_then_by_pot(rt: HostRuntime) -> Result<(), Fail> {
    let mut table = [[0; 32]; 19];
    table[0][31] = 7;
    table[0][0] = 1;
    table[18][0] = 5;
    let list = charges(rt.alloc(), &table)?;
    assert_eq!(rt; list.len(), 3);
    let expected = [(1, 1, 1), (1, 19, 5), (32, 1, 7)];
    for (charge, numbers) in list.iter().zip(expected.iter()) {
        assert_eq!(rt; (charge.company, charge.pot, charge.cents), *numbers);
    }
    Ok(())
}

#[test]
fn payments_above_0_go_by_debtor_and_then_by_creditor(rt: HostRuntime) -> Result<(), Fail> {
    let mut table = [0; 1_024];
    table[1_023] = 7;
    table[1] = 1;
    table[32] = 5;
    let list = payments(rt.alloc(), &table)?;
    assert_eq!(rt; list.len(), 3);
    let expected = [(1, 2, 1), (2, 1, 5), (32, 32, 7)];
    for (payment, numbers) in list.iter().zip(expected.iter()) {
        assert_eq!(rt; (payment.from, payment.to, payment.cents), *numbers);
    }
    Ok(())
}

#[test]
fn unregistered_companies_have_no_line(rt: HostRuntime) -> Result<(), Fail> {
    let mut figures = [None; 32];
    figures[31] = Some(Figures {
        credit: 3,
        charge: 5,
        net: -2,
    });
    let list = nets(rt.alloc(), &figures)?;
    assert_eq!(rt; list.len(), 1);
    for net in &list {
        assert_eq!(rt; (net.company, net.figures.net), (32, -2));
    }
    Ok(())
}
