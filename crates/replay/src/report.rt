// What is printed of a month: the figures of the registered companies, and the charges and payments above 0; and of a refusal.
ghost use Rattle.std.specs.Prelude.{◌≡◌, ◌+◌, ◌<◌, ◌++◌, Some, IfOk, OnOk};
ghost use Rattle.replay.specs.Reports.{nets_from, column, charges_from, charges_of, net_text, charge_text, payment_at, payments_in, payment_text, refused_text};

use month::figures::Figures;
use month::refusal::Refusal;
use std::alloc::{AllocError, Global};
use std::fmt;

// The figures of a registered company.
#[derive(Clone, Copy)]
pub struct Net {
    pub company: u64,
    pub figures: Figures,
}

impl fmt::Display for Net {
    ghost output = { λ net. Some (net_text net) };

    fn fmt<W: fmt::Write>(&self, f: &mut fmt::Formatter<W>) -> fmt::Result {
        let Net { company, figures } = self;
        let Figures {
            credit,
            charge,
            net,
        } = figures;
        write!(f, "{company} {credit} {charge} {net}")
    }
}

// What a company is charged for a pot.
#[derive(Clone, Copy)]
pub struct Charge {
    pub company: u64,
    pub pot: u64,
    pub cents: u64,
}

impl fmt::Display for Charge {
    ghost output = { λ charge. Some (charge_text charge) };

    fn fmt<W: fmt::Write>(&self, f: &mut fmt::Formatter<W>) -> fmt::Result {
        let Charge {
            company,
            pot,
            cents,
        } = self;
        write!(f, "{company} {pot} {cents}")
    }
}

// What one company pays to another.
#[derive(Clone, Copy)]
pub struct Payment {
    pub from: u64,
    pub to: u64,
    pub cents: u64,
}

impl fmt::Display for Payment {
    ghost output = { λ payment. Some (payment_text payment) };

    fn fmt<W: fmt::Write>(&self, f: &mut fmt::Formatter<W>) -> fmt::Result {
        let Payment { from, to, cents } = self;
        write!(f, "{from} {to} {cents}")
    }
}

// What is printed where there is no outcome.
#[derive(Clone, Copy)]
pub struct Refused(pub Refusal);

impl fmt::Display for Refused {
    ghost output = { λ refused. Some (refused_text refused) };

    fn fmt<W: fmt::Write>(&self, f: &mut fmt::Formatter<W>) -> fmt::Result {
        let number = u8::from(self.0);
        write!(f, "refused {number}")
    }
}

// The figures of the registered companies, in rising order.
pub fn nets(heap: Global, figures: &[Option<Figures>; 32]) -> Result<Vec<Net>, AllocError>
    ensures { IfOk result (λ v. v.items ≡ nets_from 1 figures.now) }
{
    (1..33)
        .zip(figures)
        .filter_map(|(company, figures)| figures.map(|figures| Net { company, figures }))
        .collect(heap)
}

// The payment at an index of the table, if it is above 0.
fn paid(index: u64, cents: u64) -> Option<Payment>
    requires { index < 1_024 }
    ensures { result ≡ payment_at index cents }
{
    let payment = Payment {
        from: index / 32 + 1,
        to: index % 32 + 1,
        cents,
    };
    (cents > 0).then_some(payment)
}

// The payments above 0, in rising order of those who pay, and for each of those who are paid.
pub fn payments(heap: Global, table: &[u64; 1_024]) -> Result<Vec<Payment>, AllocError>
    ensures { IfOk result (λ v. v.items ≡ payments_in table.now) }
{
    (0..1_024)
        .zip(table)
        .filter_map(|(index, cents)| paid(index, *cents))
        .collect(heap)
}

// Adds the charges above 0 of the company at an index, in rising order of the pots.
fn add_charges(
    list: &mut Vec<Charge>,
    charges: &[[u64; 32]; 19],
    index: usize,
) -> Result<(), AllocError>
    requires { index < 32 }
    ensures { OnOk result (list.new.items ≡ list.old.items ++ charges_from (index + 1) 1 (column index charges.now)) }
{
    let company = index as u64 + 1;
    list.extend(
        (1..20)
            .zip(charges)
            .map(|(number, cents)| Charge {
                company,
                pot: number,
                cents: cents[index],
            })
            .filter(|charge| charge.cents > 0),
    )
}

// The charges above 0, in rising order of the companies, and for each in rising order of the pots.
pub fn charges(heap: Global, charges: &[[u64; 32]; 19]) -> Result<Vec<Charge>, AllocError>
    ensures { IfOk result (λ v. v.items ≡ charges_of 32 charges.now) }
{
    let mut list = Vec::new(heap);
    // Kept: an index stands for one company in the rows of all pots, and no iterator goes down the rows.
    for index in 0..32 {
        add_charges(&mut list, charges, index)?;
    }
    Ok(list)
}
