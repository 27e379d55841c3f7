// Reads a script: the calls on a month, one to a line.
//
// Each line is ended by byte 10; the last line end may be missing, and an empty script has no calls. The fields of a line are parted by
// exactly one space. A number is `0`, or 1 to 11 digits of which the first is not 0. The lines are:
//
//     open PERIOD HOURS COST COUNT DURATION
//     company N
//     replace OLD NEW
//     unit N OWNER ZONE
//     performance UNIT FAMILY UNAVAILABLE ACTIVATION
//     line UNIT HOUR KIND FAMILY FIGURES..      the figures of the kind, 1 to 8, in their order
//     installation UNIT FAMILY ANNUITY MAINTENANCE
//     meter COMPANY WITHDRAWALS INJECTIONS
//     point N SUPPLIER
//     shed POINT KW SECONDS ZONE COUNT UNIT KWH ..      as many pairs as COUNT says
//     settle RULE      `running` or `largest`
//     reopen
//     confirm
//
// The last line may be `payments running` or `payments largest`: it is no call, and names the rule of the payments.
//
// Any other line is no call. Figures of any size are read: the month judges their limits.

#![tactic(auto)]

pub mod fault;
pub mod line;
mod number;
pub mod payments;
pub mod reader;
mod word;

pub use fault::Fault;
pub use line::Said;
pub use payments::{lines_of_calls, payments_rule};
pub use reader::{Script, read};

#[cfg(test)]
mod tests;
