// The calls that move the stage, and every call.
ghost use Rattle.std.specs.Prelude.{◌≡◌};
ghost use Rattle.std.specs.List.{list_any};
ghost use Rattle.month.specs.Book.{book};
ghost use Rattle.month.specs.Meant.{meant, meant_post};
ghost use Rattle.month.specs.Pots.{some_strands};
ghost use Rattle.month.specs.Steps.{service_pots, post_answer, post_after, stage_answer, stage_after, answer as answer_of, after as after_of};
ghost use Rattle.month.specs.Seen.{strands};

use super::{Month, Stage};
use crate::calls::{Call, Post, StageCall};
use crate::refusal::Refusal;
use payers::base::PayerBase;
use payers::charging::total_weight;
use payers::readings::Reading;
use prorating::rule::Rule;
use std::convert::AsSlice;
use tables::accounts::WeightedPot;

// Whether a pot above 0 has nobody to pay it.
pub(super) fn is_stranded<B: PayerBase>(cents: u64, base: &B) -> bool
    ensures { result ≡ strands cents (B.PayerBase.weights base.now) }
{
    cents > 0 && total_weight(base) == 0
}

// Whether one of some pots has nobody to pay it.
fn are_some_stranded(pots: &[WeightedPot]) -> bool
    ensures { result ≡ list_any (λ p. strands p.cents p.base.at) pots.now }
{
    pots.iter().any(|pot| is_stranded(pot.cents, &pot.base))
}

impl Month {
    // Whether a pot of a service has nobody to pay it.
    fn is_service_stranded(&self) -> bool
        ensures { result ≡ some_strands (service_pots (book self.now)) }
    {
        are_some_stranded(&self.service_pots())
    }

    // Opens a blank month, settles an open one by a rule, opens a settled one again, which drops its charges, or makes it final.
    pub fn stage<R: Rule>(&mut self, call: &StageCall<R>) -> Result<(), Refusal>
        ensures answer { result ≡ stage_answer (book self.old) call.now }
        ensures after { book self.new ≡ stage_after R.Rule.shares (book self.old) call.now }
    {
        match (&self.stage, call) {
            (Stage::Blank, StageCall::Open(terms)) => {
                if terms.are_outside() {
                    return Err(Refusal::Limits);
                }
                self.terms = *terms;
                self.stage = Stage::Open;
                Ok(())
            }
            (Stage::Open, StageCall::Settle(rule)) => {
                if self.is_service_stranded() {
                    return Err(Refusal::NoWeight);
                }
                self.stage = Stage::Settled(self.charged(rule));
                Ok(())
            }
            (Stage::Settled(_), StageCall::Reopen) => {
                self.stage = Stage::Open;
                Ok(())
            }
            (Stage::Settled(charges), StageCall::Confirm) => {
                self.stage = Stage::Final(*charges);
                Ok(())
            }
            _ => Err(Refusal::Stage),
        }
    }

    // Any post.
    pub fn post<T: AsSlice<Reading>>(&mut self, post: &Post<T>) -> Result<(), Refusal>
        ensures answer { result ≡ post_answer (book self.old) (meant_post T.items post.now) }
        ensures after { book self.new ≡ post_after (book self.old) (meant_post T.items post.now) }
    {
        match post {
            Post::Company { number } => self.company(*number),
            Post::Replace { old, new } => self.replace(*old, *new),
            Post::Unit { number, place } => self.unit(*number, *place),
            Post::Performance {
                unit,
                family,
                performance,
            } => self.performance(*unit, *family, *performance),
            Post::Line {
                unit,
                hour,
                family,
                line,
            } => self.line(*unit, *hour, *family, *line),
            Post::Installation {
                unit,
                family,
                installation,
            } => self.installation(*unit, *family, *installation),
            Post::Meter { company, meter } => self.meter(*company, *meter),
            Post::Point { number, supplier } => self.point(*number, *supplier),
            Post::Shed {
                point,
                shedding,
                zone,
                readings,
            } => self.shed(*point, *shedding, *zone, readings.as_slice()),
        }
    }

    // Any call.
    pub fn apply<T: AsSlice<Reading>, R: Rule>(&mut self, call: &Call<T, R>) -> Result<(), Refusal>
        ensures answer { result ≡ answer_of (book self.old) (meant T.items call.now) }
        ensures after { book self.new ≡ after_of R.Rule.shares (book self.old) (meant T.items call.now) }
    {
        match call {
            Call::Post(post) => self.post(post),
            Call::Stage(stage) => self.stage(stage),
        }
    }
}
