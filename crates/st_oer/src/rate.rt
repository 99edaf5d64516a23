//! Exchange rates between amounts of money.

ghost use Rattle.std.specs.Prelude.{◌≡◌, ◌⊎◌, ◌<◌, MatchOption};
ghost use Rattle.st_oer.specs.Ratios.{IsRatio, exchanged, ratio};

use std::marker::Model;

/// An exchange rate: `num` outgoing units for `den` incoming units. Neither is 0.
#[derive(Clone, Copy, Debug, PartialEq, Eq)]
pub struct Rate {
    num: u32,
    den: u32,
}

impl Model for Rate {
    ghost use Rattle.st_oer.specs.Ratios.{IsRatio, Ratio, ratio};

    ghost Value = { Ratio };

    ghost view = { λ r. ratio r.num r.den };

    ghost inverse = { λ r. record { num = r.num; den = r.den } };

    ghost invariant = { λ r. IsRatio (ratio r.num r.den) };
}

impl Rate {
    /// The rate of `num` outgoing units for `den` incoming units. `None` exactly if one of them is 0.
    pub fn new(num: u32, den: u32) -> Option<Rate>
        ensures { MatchOption result ((num ≡ 0) ⊎ (den ≡ 0)) (λ rate. (rate ≡ ratio num den) × IsRatio rate) }
    {
        if num == 0 || den == 0 {
            None
        } else {
            Some(Rate { num, den })
        }
    }

    /// The number of outgoing units for `den` incoming ones.
    pub fn num(&self) -> u32
        ensures value { result ≡ self.now.num }
        ensures some { 0 < result }
    {
        self.num
    }

    /// The number of incoming units for `num` outgoing ones.
    pub fn den(&self) -> u32
        ensures value { result ≡ self.now.den }
        ensures some { 0 < result }
    {
        self.den
    }

    /// The outgoing amount for an incoming `amount`: `amount * num / den`, rounded down.
    #[tactic(auto, using(crate::proofs::Ratios::product_fits))]
    pub fn of(&self, amount: u64) -> u128
        ensures { result ≡ exchanged self.now amount }
    {
        u128::from(amount) * u128::from(self.num) / u128::from(self.den)
    }
}
