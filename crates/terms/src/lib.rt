// The opening terms of an account and their limits. It uses the calendar. Its promise cites specs/Terms.antt.
#![tactic(auto)]

ghost use Rattle.std.specs.Prelude.{◌≡◌};
ghost use Rattle.terms.specs.Terms.{valid_terms};

use calendar::Date;

#[repr(C)]
#[derive(Clone, Copy, Debug, PartialEq, Eq, Default)]
pub struct Terms {
    pub opened: Date,
    // hundredths of a cent per kWh
    pub price: u32,
    // the connection and the disconnection balance, in cents
    pub connect: u32,
    pub cutoff: u32,
    // per cent of a payment that goes to a deferred payment plan
    pub share: u32,
}

pub const MAX_PRICE: u32 = 99999;

pub const MAX_CONNECT: u32 = 7500;

pub const MAX_CUTOFF: u32 = 1000;

pub const MAX_SHARE: u32 = 50;

impl Terms {
    // Whether each is within its limits.
    #[tactic(auto, unfolding(crate::specs::Terms::valid_terms))]
    pub fn is_valid(self) -> bool
        ensures { result ≡ valid_terms self }
    {
        let opened = self.opened;
        calendar::can_open(opened)
            && (1..=MAX_PRICE).contains(&self.price)
            && self.connect <= MAX_CONNECT
            && self.cutoff <= MAX_CUTOFF
            && self.cutoff <= self.connect
            && self.share <= MAX_SHARE
    }
}
