// The ledger of demand 3: its definitions, from documents 01 and 02 alone, the figures that document 01 marks (P) with rows for document 02's
// sentences, and what holds of the prices; the event, its answer and a month's figures.
// It uses the calendar's, the tariff's and the terms' definitions, and nothing of the head. Its promises cite specs/Refusals.antt,
// specs/Figures.antt and specs/PriceLaws.antt.
#![tactic(auto)]

ghost use Rattle.std.specs.Prelude.{◌≡◌, true, map};
ghost use Rattle.terms.specs.Terms.{valid_terms};
ghost use Rattle.terms.specs.declared.Terms.{Terms};
ghost use Rattle.ledger.specs.Figures.{Figure, shown, figures};
ghost use Rattle.ledger.specs.PriceLaws.{PriceLaws};
ghost use Rattle.ledger.specs.Refusals.{refusal_code, code_of, answer_record, summary_record};

// Why terms, an event, a month, a text or a row is refused: the table "What comes back on a refusal", in its order, then document 02's numbers
// (specs/Refusals.antt).
#[derive(Clone, Copy, Debug, PartialEq, Eq)]
pub enum Refusal {
    Terms = 1,
    Day,
    Limits,
    Full,
    Payments,
    Payment,
    UsageDay,
    UsageState,
    PlanCondition,
    PlanUnpaid,
    Service,
    Balance,
    Warning,
    Barred,
    Form,
    Buffer,
    Prices,
}

// The table's number, which `as` gives of an enum.
impl From<Refusal> for u8 {
    ghost from_gives = { λ r n. n ≡ refusal_code r };

    fn from(refusal: Refusal) -> u8 {
        refusal as u8
    }
}

// The code of an answer: 0 where it is no refusal.
pub fn code<T: Drop>(answer: Result<T, Refusal>) -> u8
    ensures { result ≡ code_of answer }
{
    match answer {
        Ok(_) => 0,
        Err(refusal) => u8::from(refusal),
    }
}

// An event as it is posted. Only the fields that its sort names are judged (specs/Event.antt); a price stands in `amount`. The sort and the kind are
// numbers: C hands in any, and document 01 names a match on the number with a range arm.
#[repr(C)]
#[derive(Clone, Copy, Debug, PartialEq, Eq, Default)]
pub struct Event {
    pub sort: u32,
    pub day: u32,
    pub amount: u32,
    pub number: u32,
    pub kind: u32,
    pub usage: u32,
    pub wh: u32,
    pub from: u32,
    pub to: u32,
}

// The largest amount, in cents.
pub const MAX_AMOUNT: u32 = 10000000;

pub const CHARGE_KIND_COUNT: u32 = 5;

// The largest Wh of an estimate or a read.
pub const MAX_WH: u32 = 9999999;

// "Each accepted event counts towards 4,096."; "At most 128 payments."; a plan is required from B of -5,000 down.
pub const MAX_EVENTS: u32 = 4096;

pub const MAX_PAYMENTS: u32 = 128;

pub const REQUIRED_DEBT: u64 = 5000;

// What a posted event is answered, as it is printed and as C gets it: the code, 0 where the event is accepted, beside the value.
#[derive(Clone, Copy, Debug, PartialEq, Eq)]
pub struct Answer {
    pub code: u8,
    pub value: u64,
}

impl From<Result<u64, Refusal>> for Answer {
    ghost from_gives = { λ r a. a ≡ answer_record r };

    fn from(answer: Result<u64, Refusal>) -> Answer {
        Answer {
            code: code(answer),
            value: answer.unwrap_or(0),
        }
    }
}

// A count of payments and the sum of their amounts, in cents.
#[derive(Clone, Copy, Debug, PartialEq, Eq, Default)]
pub struct Counted {
    pub count: u32,
    pub sum: u64,
}

// Energy used, in Wh, and its cost, in cents.
#[derive(Clone, Copy, Debug, PartialEq, Eq, Default)]
pub struct Used {
    pub wh: u64,
    pub cost: u64,
}

// A sum for each charge kind, 1 to 5, in cents. (By `as`, as a constant calls no `from`.)
pub type KindSums = [u64; CHARGE_KIND_COUNT as usize];

// A month's figures (specs/Months.antt).
#[derive(Clone, Copy, Debug, PartialEq, Eq)]
pub struct Figures {
    pub kept: Counted,
    pub reversed: Counted,
    pub metered: Used,
    pub estimated: Used,
    pub charges: KindSums,
    // hundredths of a cent per kWh; none where no Wh were used
    pub average: Option<u64>,
}

// The same as they are printed and as C gets them: the code beside the figures, and a flag for an average that is missing. The code is 3 for a month
// that holds none of the account's days, and 1 where there is no account; every figure is 0 then.
#[derive(Clone, Copy, Debug, PartialEq, Eq, Default)]
pub struct Summary {
    pub code: u8,
    pub kept: Counted,
    pub reversed: Counted,
    pub metered: Used,
    pub estimated: Used,
    pub charges: KindSums,
    // hundredths of a cent per kWh
    pub average: u64,
    pub missing: bool,
}

impl From<Result<Figures, Refusal>> for Summary {
    ghost from_gives = { λ r s. s ≡ summary_record r };

    fn from(month: Result<Figures, Refusal>) -> Summary {
        match month {
            Ok(figures) => Summary {
                code: 0,
                kept: figures.kept,
                reversed: figures.reversed,
                metered: figures.metered,
                estimated: figures.estimated,
                charges: figures.charges,
                average: figures.average.unwrap_or(0),
                missing: figures.average.is_none(),
            },
            Err(refusal) => Summary {
                code: u8::from(refusal),
                ..Summary::default()
            },
        }
    }
}

// The figures: what the ledger shows of each row is what the paper says.
pub fn figures_hold()
    ensures { map shown figures ≡ map (λ (f : Figure). f.expected) figures }
{}

// What holds of the prices of every ledger. The function does nothing; its promise is the theorem (specs/PriceLaws.antt).
pub fn price_laws()
    ensures { (t : Terms) → valid_terms t ≡ true → PriceLaws t }
{}
