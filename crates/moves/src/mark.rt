// A mark that an event sets.
ghost use Rattle.std.specs.Prelude.{◌≤◌};

// A mark to be set from day `from` to day `to`. The kind is the event's number: an enum would repeat the judgement that `limits` has made of it,
// and `marks` gives a number that is no kind no bit.
#[derive(Clone, Copy, Debug, PartialEq, Eq)]
pub struct Mark {
    pub kind: u32,
    pub from: u32,
    pub to: u32,
    ghost ordered: { from ≤ to },
}
