// The numbers on the display: why a call is refused, and the number that says so.
#![tactic(auto)]

ghost use Rattle.std.specs.Prelude.{◌≡◌};
ghost use Rattle.display.specs.Display.{checked_means, refusal_number, ◌then◌};

// Why a call is refused, by the word on the display, with its number there.
#[derive(Clone, Copy, Debug, PartialEq, Eq, Hash)]
pub enum Refusal {
    Limits = 1,
    Still = 2,
    Long = 3,
    Feed = 4,
    Radius = 5,
    Mark = 6,
    Full = 7,
    Empty = 8,
    Ragged = 9,
    Many = 10,
    List = 11,
    Word = 12,
    Number = 13,
    Steps = 14,
    NotFinite = 15,
    Beyond = 16,
}

// Why a list of things is refused: the refusal, and the place from 1 of the one at fault, 0 where none of them is: the
// place is written as it stands, and 0 is the sign for none.
#[derive(Clone, Copy, Debug, PartialEq, Eq, Hash)]
pub struct RefusedAt {
    pub why: Refusal,
    pub place: usize,
}

// The number on the display. A function and no `From`, as the next: contracts and callers name them.
pub fn refusal_number(why: Refusal) -> u64
    ensures { result ≡ refusal_number why }
{
    why as u64
}

// The number on the display of a check's answer; 0 says that it passed.
pub fn checked_number(c: Result<(), Refusal>) -> u64
    ensures { result ≡ checked_means c }
{
    match c {
        Ok(()) => 0,
        Err(why) => refusal_number(why),
    }
}

// A refusal of the whole, of none of its parts.
impl From<Refusal> for RefusedAt {
    ghost from_gives = { λ why r. r ≡ record { why = why; place = 0 } };

    fn from(why: Refusal) -> RefusedAt {
        RefusedAt { why, place: 0 }
    }
}

// One check and then another: the first of them that refuses. `Result::and` by its public name.
pub fn first_refusal(a: Result<(), Refusal>, b: Result<(), Refusal>) -> Result<(), Refusal>
    ensures { checked_means result ≡ (checked_means a then checked_means b) }
{
    a.and(b)
}
