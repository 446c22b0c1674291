// Fullerecru for C: the planner, a host's orders, the tape, the plan of a whole tape and its list, what held tapes back, the
// run of a trace and the records of a text. Every call but `fullerecru_version`, `fullerecru_told`, `fullerecru_host_fresh`,
// `fullerecru_report_fresh` and `fullerecru_position` returns the number on the display: 0 for accepted, else the refusal, which
// leaves what was lent as it was (the place of a record or a line at fault is written even so). Nothing is required but pointers
// to as many bytes, numbers or doubles as are named, and that what a call may write is lent to it once only.
// Where an answer goes into lent lists its number is made by a `match` of the call's own: a function over a closure would have to
// say in its contract which lists the closure fills. Exported functions cannot be generic, so some are alike.
#![tactic(auto)]

mod numbers;
pub mod orders;
pub mod planners;
pub mod plans;
pub mod reports;
pub mod tapes;
pub mod texts;

ghost use Rattle.std.specs.Prelude.{◌≡◌};
ghost use Rattle.fullerecru.specs.Version.{version_number};

pub use numbers::COUNT;

// The version, as FULLERECRU_VERSION of the header: 1,000,000 times the major one, 1,000 times the minor one, and the patch.
#[unsafe(no_mangle)]
pub extern "C" fn fullerecru_version() -> u64
    ensures { result ≡ version_number }
{
    12_000
}
