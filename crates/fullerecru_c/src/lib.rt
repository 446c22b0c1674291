// The static library for C: each function of `fullerecru` under its own name, with the same clauses. It only calls that one: what
// each does, and what it promises, is said there.
#![tactic(auto)]

pub mod orders;
pub mod planners;
pub mod plans;
pub mod reports;
pub mod tapes;
pub mod texts;

ghost use Rattle.std.specs.Prelude.{◌≡◌};
ghost use Rattle.fullerecru.specs.Version.{version_number};

// The version, as FULLERECRU_VERSION of the header.
#[unsafe(no_mangle)]
pub extern "C" fn fullerecru_version() -> u64
    ensures { result ≡ version_number }
{
    fullerecru::fullerecru_version()
}
