// Cases of the link: those that are proved, as one fact, and outside vectors as tests.
#![tactic(auto)]

ghost use Rattle.std.specs.Prelude.{◌≡◌};
ghost use Rattle.cases.specs.Proved.{ProvedCases};
ghost use Rattle.cases.specs.StoreCases.{StoreCases};

#[cfg(test)]
mod frames;
#[cfg(test)]
mod poll_lists;
#[cfg(test)]
mod refusals;
#[cfg(test)]
mod stores;
#[cfg(test)]
mod streams;
#[cfg(test)]
mod strips;

/// How many cases are proved, and that each of them holds of the rules.
pub fn proved_cases() -> u8
    ensures count { result ≡ 11 }
    ensures hold { ProvedCases }
{
    11
}

/// How many of them are cases of the stores, and that each of those holds of the rules.
pub fn proved_store_cases() -> u8
    ensures count { result ≡ 3 }
    ensures hold { StoreCases }
{
    3
}
