// What becomes of submissions.
ghost use Rattle.std.specs.Prelude.{◌≡◌, count_by};
ghost use Rattle.order.specs.Outcome.{is_outcome};

/// What became of a submission, as far as its end can tell.
#[derive(Clone, Copy, PartialEq, Eq, Debug)]
pub enum Outcome {
    /// It is not gone yet.
    Waiting,
    /// The other end has it.
    Confirmed,
    /// The other end may have it.
    Doubtful,
}

/// How many had that outcome.
pub fn outcome_count(outcomes: &[Outcome], outcome: Outcome) -> usize
    ensures { result ≡ count_by (is_outcome outcome) outcomes.now }
{
    outcomes.iter().filter(|other| **other == outcome).count()
}
