// The delivery law of the link, over every list of calls on its two ends.
#![tactic(auto)]

ghost use Rattle.law.specs.Law.{DeliveryLaw};
ghost use Rattle.law.specs.Plain.{LawInWords};

/// The law itself, of every list of calls. The calls of both ends follow the rules that its runs
/// are made of.
pub fn delivery_law_stands()
    ensures law { DeliveryLaw }
    ensures words { LawInWords }
{}
