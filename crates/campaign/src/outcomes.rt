// What holds of loading as a whole.
ghost use Rattle.campaign.specs.Outcomes.{SomeOutcome, OneOutcome};

// Loading any file into any board has one outcome, and no other: the definition of load neither leaves a case out nor leaves a choice.
pub fn one_outcome()
    ensures some { SomeOutcome }
    ensures single { OneOutcome }
{}
