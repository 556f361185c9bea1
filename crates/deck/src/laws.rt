// The law of Load.
ghost use Rattle.deck.specs.Accepts.{Exactly};

// Load accepts exactly the sheets that keep to every rule.
pub fn load_accepts_exactly()
    ensures { Exactly }
{}
