// The laws of the card.
ghost use Rattle.card.specs.Laws.{Returns, Repacks, Judges};

// What was packed unpacks and loads to the same deck.
pub fn packed_comes_back()
    ensures { Returns }
{}

// A card that loads is packed back byte for byte.
pub fn card_is_repacked()
    ensures { Repacks }
{}

// Judge answers 0 exactly to the cards of decks.
pub fn judge_accepts_exactly()
    ensures { Judges }
{}
