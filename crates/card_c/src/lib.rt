// Judge for a program in C: `uint32_t judge(const uint8_t *card, size_t length)`.
#![tactic(auto)]

ghost use Rattle.std.specs.Prelude.{◌≡◌};
ghost use Rattle.card.specs.Calls.{judge_says};

// Judge: 0, or the number of the refusal of Unpack or Load.
#[unsafe(no_mangle)]
pub extern "C" fn judge(card: &[u8]) -> u32
    ensures { result ≡ judge_says card.now }
{
    card::judge::judge(card)
}
