// How many rounds a word asks for.
ghost use Rattle.std.specs.Prelude.{◌≡◌, ◌≤◌, IfSome};
ghost use Rattle.schedule_text.specs.Limits.{most_rounds};
ghost use Rattle.drill_command.specs.Rounds.{rounds_of};

use fri_text::read_decimal;
use schedule_text::MOST_ROUNDS;

/// The rounds that the word asks for: a decimal number from 1 to 100,000.
pub fn rounds_of(word: &str) -> Option<u32>
    ensures value { result ≡ rounds_of word.now }
    ensures some { IfSome result (λ rounds. 1 ≤ rounds) }
    ensures few { IfSome result (λ rounds. rounds ≤ most_rounds) }
{
    let number = read_decimal(word.as_bytes(), u64::from(MOST_ROUNDS)).ok()?;
    if number == 0 {
        return None;
    }
    u32::try_from(number).ok()
}
