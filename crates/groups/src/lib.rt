// Numbers in groups of seven bits, as a notice and the listing's pairs write them.
#![tactic(auto)]

ghost use Rattle.std.specs.Prelude.{◌≡◌};
ghost use Rattle.groups.specs.Number.{number_at};

use cube::refusals::Refusal;

// One number: its value with the next place, or the refusal, 9 or 10, with the place where the number begins.
pub type Number = Result<(usize, usize), (Refusal, usize)>;

// The number that begins at a place. Every place has an answer: beyond the end it is refusal 9.
pub fn number_at(bytes: &[u8], at: usize) -> Number
    ensures { result ≡ number_at bytes.now at }
{
    let Some(&first) = bytes.get(at) else {
        return Err((Refusal::Cut, at));
    };
    let low = usize::from(first);
    let second = at + 1;
    if low < 128 {
        return Ok((low, second));
    }
    let Some(&next) = bytes.get(second) else {
        return Err((Refusal::Cut, at));
    };
    let high = usize::from(next);
    if (high == 0) | (128 <= high) {
        return Err((Refusal::Group, at));
    }
    Ok((low % 128 + high * 128, at + 2))
}
