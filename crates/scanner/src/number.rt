// Numbers in a text: decimal, at most 4,294,967,295, without leading zeros.
ghost use Rattle.std.specs.Prelude.{◌≡◌, drop};
ghost use Rattle.text.specs.Number.{number};
ghost use Rattle.scanner.specs.Tokens.{digit_at, number_step, run_value};

// A number that stands at a place, and the place after it. Named fields: a pair of two numbers would not say which is the place.
#[derive(Clone, Copy, Debug, PartialEq, Eq)]
pub(crate) struct NumberAt {
    pub value: u32,
    pub next: usize,
}

// The digit at a place.
#[tactic(auto, unfolding(crate::specs::Tokens::digit_at))]
fn digit_at(text: &[u8], at: usize) -> Option<u32>
    ensures { result ≡ digit_at (drop at text.now) }
{
    match *text.get(at)? {
        byte @ b'0'..=b'9' => Some((byte - b'0') as u32),
        _ => None,
    }
}

// The value of all the digits at a place, if it is no larger than a number may be.
#[tactic(auto, using(crate::proofs::Tokens::digit_within))]
fn digits_at(text: &[u8], at: usize) -> Option<NumberAt>
    ensures { number_step text.now result ≡ run_value (drop at text.now) }
{
    let mut value: u32 = 0;
    let mut next = at;
    // No chain: the value is held to its limit digit by digit, and the place after the last digit is answered with it.
    while let Some(digit) = digit_at(text, next) {
        value = value.checked_mul(10)?.checked_add(digit)?;
        next += 1;
    }
    if at < next {
        Some(NumberAt { value, next })
    } else {
        None
    }
}

// The number at a place. A zero stands alone.
#[tactic(auto, unfolding(crate::specs::Tokens::number_step), using(crate::proofs::Tokens::digit_within, crate::proofs::Tokens::zero_alone, crate::proofs::Tokens::zero_leads, crate::proofs::Tokens::run_is_number))]
pub(crate) fn number_at(text: &[u8], at: usize) -> Option<NumberAt>
    ensures { number_step text.now result ≡ number (drop at text.now) }
{
    match digit_at(text, at) {
        Some(0) => match digit_at(text, at + 1) {
            None => Some(NumberAt {
                value: 0,
                next: at + 1,
            }),
            Some(_) => None,
        },
        _ => digits_at(text, at),
    }
}
