// Numbers up to 4,095 in decimal, without leading zeros.
ghost use Rattle.std.specs.Prelude.{◌≡◌, ℕ, ◌+◌, ◌*◌, ◌<◌, ◌≤◌, MatchOption, ◌≢◌, IfSome};
ghost use Rattle.lasso.specs.LassoTexts.{decimal};

// The number that the field spells.
// Kept: a function and no `TryFrom`, which would want a type of its own around a number that a step holds plainly; and
// no `parse` of std, which takes leading zeros and a sign too.
pub fn read_state(field: &[u8]) -> Option<u16>
    ensures within { IfSome result (λ n. n ≤ 4095) }
    ensures spells { MatchOption result ((n : ℕ) → n ≤ 4095 → field.now ≢ decimal n) (λ n. (n ≤ 4095) × (field.now ≡ decimal n)) }
{
    if field.is_empty() || field.len() > 4 {
        return None;
    }
    if field[0] == b'0' && field.len() > 1 {
        return None;
    }
    let mut value: u16 = 0;
    for b in field {
        match b {
            b'0'..=b'9' => value = value * 10 + (*b - b'0') as u16,
            _ => return None,
        }
    }
    (value <= 4095).then_some(value)
}
