// The words for what comes out.
ghost use Rattle.std.specs.Prelude.{◌≡◌, if◌then◌else◌, codes, MatchOption};

use search::found::Found;

// Kept: functions and no `Display`, since `Display` of bool and Option is for std to write.
pub fn yes_or_no(judged: bool) -> &'static str
    ensures { result.now ≡ (if judged then codes "yes" else codes "no") }
{
    if judged { "yes" } else { "no" }
}

pub fn found_or_none(found: Option<Found>) -> &'static str
    ensures { MatchOption found (result.now ≡ codes "none") (λ _. result.now ≡ codes "found") }
{
    match found {
        Some(_) => "found",
        None => "none",
    }
}
