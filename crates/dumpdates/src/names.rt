//! The English names of ctime(3).

ghost use Rattle.std.specs.Prelude.{◌≡◌, ℕ, ◌<◌, MatchOption, IfSome, length, position, bytes_eq};
ghost use Rattle.std.specs.Int.{IsInRange};
ghost use Rattle.std.specs.List.{list_any};
ghost use Rattle.dumpdates.specs.Line.{SpellsMonth};
ghost use Rattle.dumpdates.specs.Names as spec;

const WEEKDAYS: [&str; 7] = ["Mon", "Tue", "Wed", "Thu", "Fri", "Sat", "Sun"];

const MONTHS: [&str; 12] = [
    "Jan", "Feb", "Mar", "Apr", "May", "Jun", "Jul", "Aug", "Sep", "Oct", "Nov", "Dec",
];

/// Day 0 was a Thursday.
pub(crate) fn weekday_name(day: u64) -> &'static str
    ensures name { result.now ≡ spec.weekday_name day }
    ensures len { length result.now ≡ 3 }
{
    WEEKDAYS[((day % 7 + 3) % 7) as usize]
}

/// The first month is 1.
#[tactic(auto, using(crate::proofs::Naming::now_at), unfolding(crate::specs::Names::month_name))]
pub(crate) fn month_name(month: u8) -> &'static str
    requires { IsInRange 1 12 month }
    ensures name { result.now ≡ spec.month_name month }
    ensures len { length result.now ≡ 3 }
{
    MONTHS[month as usize - 1]
}

pub(crate) fn is_weekday(word: &[u8]) -> bool
    ensures { result ≡ list_any (λ name. bytes_eq name word.now) spec.weekday_names }
{
    is_among(&WEEKDAYS, word)
}

/// Returns the month with this name, or None if there is none. The first month is 1.
#[tactic(auto, using(crate::proofs::Naming::no_month, crate::proofs::Naming::is_month))]
pub(crate) fn month_named(word: &[u8]) -> Option<u8>
    ensures { MatchOption result ((m : ℕ) → ¬ SpellsMonth word.now m) (λ m. SpellsMonth word.now m) }
{
    let at = place_of(&MONTHS, word)?;
    Some(at as u8 + 1)
}

fn is_among(names: &[&str], word: &[u8]) -> bool
    ensures { result ≡ list_any (λ name. bytes_eq name.now word.now) names.now }
{
    names.iter().any(|name| name.as_bytes() == word)
}

fn place_of(names: &[&str], word: &[u8]) -> Option<usize>
    ensures place { result ≡ position (λ name. bytes_eq name.now word.now) names.now }
    ensures bound { IfSome result (λ at. at < length names.now) }
{
    names.iter().position(|name| name.as_bytes() == word)
}
