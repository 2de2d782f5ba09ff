//! The items of a line, which are separated by single spaces.

ghost use Rattle.std.specs.Prelude.{◌≡◌, ◌≢◌, [], ◌∷◌, ℕ, ℤ, List, IfSome, MatchOption, length};
ghost use Rattle.std.specs.Fmt.{decimal, signed_decimal};
ghost use Rattle.dcel_text.specs.Numbers.{IsNumber, IsDatum};
ghost use Rattle.dcel_text.specs.Items.{items_of, left, BeginsWith, slash};

use crate::numbers::{datum, natural};

/// The items of a line that are still to be read: none, or the items of these bytes.
///
/// `Some` of no bytes is one empty item.
pub type Rest<'a> = Option<&'a [u8]>;

/// Splits off the first item of the bytes.
///
/// Returns that item and the others. Empty bytes are one empty item.
pub fn first(bytes: &[u8]) -> (&[u8], Rest<'_>)
    ensures { items_of bytes.now ≡ result.0.now ∷ left result.1 }
{
    for (i, b) in bytes.iter().enumerate() {
        if *b == b' ' {
            return (&bytes[..i], Some(&bytes[i + 1..]));
        }
    }
    (bytes, None)
}

/// Reads the number that comes next.
///
/// Returns it with the items after it, or `None` if the next item isn't a number below 2^32
/// in decimals without leading zeros.
pub fn number_then<'a>(rest: Rest<'a>) -> Option<(u32, Rest<'a>)>
    ensures read { MatchOption result
        ((n : ℕ) (more : List (List ℕ)) → IsNumber n → left rest.entry ≢ decimal n ∷ more)
        (λ x. left rest.entry ≡ decimal x.0 ∷ left x.1) }
    ensures in_range { IfSome result (λ x. IsNumber x.0) }
{
    let (item, others) = first(rest?);
    let n = natural(item)?;
    if n < 4_294_967_296 {
        Some((n as u32, others))
    } else {
        None
    }
}

/// Reads the datum that comes next.
///
/// Returns it with the items after it, or `None` if the next item isn't an `i64` in decimals
/// without leading zeros.
pub fn datum_then<'a>(rest: Rest<'a>) -> Option<(i64, Rest<'a>)>
    ensures { MatchOption result
        ((d : ℤ) (more : List (List ℕ)) → IsDatum d → left rest.entry ≢ signed_decimal d ∷ more)
        (λ x. left rest.entry ≡ signed_decimal x.0 ∷ left x.1) }
{
    let (item, others) = first(rest?);
    Some((datum(item)?, others))
}

/// Counts the numbers that come next, up to the first item that isn't a number.
///
/// Returns the count with the items after these numbers. It does not allocate.
pub fn count_numbers<'a>(rest: Rest<'a>) -> (usize, Rest<'a>)
    ensures { (numbers : List ℕ) × BeginsWith (left rest.entry) numbers (left result.1) × (result.0 ≡ length numbers) }
{
    let Some(bytes) = rest else {
        return (0, None);
    };
    let most = bytes.len() + 1;
    let mut others = rest;
    for count in 0..most {
        let Some((_, more)) = number_then(others) else {
            return (count, others);
        };
        others = more;
    }
    (most, others)
}

/// Reads the slash that comes next.
///
/// Returns the items after it, or `None` if the next item isn't a slash.
pub fn slash_then<'a>(rest: Rest<'a>) -> Option<Rest<'a>>
    ensures { MatchOption result
        ((more : List (List ℕ)) → left rest.entry ≢ slash ∷ more)
        (λ others. left rest.entry ≡ slash ∷ left others) }
{
    let (item, others) = first(rest?);
    if item == b"/".as_slice() {
        Some(others)
    } else {
        None
    }
}

/// Returns `Some` if no item is left.
pub fn nothing(rest: Rest<'_>) -> Option<()>
    ensures { MatchOption result (left rest.entry ≢ []) (λ _. left rest.entry ≡ []) }
{
    match rest {
        None => Some(()),
        Some(_) => None,
    }
}
