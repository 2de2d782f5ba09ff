//! Reading what comes after the word of a line, with one reader for each form of it.

ghost use Rattle.std.specs.Prelude.{◌≡◌, ◌<◌, ◌+◌, [], ◌∷◌, ◌++◌, ℕ, ℤ, List, length, MatchOption, MatchResult};
ghost use Rattle.dcel_commands.specs.Grammar.{Number, Datum, Slash, numbers};
ghost use Rattle.dcel_commands.specs.Written.{IsWritten};
ghost use Rattle.dcel_text.specs.Items.{BeginsWith, left};

use dcel_fixed::{
    FaceTag, FixedDirectedEdgeHandle, FixedFaceHandle, FixedHandleImpl, FixedUndirectedEdgeHandle,
    InnerOuterMarker, InnerTag, UndirectedEdgeTag,
};
use dcel_text::items::{Rest, count_numbers, datum_then, nothing, number_then, slash_then};
use std::alloc::{AllocError, Allocator};

/// A list of elements, or that there is no memory for it.
type Made<Kind, InnerOuter, A> = Result<Vec<FixedHandleImpl<Kind, InnerOuter>, A>, AllocError>;

/// A number and a list of elements, or that there is no memory for the list.
type NumberAndMade<Kind, InnerOuter, A> = Result<
    (usize, Vec<FixedHandleImpl<Kind, InnerOuter>, A>),
    AllocError,
>;

/// Two lists of elements, or that there is no memory for them.
type TwoMade<K, I, L, J, A> = Result<
    (Vec<FixedHandleImpl<K, I>, A>, Vec<FixedHandleImpl<L, J>, A>),
    AllocError,
>;

/// The edges and the faces inside a ring.
type OfRing<A> = TwoMade<UndirectedEdgeTag, InnerTag, FaceTag, InnerTag, A>;

/// The half edges of a ring, with the edges and the faces inside it.
type ThreeMade<A> = Result<
    (
        Vec<FixedDirectedEdgeHandle, A>,
        Vec<FixedUndirectedEdgeHandle, A>,
        Vec<FixedFaceHandle<InnerTag>, A>,
    ),
    AllocError,
>;

/// Reads a datum and nothing else.
pub fn one_datum<'a>(rest: Rest<'a>) -> Option<i64>
    ensures { MatchOption result
        ((d : ℤ) → ¬ IsWritten (Datum d ∷ []) (left rest.entry))
        (λ datum. IsWritten (Datum datum ∷ []) (left rest.entry)) }
{
    let (datum, others) = datum_then(rest)?;
    nothing(others)?;
    Some(datum)
}

/// Reads three data and nothing else.
pub fn three_data<'a>(rest: Rest<'a>) -> Option<(i64, i64, i64)>
    ensures { MatchOption result
        ((x y z : ℤ) → ¬ IsWritten (Datum x ∷ Datum y ∷ Datum z ∷ []) (left rest.entry))
        (λ read. IsWritten (Datum read.0 ∷ Datum read.1 ∷ Datum read.2 ∷ []) (left rest.entry)) }
{
    let (x, others) = datum_then(rest)?;
    let (y, others) = datum_then(others)?;
    let (z, others) = datum_then(others)?;
    nothing(others)?;
    Some((x, y, z))
}

/// Reads the number of an element and nothing else.
pub fn one_number<'a, Kind, InnerOuter: InnerOuterMarker>(
    rest: Rest<'a>,
) -> Option<FixedHandleImpl<Kind, InnerOuter>>
    ensures { MatchOption result
        ((n : ℕ) → ¬ IsWritten (Number n ∷ []) (left rest.entry))
        (λ handle. IsWritten (Number handle ∷ []) (left rest.entry)) }
{
    let (n, others) = number_then(rest)?;
    nothing(others)?;
    Some(FixedHandleImpl::new(n as usize))
}

/// Reads the numbers of two elements and nothing else.
///
/// `K` and `I` are the first element's kind and marker, `L` and `J` the second's.
pub fn two_numbers<'a, K, L, I: InnerOuterMarker, J: InnerOuterMarker>(
    rest: Rest<'a>,
) -> Option<(FixedHandleImpl<K, I>, FixedHandleImpl<L, J>)>
    ensures { MatchOption result
        ((m n : ℕ) → ¬ IsWritten (Number m ∷ Number n ∷ []) (left rest.entry))
        (λ read. IsWritten (Number read.0 ∷ Number read.1 ∷ []) (left rest.entry)) }
{
    let (m, others) = number_then(rest)?;
    let (n, others) = number_then(others)?;
    nothing(others)?;
    Some((
        FixedHandleImpl::new(m as usize),
        FixedHandleImpl::new(n as usize),
    ))
}

/// Reads the number of an element, a datum and nothing else.
pub fn number_and_datum<'a, Kind, InnerOuter: InnerOuterMarker>(
    rest: Rest<'a>,
) -> Option<(FixedHandleImpl<Kind, InnerOuter>, i64)>
    ensures { MatchOption result
        ((n : ℕ) (d : ℤ) → ¬ IsWritten (Number n ∷ Datum d ∷ []) (left rest.entry))
        (λ read. IsWritten (Number read.0 ∷ Datum read.1 ∷ []) (left rest.entry)) }
{
    let (n, others) = number_then(rest)?;
    let (d, others) = datum_then(others)?;
    nothing(others)?;
    Some((FixedHandleImpl::new(n as usize), d))
}

/// Reads the next `count` numbers into a list.
///
/// They were counted first, so that a bad line takes no memory.
fn numbers<'a, Kind, InnerOuter: InnerOuterMarker, A: Allocator>(
    rest: Rest<'a>,
    count: usize,
    memory: A,
) -> Made<Kind, InnerOuter, A>
    ensures { (numbers : List ℕ) (others : List (List ℕ)) → BeginsWith (left rest.entry) numbers others → length numbers ≡ count →
        MatchResult result (λ list. list.items ≡ numbers) (λ _. 0 < length numbers) }
{
    let mut list = Vec::with_capacity(memory, count)?;
    let mut others = rest;
    while let Some((number, more)) = number_then(others) {
        list.push(FixedHandleImpl::new(number as usize))?;
        others = more;
    }
    Ok(list)
}

/// Reads the next numbers in two places into two lists.
///
/// `K` and `I` are the first list's kind and marker, `L` and `J` the second's.
fn both<'a, K, L, I: InnerOuterMarker, J: InnerOuterMarker, A: Allocator + Copy>(
    first: Rest<'a>,
    first_count: usize,
    second: Rest<'a>,
    second_count: usize,
    memory: A,
) -> TwoMade<K, I, L, J, A>
    ensures { (ms ns : List ℕ) (xs ys : List (List ℕ)) → BeginsWith (left first.entry) ms xs → BeginsWith (left second.entry) ns ys
        → length ms ≡ first_count → length ns ≡ second_count →
        MatchResult result (λ lists. (lists.0.items ≡ ms) × (lists.1.items ≡ ns)) (λ _. 0 < length ms + length ns) }
{
    let first_list = numbers(first, first_count, memory)?;
    let second_list = numbers(second, second_count, memory)?;
    Ok((first_list, second_list))
}

/// Reads a list of elements and nothing else.
pub fn one_list<'a, Kind, InnerOuter: InnerOuterMarker, A: Allocator>(
    rest: Rest<'a>,
    memory: A,
) -> Option<Made<Kind, InnerOuter, A>>
    ensures { MatchOption result
        ((ns : List ℕ) → ¬ IsWritten (numbers ns) (left rest.entry))
        (λ made. (ns : List ℕ) × IsWritten (numbers ns) (left rest.entry) × MatchResult made (λ list. list.items ≡ ns) (λ _. 0 < length ns)) }
{
    let (count, others) = count_numbers(rest);
    nothing(others)?;
    Some(numbers(rest, count, memory))
}

/// Reads a number, a list of elements and nothing else.
pub fn number_and_list<'a, Kind, InnerOuter: InnerOuterMarker, A: Allocator>(
    rest: Rest<'a>,
    memory: A,
) -> Option<NumberAndMade<Kind, InnerOuter, A>>
    ensures { MatchOption result
        ((n : ℕ) (ns : List ℕ) → ¬ IsWritten (Number n ∷ numbers ns) (left rest.entry))
        (λ made. (n : ℕ) × (ns : List ℕ) × IsWritten (Number n ∷ numbers ns) (left rest.entry)
        × MatchResult made (λ read. (read.0 ≡ n) × (read.1.items ≡ ns)) (λ _. 0 < length ns)) }
{
    let (number, others) = number_then(rest)?;
    match one_list(others, memory)? {
        Ok(list) => Some(Ok((number as usize, list))),
        Err(error) => Some(Err(error)),
    }
}

/// Reads two lists of elements with a slash between them, and nothing else.
///
/// `K` and `I` are the first list's kind and marker, `L` and `J` the second's.
pub fn two_lists<'a, K, L, I: InnerOuterMarker, J: InnerOuterMarker, A: Allocator + Copy>(
    rest: Rest<'a>,
    memory: A,
) -> Option<TwoMade<K, I, L, J, A>>
    ensures { MatchOption result
        ((ms ns : List ℕ) → ¬ IsWritten (numbers ms ++ Slash ∷ numbers ns) (left rest.entry))
        (λ made. (ms : List ℕ) × (ns : List ℕ) × IsWritten (numbers ms ++ Slash ∷ numbers ns) (left rest.entry)
        × MatchResult made (λ lists. (lists.0.items ≡ ms) × (lists.1.items ≡ ns)) (λ _. 0 < length ms + length ns)) }
{
    let (first_count, after) = count_numbers(rest);
    let second = slash_then(after)?;
    let (second_count, end) = count_numbers(second);
    nothing(end)?;
    Some(both(rest, first_count, second, second_count, memory))
}

/// Reads a list of elements before two that are already read or found no memory.
fn and_two<'a, A: Allocator + Copy>(
    first: Rest<'a>,
    first_count: usize,
    others: OfRing<A>,
    memory: A,
) -> ThreeMade<A>
    ensures { (ls ms ns : List ℕ) (xs : List (List ℕ)) → BeginsWith (left first.entry) ls xs → length ls ≡ first_count
        → MatchResult others (λ lists. (lists.0.items ≡ ms) × (lists.1.items ≡ ns)) (λ _. 0 < length ms + length ns)
        → MatchResult result (λ lists. (lists.0.items ≡ ls) × (lists.1.items ≡ ms) × (lists.2.items ≡ ns)) (λ _. 0 < length ls + length ms + length ns) }
{
    let (second, third) = others?;
    let list = numbers(first, first_count, memory)?;
    Ok((list, second, third))
}

/// Reads three lists of elements with slashes between them, and nothing else.
pub fn three_lists<'a, A: Allocator + Copy>(rest: Rest<'a>, memory: A) -> Option<ThreeMade<A>>
    ensures { MatchOption result
        ((ls ms ns : List ℕ) → ¬ IsWritten (numbers ls ++ Slash ∷ (numbers ms ++ Slash ∷ numbers ns)) (left rest.entry))
        (λ made. (ls : List ℕ) × (ms : List ℕ) × (ns : List ℕ) × IsWritten (numbers ls ++ Slash ∷ (numbers ms ++ Slash ∷ numbers ns)) (left rest.entry)
        × MatchResult made (λ lists. (lists.0.items ≡ ls) × (lists.1.items ≡ ms) × (lists.2.items ≡ ns)) (λ _. 0 < length ls + length ms + length ns)) }
{
    let (count, after) = count_numbers(rest);
    let others = slash_then(after)?;
    let made = two_lists(others, memory)?;
    Some(and_two(rest, count, made, memory))
}
