//! Reading from its bytes what a line says.

ghost use Rattle.std.specs.Prelude.{◌≢◌, ℤ, codes};
ghost use Rattle.dcel_text.specs.Items.{left};
ghost use Rattle.dcel_commands.specs.Instructions.{Instruction, command_rule};
ghost use Rattle.dcel_commands.specs.Spelling.{Reads, Says};

use crate::commands::Command::*;
use crate::commands::Query::*;
use crate::given::{
    number_and_datum, number_and_list, one_datum, one_list, one_number, three_data, three_lists,
    two_lists, two_numbers,
};
use crate::request::Request;
use crate::request::Request::{Ask, Edit};
use dcel_fixed::FixedHandleImpl;
use dcel_text::items::{Rest, first, nothing};
use std::alloc::{AllocError, Allocator};

/// The greatest number of bytes of a line before its line feed.
const LONGEST: usize = 4096;

/// What a line says, or that there is no memory for its lists; `None` for a bad line.
pub type Said<A> = Option<Result<Request<A>, AllocError>>;

/// What a line says whose items were read: it consists of these.
macro_rules! said {
    ($read:expr, $given:pat => $request:expr) => {
        match $read {
            Some(read) => {
                let $given = read;
                Some(Ok($request))
            }
            None => None,
        }
    };
}

/// The same for a line with lists, if there was memory for them.
macro_rules! said_lists {
    ($read:expr, $given:pat => $request:expr) => {
        match $read {
            Some(Ok(read)) => {
                let $given = read;
                Some(Ok($request))
            }
            Some(Err(error)) => Some(Err(error)),
            None => None,
        }
    };
}

/// Reads what comes after the word of a query. Each row has its form, and the query that results.
#[tactic(auto, using(crate::proofs::Spelling::no_word), unfolding(crate::specs::Spelling::Says))]
fn read_query<'a, A: Allocator>(word: &[u8], rest: Rest<'a>) -> Said<A>
    requires { (command : Instruction ℤ) → word.now ≢ (command_rule command).word }
    ensures { Says word.now (left rest.entry) result }
{
    match word {
        _ if word == b"counts".as_slice() => said!(nothing(rest), () => Ask(Counts)),
        _ if word == b"words".as_slice() => said!(nothing(rest), () => Ask(Words)),
        _ if word == b"hull".as_slice() => said!(nothing(rest), () => Ask(Hull)),
        _ if word == b"out".as_slice() => said!(one_number(rest), v => Ask(Out(v))),
        _ if word == b"origin".as_slice() => said!(one_number(rest), h => Ask(Origin(h))),
        _ if word == b"between".as_slice() =>
            said!(two_numbers(rest), (v, w) => Ask(Between(v, w))),
        _ if word == b"get".as_slice() => said!(one_number(rest), v => Ask(Get(v))),
        _ if word == b"check".as_slice() => said!(nothing(rest), () => Ask(Check)),
        _ => None,
    }
}

/// Reads what comes after the word of a command without lists, or of a query: a row for each
/// command.
#[tactic(auto, unfolding(crate::specs::Spelling::Says))]
fn read_plain<'a, A: Allocator>(word: &[u8], rest: Rest<'a>) -> Said<A>
    requires isolate { word.now ≢ codes "isolate" }
    requires remesh { word.now ≢ codes "remesh" }
    requires strip { word.now ≢ codes "strip" }
    requires cleanup { word.now ≢ codes "cleanup" }
    requires legalize { word.now ≢ codes "legalize" }
    ensures { Says word.now (left rest.entry) result }
{
    match word {
        _ if word == b"append".as_slice() => said!(one_datum(rest), d => Edit(Append(d))),
        _ if word == b"triangle".as_slice() =>
            said!(three_data(rest), (x, y, z) => Edit(Triangle(x, y, z))),
        _ if word == b"setup".as_slice() => said!(two_numbers(rest), (a, b) => Edit(Setup(a, b))),
        _ if word == b"extend".as_slice() => said!(two_numbers(rest), (a, b) => Edit(Extend(a, b))),
        _ if word == b"line".as_slice() => said!(two_numbers(rest), (h, b) => Edit(Line(h, b))),
        _ if word == b"close".as_slice() => said!(one_number(rest), h => Edit(Close(h))),
        _ if word == b"outside".as_slice() =>
            said!(two_numbers(rest), (h, b) => Edit(Outside(h, b))),
        _ if word == b"insert".as_slice() => said!(two_numbers(rest), (b, f) => Edit(Insert(b, f))),
        _ if word == b"half".as_slice() => said!(two_numbers(rest), (h, b) => Edit(Half(h, b))),
        _ if word == b"split".as_slice() => said!(two_numbers(rest), (h, b) => Edit(Split(h, b))),
        _ if word == b"flip".as_slice() => said!(one_number(rest), u => Edit(Flip(u))),
        _ if word == b"swap".as_slice() => said!(two_numbers(rest), (a, b) => Edit(Swap(a, b))),
        _ if word == b"put".as_slice() => said!(number_and_datum(rest), (v, d) => Edit(Put(v, d))),
        _ if word == b"remove".as_slice() => said!(one_number(rest), v => Edit(Remove(v))),
        _ if word == b"degenerate".as_slice() => said!(one_number(rest), v => Edit(Degenerate(v))),
        _ if word == b"clear".as_slice() => said!(nothing(rest), () => Edit(Clear)),
        _ => read_query(word, rest),
    }
}

/// Reads what comes after the first item of a line: a row for each command with lists.
#[tactic(auto, unfolding(crate::specs::Spelling::Says))]
fn read_after<'a, A: Allocator + Copy>(word: &[u8], rest: Rest<'a>, memory: A) -> Said<A>
    ensures { Says word.now (left rest.entry) result }
{
    match word {
        _ if word == b"isolate".as_slice() =>
            said_lists!(number_and_list(rest, memory), (v, hs) => Edit(Isolate(FixedHandleImpl::new(v), hs))),
        _ if word == b"remesh".as_slice() =>
            said_lists!(three_lists(rest, memory), (hs, us, fs) => Edit(Remesh(hs, us, fs))),
        _ if word == b"strip".as_slice() =>
            said_lists!(one_list(rest, memory), hs => Edit(Strip(hs))),
        _ if word == b"cleanup".as_slice() =>
            said_lists!(two_lists(rest, memory), (us, fs) => Edit(Cleanup(us, fs))),
        _ if word == b"legalize".as_slice() =>
            said_lists!(number_and_list(rest, memory), (n, us) => Edit(Legalize(n, us))),
        _ => read_plain(word, rest),
    }
}

/// Reads what a line says, without its line feed and with its lists in `memory`.
///
/// Returns `None` if the line is neither a command nor a query, or has more than 4,096 bytes, and
/// `AllocError` if there is no memory for a list. No mesh is involved:
/// [`apply`](crate::commands::apply) tests what a command asks of one. The table in docs/LINES.md
/// has all lines.
pub fn read<A: Allocator + Copy>(line: &[u8], memory: A) -> Said<A>
    ensures { Reads line.now result }
{
    if line.len() > LONGEST {
        return None;
    }
    let (word, rest) = first(line);
    read_after(word, rest, memory)
}
