// The calls of the crate `names` for programs in C and Rust: an answer is a mark, 0 or a refusal's number, and what it comes with goes to
// lent numbers, which are 0 where the call is refused.
#![tactic(auto)]

ghost use Rattle.std.specs.Prelude.{◌≡◌};
ghost use Rattle.names.specs.Answers.{mark_in};
ghost use Rattle.names.specs.Call.{opening, open_of, enter_of, mark_of, place_of};
ghost use Rattle.names.specs.Layout.{placed};
ghost use Rattle.names_exports.specs.Marks.{entered, entered_of};

use names::NameError;
use refusal::SERVED;

// The mark of a call that comes with no number.
fn mark(r: Result<(), NameError>) -> u32
    ensures { result ≡ mark_in r }
{
    match r {
        Ok(()) => SERVED,
        Err(e) => e.number(),
    }
}

// Opens a table: its words are cleared.
pub fn mihadrena_names_open(words: &mut [u32], bytes: &[u8]) -> u32
    ensures { opening result words.new ≡ open_of words.old bytes.now }
{
    mark(names::open_table(words, bytes))
}

// A party asks for a name's number.
pub fn mihadrena_names_enter(
    words: &mut [u32],
    bytes: &mut [u8],
    party: u32,
    name: &[u8],
    number: &mut u32,
) -> u32
    ensures { entered result number.new words.new bytes.new ≡ entered_of (enter_of words.old bytes.old party name.now) }
{
    match names::enter(words, bytes, party, name) {
        Ok(n) => {
            *number = n;
            SERVED
        }
        Err(e) => {
            *number = 0;
            e.number()
        }
    }
}

// Where a number's name lies in `bytes`.
pub fn mihadrena_names_place(
    words: &[u32],
    bytes: &[u8],
    number: u32,
    start: &mut usize,
    end: &mut usize,
) -> u32
    ensures { (result ≡ mark_of words.now bytes.now number) × (placed start.new end.new ≡ place_of words.now bytes.now number) }
{
    let lies = names::place_of(words, bytes, number);
    *start = lies.start;
    *end = lies.end;
    mark(names::name_mark(words, bytes, number))
}
