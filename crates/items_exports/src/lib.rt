// Questions about records and nodes that other calls gave, for C and Rust: in which bracket a record lies, what lies beneath a node and
// beside it, whether stored records lie in what is lent; and the archive's version. Any words may be given: what a question means of them is
// defined in specs/Records and specs/Nodes. Where there is no such record or node the answer is how many there are.
#![tactic(auto)]

ghost use Rattle.std.specs.Prelude.{◌≡◌};
ghost use Rattle.items_exports.specs.Version.{version};

mod nodes;
mod records;

pub use nodes::{mihadrena_first_child, mihadrena_next_sibling};
pub use records::{mihadrena_opener, mihadrena_records_fit};

// Major, minor and patch number; the last two have eight bits each.
const VERSION: u32 = 0x00_1A_00;

// The archive's version.
pub fn mihadrena_version() -> u32
    ensures { result ≡ version }
{
    VERSION
}
