// Lists the items of standard input: document 01, "Program `lexlist`". Crate `lexlist_listing` says what is printed.
#![tactic(auto)]

use std::io;

fn main(rt: HostRuntime) -> io::Result<()> {
    lexlist_listing::list(&mut rt.reader(), io::writer(&rt))
}
