// Runs the listing of `lexlist` on the files of data/, each under its name, by the same call.
#![tactic(auto)]

use std::rt::Files;
use std::{fs, io};

// Lists the items of a file, under its name. What cannot be opened is told on standard error.
fn case(rt: &(impl Files + Print + Eprint), name: &str) -> io::Result<()> {
    println!(rt; "== {name}")?;
    match fs::open(rt, name) {
        Ok(mut file) => lexlist_listing::list(&mut file, io::writer(rt)),
        Err(e) => eprintln!(rt; "{name}: {e}"),
    }
}

fn main(rt: HostRuntime) -> io::Result<()> {
    // document 01's sample, and no text at all
    case(&rt, "sample")?;
    case(&rt, "empty")?;
    // an error of every number that plain mode has; 2, 4 and 7 come only at the end of a text, so each has its own
    case(&rt, "errors")?;
    case(&rt, "errors_2")?;
    case(&rt, "errors_4")?;
    case(&rt, "errors_7")?;
    // a byte that no character has; a character that cannot go on so, in an item; a byte beyond an item, which is not given; a
    // character that the end cuts
    case(&rt, "refused_21")?;
    case(&rt, "refused_21_begun")?;
    case(&rt, "refused_21_beyond")?;
    case(&rt, "refused_21_end")?;
    // an item of 4,097 bytes, after others; one of 4,096
    case(&rt, "refused_23")?;
    case(&rt, "longest")?;
    // five times what is read at once, with characters of two and four bytes, a pair and a string over the edges
    case(&rt, "larger")?;
    // a folder, which opens and cannot be read
    case(&rt, "folder")
}
