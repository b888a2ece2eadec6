// Texts in pieces at their edges, run: items of 4,096 and 4,097 bytes of every sort, cuts inside characters, and bytes that are no text; then
// single piece calls: each refusal that a call may give, waiting items, stops that stand, and states that no call made. What it has to print
// is worked out from document 01, and for the fields of a state from docs/STATE.md.
// Two rules are not run: 20, which wants a text of 4 GiB, and so 20 before 21 and 23 at one byte.
#![tactic(auto)]

use pieces_cuttings::Cutting;
use std::io;
use std::rt::Files;

mod calls;
mod cases;
mod cuts;
mod files;
mod long;
mod show;
mod standing;

// As many bytes as the longest text has, and more.
const ALL: usize = 6000;

// The largest of the small pieces.
const SMALL: usize = 99;

// Readings that must print the same under every cutting.
fn read(rt: &(impl Files + Print), name: &[u8], cutting: Cutting) -> io::Result<()> {
    show::print(rt, name)?;
    long::edge(rt, cutting)?;
    long::wide_ends(rt, cutting)?;
    long::no_items(rt, cutting)?;
    cuts::not_utf8(rt, cutting)?;
    cuts::cut_by_end(rt, cutting)
}

fn main(rt: HostRuntime) -> io::Result<()> {
    read(
        &rt,
        b"== byte by byte\n",
        Cutting {
            first: 1,
            low: 1,
            high: 1,
        },
    )?;
    read(
        &rt,
        b"== in pieces of 0 to 99 bytes\n",
        Cutting {
            first: 0,
            low: 0,
            high: SMALL,
        },
    )?;
    read(
        &rt,
        b"== in one piece\n",
        Cutting {
            first: ALL,
            low: ALL,
            high: ALL,
        },
    )?;
    show::print(&rt, b"== cuts inside characters\n")?;
    cuts::characters(&rt)?;
    show::print(&rt, b"== single calls\n")?;
    calls::edge(&rt)
}
