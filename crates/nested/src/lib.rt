// Nested lists: nodes from the records of a text, by R7RS 7.1.2. Lists, dotted lists, vectors, byte lists and quoting marks, to a depth of
// 64; `#;` drops the datum after it, comments are passed over. A node is three words: its kind, its item (the number of the record that it
// starts with) and how many nodes lie beneath it; these follow it, so its next sibling is 1 + that many nodes on.
//
// `datum` and `sequence` call each other: a datum holds a sequence and a sequence holds data. A sequence is a loop, so the stack
// is bounded by the depth. The simple data that a bracket starts with are read as one run, and a list of simple data alone needs no call.
// Nothing may be written on refusal, so `build` reads twice: first into no room, which counts, then into the nodes.
#![tactic(auto)]

ghost use Rattle.std.specs.Prelude.{◌≡◌, true, false, ◌+◌, ◌*◌, ◌-◌, ◌<◌, ◌≤◌, length};
ghost use Rattle.nested.specs.Items.{count_of};
ghost use Rattle.nested.specs.Grammar.{deepest};
ghost use Rattle.nested.specs.Errors.{error_number};
ghost use Rattle.nested.specs.Lent.{told_of, outcome, nested_of};
ghost use Rattle.nested.specs.Said.{Put, Above, Took, Simples, Run, TurnSaid, Begins, SequenceSaid, PlanSaid};

use classes::{class_at, closes_at, is_simple_at, simple_at};
use frames::{begun, held, node_kind, pointed_at, shape_kind, skipped};
use items::RECORD_WORDS;
use nodes::NODE_WORDS;
use refusals::{ending_at, wrong_at};

mod classes;
mod frames;
pub mod nodes;
pub mod refusals;

// As many numbers as a word can hold.
const WORD: usize = 0x1_0000_0000;

// What a record is to the reader: none of the layout's, an error, a comment, `#;`, a quoting mark, a simple datum with its
// node's kind, an opening and a closing bracket with its detail, a dot. A bracket is a u64 here and in a frame: the compiler packs a u32 into
// one word with the tag, and takes it apart again at every record.
#[derive(Clone, Copy)]
pub enum Class {
    Alien,
    Fails,
    Passes,
    Drops,
    Marks,
    Simple(u32),
    Opens(u64),
    Closes(u64),
    Dots,
}

// A level that is open: the whole text; a mark or `#;` that waits; a bracket with no datum yet, with some, with a dot that
// waits, with the datum after the dot.
#[derive(Clone, Copy)]
pub enum Frame {
    Plan,
    Quoting,
    Dropping,
    Fresh(u64),
    Holds(u64),
    Dotted(u64),
    Tailed(u64),
}

// What follows on something that was read, and the kind of its node.
#[derive(Clone, Copy)]
pub struct Read {
    // the next record
    pub next: usize,
    // the next node
    pub node: usize,
    pub kind: u32,
}

// What one record of a level does, with the datum that starts there: reading goes on at a record and a node in a frame; or the level is
// shut, and the next record and node follow it.
#[derive(Clone, Copy)]
pub enum Turn {
    On(usize, usize, Frame),
    Shut(usize, usize),
}

// Why records have no nodes, each with the smallest text that shows it.
#[derive(Clone, Copy)]
pub enum NestErrorKind {
    // a kind that no record has, or a detail that its kind does not have
    Alien,
    // an error item: ##
    ErrorItem,
    // a close, a dot or the end where a mark waits for its datum: '
    MarkWaits,
    // a dot outside a round, square or curly list, a second one, or one without data on both sides: .
    MisplacedDot,
    // a wrong or stray close: )
    WrongClose,
    // the end with a bracket open: (
    BracketOpen,
    // a level inside 64 others
    TooDeep,
    // the nodes do not fit
    FewNodes,
}

impl NestErrorKind {
    // Document 01's number of the refusal.
    pub fn number(self) -> u32
        ensures { result ≡ error_number self }
    {
        match self {
            NestErrorKind::Alien => refusal::ALIEN,
            NestErrorKind::ErrorItem => refusal::ERROR_ITEM,
            NestErrorKind::MarkWaits => refusal::MARK_WAITS,
            NestErrorKind::MisplacedDot => refusal::MISPLACED_DOT,
            NestErrorKind::WrongClose => refusal::WRONG_CLOSE,
            NestErrorKind::BracketOpen => refusal::BRACKET_OPEN,
            NestErrorKind::TooDeep => refusal::TOO_DEEP,
            NestErrorKind::FewNodes => refusal::FEW_NODES,
        }
    }
}

// A refusal and its record: at the end the number of records, and 0 where the nodes do not fit.
#[derive(Clone, Copy)]
pub struct NestError {
    pub kind: NestErrorKind,
    pub at: usize,
}

// Writes the node at node place `w`.
fn lay(nodes: &mut [u32], w: usize, kind: u32, item: usize, beneath: usize)
    requires { (w + 1) * 3 ≤ length nodes.old }
    ensures { Put w kind item beneath nodes.old nodes.new }
{
    let p = w * NODE_WORDS;
    nodes[p] = kind;
    nodes[p + 1] = (item % WORD) as u32;
    nodes[p + 2] = (beneath % WORD) as u32;
}

// Writes the node at node place `w`, if there is room.
fn put(nodes: &mut [u32], w: usize, kind: u32, item: usize, beneath: usize)
    ensures { Put w kind item beneath nodes.old nodes.new }
{
    if w < nodes.len() / NODE_WORDS {
        lay(nodes, w, kind, item, beneath);
    }
}

// A level is shut and is a datum of the frame f: its node at node place w, with the nodes beneath it from there up to v.
fn took(nodes: &mut [u32], f: Frame, opened: usize, w: usize, r: Read) -> Turn
    requires { Above w r }
    ensures { Took f opened w nodes.old nodes.new r result }
{
    put(nodes, w, r.kind, opened, r.node - w - 1);
    held(f, r.next, r.node)
}

// Where a run of simple data ends.
fn simples_end(records: &[u32], count: usize, from: usize) -> usize
    requires { (count ≡ count_of records.now) × (from ≤ count) }
    ensures { Simples records.now from result }
{
    for at in from..count {
        if !is_simple_at(records, at) {
            return at;
        }
    }
    count
}

// Where a run of simple data ends, as far as there are nodes for it; they are written from node place w on. There are never more nodes
// than records before a place, so one limit serves both.
fn put_simples(records: &[u32], count: usize, from: usize, nodes: &mut [u32], w: usize) -> usize
    requires { (count ≡ count_of records.now) × (from ≤ count) × (w ≤ from) }
    ensures { Run records.now from w nodes.old nodes.new result }
{
    let limit = count.min(nodes.len() / NODE_WORDS);
    let mut at = from;
    let mut v = w;
    while at < limit {
        let Some(kind) = simple_at(records, at) else {
            return at;
        };
        lay(nodes, v, kind, at, 0);
        at += 1;
        v += 1;
    }
    at
}

// A run of simple data, with its nodes: where it ends. Where no node has room, as when nodes are only counted, it is passed over.
fn simples(records: &[u32], count: usize, from: usize, nodes: &mut [u32], w: usize) -> usize
    requires { (count ≡ count_of records.now) × (from ≤ count) × (w ≤ from) }
    ensures { Run records.now from w nodes.old nodes.new result }
{
    if nodes.len() < NODE_WORDS {
        return simples_end(records, count, from);
    }
    put_simples(records, count, from, nodes, w)
}

// The datum reader: the datum that starts at the record `at`, or what a sequence passes over there, or its end. What `#;` drops is
// read and not written. A bracket's first simple data are read here; if its close follows them, there is no sequence to read.
#[cycle(datum_sequence)]
fn datum(
    records: &[u32],
    count: usize,
    at: usize,
    depth: usize,
    f: Frame,
    nodes: &mut [u32],
    w: usize,
) -> Result<Turn, NestError>
    requires { (count ≡ count_of records.now) × (at < count) × (w ≤ at) × (depth ≤ deepest) }
    ensures { TurnSaid records.now at depth f w nodes.old nodes.new result }
{
    let k = class_at(records, at);
    if let Err(kind) = wrong_at(k, f, depth) {
        return Err(NestError { kind, at });
    }
    let inner = depth + 1;
    match k {
        Class::Alien => Err(NestError {
            kind: NestErrorKind::Alien,
            at,
        }),
        Class::Fails => Err(NestError {
            kind: NestErrorKind::ErrorItem,
            at,
        }),
        Class::Passes => Ok(Turn::On(at + 1, w, f)),
        Class::Drops => {
            let mut none = [0u32; 1];
            let r = sequence(records, count, at + 1, inner, Frame::Dropping, &mut none, 1)?;
            Ok(skipped(f, w, r))
        }
        Class::Marks => {
            let r = sequence(records, count, at + 1, inner, Frame::Quoting, nodes, w + 1)?;
            Ok(took(nodes, f, at, w, r))
        }
        Class::Simple(m) => {
            put(nodes, w, m, at, 0);
            Ok(held(f, at + 1, w + 1))
        }
        Class::Opens(s) => {
            let end = simples(records, count, at + 1, nodes, w + 1);
            let v = w + (end - at);
            if closes_at(records, count, end, s) {
                let leaf = Read {
                    next: end + 1,
                    node: v,
                    kind: shape_kind(s),
                };
                return Ok(took(nodes, f, at, w, leaf));
            }
            let r = sequence(records, count, end, inner, begun(s, end - at - 1), nodes, v)?;
            Ok(took(nodes, f, at, w, r))
        }
        Class::Closes(_bracket) => Ok(Turn::Shut(at + 1, w)),
        Class::Dots => Ok(Turn::On(at + 1, w, pointed_at(f))),
    }
}

// The sequence reader: the data from the record `from` on, up to the record that shuts their level, or to the end of the whole text; their
// nodes come from node place `first` on. The node of the level itself is its reader's.
#[cycle(datum_sequence)]
fn sequence(
    records: &[u32],
    count: usize,
    from: usize,
    depth: usize,
    f: Frame,
    nodes: &mut [u32],
    first: usize,
) -> Result<Read, NestError>
    requires { Begins records.now count from depth f first }
    ensures { SequenceSaid records.now from depth f first nodes.old nodes.new result }
{
    let mut at = from;
    let mut v = first;
    let mut g = f;
    while at < count {
        let t = datum(records, count, at, depth, g, nodes, v)?;
        match t {
            Turn::On(p, x, h) => {
                at = p;
                v = x;
                g = h;
            }
            Turn::Shut(next, node) => {
                let kind = node_kind(g);
                return Ok(Read { next, node, kind });
            }
        }
    }
    if let Err(kind) = ending_at(g) {
        return Err(NestError { kind, at: count });
    }
    let kind = node_kind(g);
    Ok(Read {
        next: count,
        node: v,
        kind,
    })
}

// The data of the whole text.
fn plan(records: &[u32], nodes: &mut [u32]) -> Result<Read, NestError>
    ensures { PlanSaid records.now nodes.old nodes.new result }
{
    let count = records.len() / RECORD_WORDS;
    sequence(records, count, 0, 0, Frame::Plan, nodes, 0)
}

// The nodes of the records, written from the start of `nodes` on; or the refusal, and `nodes` stays as it was.
pub fn build(records: &[u32], nodes: &mut [u32]) -> Result<usize, NestError>
    ensures { outcome (told_of result) nodes.new ≡ nested_of records.now nodes.old }
{
    let mut none = [0u32; 1];
    let counted = plan(records, &mut none)?;
    let few = NestError {
        kind: NestErrorKind::FewNodes,
        at: 0,
    };
    if nodes.len() / NODE_WORDS < counted.node {
        return Err(few);
    }
    if WORD < records.len() / RECORD_WORDS {
        return Err(few);
    }
    plan(records, nodes)?;
    Ok(counted.node)
}
