// What a record is to the reader, by its kind and its detail. This and specs/Items.antt are the one table of the kinds and details that the
// layout has.
ghost use Rattle.std.specs.Prelude.{◌≡◌, ◌<◌};
ghost use Rattle.items.specs.Kinds as kind;
ghost use Rattle.nested.specs.Items.{has_detail, sort_of, kind_at, detail_at, class_of, class_at, count_of};
ghost use Rattle.nested.specs.Said.{PlainSaid, SimpleSaid, SimpleAt, IsSimple, ClosesSaid};

use crate::refusals::closer_of;
use crate::{Class, nodes};
use chars::is_scalar;
use items::{RECORD_WORDS, kinds};

// Whether a kind has this detail in the layout.
fn has_detail(k: u32, d: u32) -> bool
    ensures { result ≡ has_detail k d }
{
    if k == kinds::OPEN_PAREN {
        if d <= kinds::VECTOR {
            return true;
        }
        return d == kinds::BYTES;
    }
    if k == kinds::CLOSE_PAREN {
        return d <= kinds::CURLY;
    }
    if k == kinds::CHARACTER_LITERAL {
        return is_scalar(d);
    }
    if k == kinds::BOOLEAN_LITERAL {
        return d <= kinds::TRUE;
    }
    d == kinds::NO_DETAIL
}

// What a kind of the layout is to the reader.
fn sort(k: u32, d: u32) -> Class
    ensures { result ≡ sort_of k d }
{
    if k == kinds::OPEN_PAREN {
        return Class::Opens(d as u64);
    }
    if k == kinds::CLOSE_PAREN {
        return Class::Closes(d as u64);
    }
    if k <= kinds::UNQUOTE_SPLICE_SYNTAX {
        return Class::Marks;
    }
    if k <= kinds::REQUIRE {
        return Class::Simple(nodes::NODE_SYMBOL);
    }
    if k == kinds::CHARACTER_LITERAL {
        return Class::Simple(nodes::NODE_CHARACTER);
    }
    if k == kinds::DATUM_COMMENT {
        return Class::Drops;
    }
    if k == kinds::COMMENT {
        return Class::Passes;
    }
    if k == kinds::BOOLEAN_LITERAL {
        return Class::Simple(nodes::NODE_BOOLEAN);
    }
    if k <= kinds::KEYWORD {
        return Class::Simple(nodes::NODE_SYMBOL);
    }
    if k == kinds::NUMBER {
        return Class::Simple(nodes::NODE_NUMBER);
    }
    if k == kinds::STRING_LITERAL {
        return Class::Simple(nodes::NODE_STRING);
    }
    Class::Dots
}

// The node's kind of a datum whose kind has no details; none where one stands.
fn plain_kind(kind: u32, d: u32) -> Option<u32>
    ensures { PlainSaid kind d result }
{
    if d == kinds::NO_DETAIL {
        Some(kind)
    } else {
        None
    }
}

// The node's kind of a simple datum that is rare in plans: a string, a boolean, a character, a word such as if.
fn rare_kind(k: u32, d: u32) -> Option<u32>
    requires { kind.UnquoteSpliceSyntax < k }
    ensures { SimpleSaid k d result }
{
    if k == kinds::STRING_LITERAL {
        return plain_kind(nodes::NODE_STRING, d);
    }
    if k == kinds::BOOLEAN_LITERAL {
        if d <= kinds::TRUE {
            return Some(nodes::NODE_BOOLEAN);
        }
        return None;
    }
    if kinds::CHARACTER_LITERAL < k {
        return None;
    }
    if k == kinds::CHARACTER_LITERAL {
        if is_scalar(d) {
            return Some(nodes::NODE_CHARACTER);
        }
        return None;
    }
    plain_kind(nodes::NODE_SYMBOL, d)
}

// The node's kind of a simple datum; none of any other record. What ends most runs of simple data is tried first.
fn simple_kind(k: u32, d: u32) -> Option<u32>
    ensures { SimpleSaid k d result }
{
    if k <= kinds::UNQUOTE_SPLICE_SYNTAX {
        return None;
    }
    if k == kinds::NUMBER {
        return plain_kind(nodes::NODE_NUMBER, d);
    }
    if kinds::BOOLEAN_LITERAL < k {
        if k <= kinds::KEYWORD {
            return plain_kind(nodes::NODE_SYMBOL, d);
        }
    }
    rare_kind(k, d)
}

// Whether a record is a simple datum.
fn is_simple(k: u32, d: u32) -> bool
    ensures { IsSimple (class_of k d) result }
{
    if k <= kinds::UNQUOTE_SPLICE_SYNTAX {
        return false;
    }
    if kinds::BOOLEAN_LITERAL < k {
        if k <= kinds::STRING_LITERAL {
            return d == kinds::NO_DETAIL;
        }
    }
    rare_kind(k, d).is_some()
}

// What a kind and a detail are to the reader, by the table.
fn table_class(k: u32, d: u32) -> Class
    ensures { result ≡ class_of k d }
{
    if k <= kinds::DOT {
        if has_detail(k, d) {
            return sort(k, d);
        }
        return Class::Alien;
    }
    if kinds::FIRST_ERROR < k {
        if k <= kinds::LAST_ERROR_KIND {
            return Class::Fails;
        }
        return Class::Alien;
    }
    Class::Alien
}

// What an opening bracket is to the reader.
fn open_class(d: u32) -> Class
    ensures { result ≡ class_of kind.OpenParen d }
{
    if has_detail(kinds::OPEN_PAREN, d) {
        return Class::Opens(d as u64);
    }
    Class::Alien
}

// What a closing bracket is to the reader.
fn close_class(d: u32) -> Class
    ensures { result ≡ class_of kind.CloseParen d }
{
    if has_detail(kinds::CLOSE_PAREN, d) {
        return Class::Closes(d as u64);
    }
    Class::Alien
}

// What a comment is to the reader.
fn comment_class(d: u32) -> Class
    ensures { result ≡ class_of kind.Comment d }
{
    if d == kinds::NO_DETAIL {
        return Class::Passes;
    }
    Class::Alien
}

// What a kind and a detail are to the reader: what is frequent in plans first, then by the table.
fn class_of(k: u32, d: u32) -> Class
    ensures { result ≡ class_of k d }
{
    if k == kinds::OPEN_PAREN {
        return open_class(d);
    }
    if k == kinds::CLOSE_PAREN {
        return close_class(d);
    }
    if let Some(m) = simple_kind(k, d) {
        return Class::Simple(m);
    }
    if k == kinds::COMMENT {
        return comment_class(d);
    }
    table_class(k, d)
}

// The kind and the detail of the record at a place.
fn words_at(records: &[u32], at: usize) -> (u32, u32)
    requires { at < count_of records.now }
    ensures { (result.0 ≡ kind_at records.now at) × (result.1 ≡ detail_at records.now at) }
{
    let p = at * RECORD_WORDS;
    (records[p], records[p + 1])
}

// What the record at a place is to the reader.
pub fn class_at(records: &[u32], at: usize) -> Class
    requires { at < count_of records.now }
    ensures { result ≡ class_at records.now at }
{
    let (k, d) = words_at(records, at);
    class_of(k, d)
}

// The node's kind of the simple datum at a place; none of any other record.
pub fn simple_at(records: &[u32], at: usize) -> Option<u32>
    requires { at < count_of records.now }
    ensures { SimpleAt records.now at result }
{
    let (k, d) = words_at(records, at);
    simple_kind(k, d)
}

// Whether the record at a place is a simple datum.
pub fn is_simple_at(records: &[u32], at: usize) -> bool
    requires { at < count_of records.now }
    ensures { IsSimple (class_at records.now at) result }
{
    let (k, d) = words_at(records, at);
    is_simple(k, d)
}

// Whether the record at a place closes the bracket s.
pub fn closes_at(records: &[u32], count: usize, at: usize, s: u64) -> bool
    requires { count ≡ count_of records.now }
    ensures { ClosesSaid records.now at s result }
{
    if at < count {
        let (k, d) = words_at(records, at);
        if k == kinds::CLOSE_PAREN {
            return d as u64 == closer_of(s);
        }
    }
    false
}
