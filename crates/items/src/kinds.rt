// The numbers of document 01, "An item": kinds in the order of `TokenType`, errors by their table, details, text sources. Each kind and
// each error has the smallest text that makes it.

// (
pub const OPEN_PAREN: u32 = 0;

// )
pub const CLOSE_PAREN: u32 = 1;

// '
pub const QUOTE_TICK: u32 = 2;

// `
pub const QUASI_QUOTE: u32 = 3;

// ,
pub const UNQUOTE: u32 = 4;

// ,@
pub const UNQUOTE_SPLICE: u32 = 5;

// #'
pub const QUOTE_SYNTAX: u32 = 6;

// #`
pub const QUASI_QUOTE_SYNTAX: u32 = 7;

// #,
pub const UNQUOTE_SYNTAX: u32 = 8;

// #,@
pub const UNQUOTE_SPLICE_SYNTAX: u32 = 9;

// if
pub const IF: u32 = 10;

// define
pub const DEFINE: u32 = 11;

// let
pub const LET: u32 = 12;

// %plain-let
pub const TEST_LET: u32 = 13;

// return!
pub const RETURN: u32 = 14;

// begin
pub const BEGIN: u32 = 15;

// lambda
pub const LAMBDA: u32 = 16;

// quote
pub const QUOTE: u32 = 17;

// syntax-rules
pub const SYNTAX_RULES: u32 = 18;

// define-syntax
pub const DEFINE_SYNTAX: u32 = 19;

// ...
pub const ELLIPSES: u32 = 20;

// set!
pub const SET: u32 = 21;

// require
pub const REQUIRE: u32 = 22;

// #\a
pub const CHARACTER_LITERAL: u32 = 23;

// #;
pub const DATUM_COMMENT: u32 = 24;

// ;
pub const COMMENT: u32 = 25;

// #t
pub const BOOLEAN_LITERAL: u32 = 26;

// a
pub const IDENTIFIER: u32 = 27;

// #:a
pub const KEYWORD: u32 = 28;

// 1
pub const NUMBER: u32 = 29;

// ""
pub const STRING_LITERAL: u32 = 30;

// .
pub const DOT: u32 = 31;

// An error has this kind and its number more.
pub const FIRST_ERROR: u32 = 100;

// ---- errors

// ##
pub const UNEXPECTED_CHAR: u32 = 1;

// "
pub const INCOMPLETE_STRING: u32 = 2;

// |
pub const INCOMPLETE_IDENTIFIER: u32 = 3;

// #|
pub const INCOMPLETE_COMMENT: u32 = 4;

// "\ a
pub const INVALID_WHITESPACE: u32 = 5;

// "\q
pub const INVALID_STRING_ESCAPE: u32 = 6;

// #\
pub const INVALID_CHARACTER: u32 = 7;

// 1/0
pub const ZERO_DENOMINATOR: u32 = numbers::ZERO_DENOMINATOR;

// "\x(
pub const UNCLOSED_HEX_ESCAPE: u32 = 9;

// #\aa
pub const INVALID_CHAR_NAME: u32 = 10;

// "\x;
pub const INVALID_HEX_ESCAPE_LITERAL: u32 = 11;

// "\xD800;
pub const INVALID_HEX_CODE_POINT: u32 = 12;

// #\a; in report mode
pub const INVALID_CHAR_DELIMITER: u32 = 13;

// no error has a greater number
pub const LAST_ERROR: u32 = INVALID_CHAR_DELIMITER;

// the kind of the last error that there is
pub const LAST_ERROR_KIND: u32 = FIRST_ERROR + LAST_ERROR;

// ---- details

// of every item that 01 gives no other
pub const NO_DETAIL: u32 = 0;

// #f
pub const FALSE: u32 = 0;

// #t
pub const TRUE: u32 = 1;

// the bracket of OPEN_PAREN and CLOSE_PAREN: (
pub const ROUND: u32 = 0;

// [
pub const SQUARE: u32 = 1;

// {
pub const CURLY: u32 = 2;

// #(
pub const VECTOR: u32 = 3;

// #u8(
pub const BYTES: u32 = 6;

// of error 11, where there are no digits: "\u;
pub const NO_DIGITS: u32 = 1;

// ---- text sources

// no text: (
pub const NO_TEXT: u32 = 0;

// a part of the source: a
pub const IN_SOURCE: u32 = 1;

// a part of the text memory: "\n"
pub const IN_MEMORY: u32 = 2;
