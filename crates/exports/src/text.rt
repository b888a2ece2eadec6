// The text call of the crate `lexer`, as far as C has it: whether a record's text lies where the record says. A slice cannot be handed
// back to C; where the text is, the record's three words for it say.
ghost use Rattle.std.specs.Prelude.{◌≡◌};
ghost use Rattle.lexer.specs.Text.{text_mark};

// The mark of a record's text, by the record's three words for it: 0 if the text is the part from `start` to `end` of the source (`origin`
// 1) or of the text memory (`origin` 2), else document 01's refusal 27.
pub fn mihadrena_text_mark(source: &[u8], text: &[u8], origin: u32, start: u32, end: u32) -> u32
    ensures { result ≡ text_mark source.now text.now origin start end }
{
    lexer::text_mark(source, text, origin, start, end)
}
