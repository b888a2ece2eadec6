// The text call.
ghost use Rattle.std.specs.Prelude.{◌≡◌};
ghost use Rattle.lexer.specs.Text.{text_mark};

// The mark of a record's text, by the record's three words for it: 0 if the text is the part from `start` to `end` of the source (`origin`
// 1) or of the text memory (`origin` 2), else document 01's refusal 27.
#[unsafe(no_mangle)]
pub extern "C" fn mihadrena_text_mark(
    source: &[u8],
    text: &[u8],
    origin: u32,
    start: u32,
    end: u32,
) -> u32
    ensures { result ≡ text_mark source.now text.now origin start end }
{
    exports::mihadrena_text_mark(source, text, origin, start, end)
}
