// The rows in lent memory.
ghost use Rattle.std.specs.Prelude.{◌≡◌, ◌∷◌, [], ◌≤◌, length};
ghost use Rattle.laws.specs.Lent.{written};
ghost use Rattle.lexer_fields.specs.Fields.{row_words};

// How many words a row has.
pub const ROW: usize = 4;

// A row at the start of lent memory: a part's first record, its first text byte, its mark and its place.
pub fn put_row(rows: &mut [u32], first: u32, byte: u32, mark: u32, place: u32)
    requires { row_words ≤ length rows.old }
    ensures { rows.new ≡ written (first ∷ byte ∷ mark ∷ place ∷ []) rows.old }
{
    rows[0] = first;
    rows[1] = byte;
    rows[2] = mark;
    rows[3] = place;
}
