// Report mode reads as plain mode does, but for a number, or error 8, that ends before `;`, `"` or `|` (document 01, "Report mode"; 02
// (iii)). specs/AsPlain says it of one item, wherever both modes begin one, specs/Together of a text's items up to the first such number.
// proofs/ shows both of every text. It has no code.
#![tactic(auto)]
