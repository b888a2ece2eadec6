// What the rows and the findings of a plan are worth to one who acts on them. proofs/Unmended: where report mode finds no slip, the rows are
// exactly its records, errors as atoms (`unmended`). proofs/CleanExactly: no finding is an error exactly if the reader and the nested lists
// have nothing to refuse of the plan (`clean_exactly`). proofs/InOrder: findings come in the order of their places (`in_order`). proofs/InText:
// both places of every finding lie in the text (`places_within`). proofs/Written: the places of every finding that `find` writes stand between
// two characters of the text, so that line and column answer each (`places_in_text`, `places_answered`). proofs/Order: rows come in the order
// of their extents (`rows_in_order`). It has no code.
#![tactic(auto)]
